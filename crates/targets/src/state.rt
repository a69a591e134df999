//! The instances in executable order.

ghost use Rattle.std.specs.Prelude.{◌≡◌, ◌≢◌, ℕ, Bool, ◌-◌, ◌<◌, ◌==◌, ◌∷◌, [], ◌++◌, length, map, filter, not, nat_lt, position, is_some, IfOk, OnOk, OnErr, MatchOption, false, unwrap_or, option_map, true, IsTrue, ◌↔◌};
ghost use Rattle.std.specs.List.{list_any};
ghost use Rattle.machine_spec.specs.declared.instance.Instance.{Instance as Seen};
ghost use Rattle.machine_spec.specs.Costume as costume;
ghost use Rattle.machine_spec.specs.Effects.{effect_place, no_effects};
ghost use Rattle.machine_spec.specs.Frame as frame;
ghost use Rattle.machine_spec.specs.Line.{without_edges};
ghost use Rattle.machine_spec.specs.Lists.{first_removed};
ghost use Rattle.machine_spec.specs.Looks.{with_effect, with_size, with_costume, at_layer, layer};
ghost use Rattle.machine_spec.specs.Motion.{facing, at_point};
ghost use Rattle.machine_spec.specs.Stopping.{copied, placed_behind, cleared};
ghost use Rattle.machine_spec.specs.Stores.{live, instance_at, on_instance, is_on_stage};
ghost use Rattle.targets.specs.Changes.{changed_by};
ghost use Rattle.machine_spec.specs.Program as program;
ghost use Rattle.target_records.specs.Records.{records_in};
ghost use Rattle.targets.specs.Clones.{lacks_room, has_no_room};
ghost use Rattle.targets.specs.First.{first_instances};
ghost use Rattle.targets.specs.Edges.{edge_of};
ghost use Rattle.targets.specs.Layers.{layer_to};
ghost use Rattle.targets.specs.Live.{IsLive, IsSameCast, target_of, numbers};

use crate::changes::{self, Change};
use crate::layers::{self, Place};
use crate::order::{self, Ids, Order};
use crate::{clones, edges, first};
use machine_spec::{
    BlockId, Bubble, BubbleText, Edges, Effect, Instance, InstanceId, Say, Style, TargetId,
};
use scratch_number::Num;
use std::alloc::{AllocError, Global};
use std::marker::Model;
use target_records::Records;

/// The instances in executable order. Contracts see the list of them. A call that changes one instance changes nothing, and
/// requests no redraw that hangs on its being visible, where none of that number is live.
pub struct Targets {
    alloc: Global,
    instances: Vec<Instance>,
    order: Order,
}

// Not derived: whoever holds one calls this, and does not prove anew how it is taken apart.
impl Drop for Targets {
    fn drop(self) {
        let Targets {
            alloc: _,
            instances: _instances,
            order: _order,
        } = self;
    }
}

impl Model for Targets {
    ghost use Rattle.std.specs.Prelude.{◌≡◌, List};
    ghost use Rattle.machine_spec.specs.declared.instance.Instance.{Instance as Seen};
    ghost use Rattle.targets.specs.Live.{numbers};

    ghost Value = { List Seen };

    ghost view = { λ t. t.instances.items };

    ghost invariant = { λ t. t.order ≡ numbers t.instances.items };
}

impl Targets {
    /// The originals of all targets, in executable order: the stage, then the sprites by layer order, equals in file order. The
    /// only error is want of memory.
    pub fn open(alloc: Global, records: &Records) -> Result<Targets, AllocError>
        ensures { IfOk result (λ targets. targets ≡ first_instances (records_in records.now).targets) }
    {
        // There are fewer than 2^32 targets.
        let _count = records.targets();
        Targets::rebuild(alloc, first::instances(alloc, records.all_targets())?)
    }

    /// These instances, in this executable order. The only error is want of memory, and then nothing is kept.
    pub fn rebuild(alloc: Global, instances: Vec<Instance>) -> Result<Targets, AllocError>
        ensures { IfOk result (λ targets. targets ≡ instances.items) }
    {
        let order = Order::open(alloc, first::numbers_of(alloc, instances.as_slice())?)?;
        Ok(Targets {
            alloc,
            instances,
            order,
        })
    }

    // The place of an instance in the order.
    #[inline]
    fn place(&self, id: InstanceId) -> Option<usize>
        ensures { result ≡ position (λ i. i.number == id) self.now }
    {
        self.order.place(id)
    }

    /// The numbers of the instances in executable order.
    pub fn order(&self) -> &Ids
        ensures { result.now ≡ numbers self.now }
    {
        self.order.ids()
    }

    /// The instances in executable order.
    pub fn instances(&self) -> &[Instance]
        ensures { result.now ≡ self.now }
    {
        self.instances.as_slice()
    }

    /// The instance of a number. None exactly where none is live.
    #[inline]
    pub fn get(&self, id: InstanceId) -> Option<&Instance>
        ensures { option_map (λ i. i.now) result ≡ live id self.now }
    {
        match self.place(id) {
            Some(place) => Some(&self.instances[place]),
            None => None,
        }
    }

    /// Whether an instance is live.
    pub fn is_live(&self, id: InstanceId) -> bool
        ensures { IsTrue result ↔ IsLive id self.now }
    {
        self.place(id).is_some()
    }

    /// The target of an instance, and the first where none is live.
    pub fn target(&self, id: InstanceId) -> TargetId
        ensures { result ≡ (instance_at id self.now).of }
    {
        match self.place(id) {
            Some(place) => self.instances[place].of,
            None => TargetId(0),
        }
    }

    /// Whether an instance is visible; where none is live it is not.
    pub fn is_visible(&self, id: InstanceId) -> bool
        ensures { result ≡ (instance_at id self.now).visible }
    {
        match self.get(id) {
            Some(instance) => instance.visible,
            None => false,
        }
    }

    /// Whether an instance is on the stage; where none is live, whether the first target is the stage. The records are
    /// those with which the run began.
    #[inline]
    pub fn is_on_stage(&self, records: &Records, id: InstanceId) -> bool
        ensures { result ≡ is_on_stage (instance_at id self.now) (records_in records.now) }
    {
        clones::is_stage(self.target(id), records)
    }

    // Changes an instance, and tells whether it was visible. Where none is live nothing changes, and none is visible.
    fn change(&mut self, id: InstanceId, change: Change) -> bool
        ensures visible { result ≡ (instance_at id self.old).visible }
        ensures new { self.new ≡ on_instance id (changed_by change) self.old }
        ensures kept { IsSameCast self.old self.new }
    {
        match self.place(id) {
            Some(place) => changes::make(&mut self.instances[place], change),
            None => false,
        }
    }

    /// Moves an instance. A redraw is requested where it is visible.
    pub fn set_xy(&mut self, id: InstanceId, x: Num, y: Num) -> bool
        ensures redraw { result ≡ (instance_at id self.old).visible }
        ensures new { self.new ≡ on_instance id (at_point (record { x = x; y = y })) self.old }
        ensures kept { IsSameCast self.old self.new }
    {
        self.change(id, Change::Place { x, y })
    }

    /// Turns an instance; a direction that is not finite changes nothing. A redraw is requested where it is visible.
    pub fn set_direction(&mut self, id: InstanceId, d: Num) -> bool
        ensures redraw { result ≡ (instance_at id self.old).visible }
        ensures new { self.new ≡ on_instance id (facing d) self.old }
        ensures kept { IsSameCast self.old self.new }
    {
        self.change(id, Change::Direction(d))
    }

    /// Sets the size of an instance, kept in 0 to 10000. A redraw is requested where it is visible.
    pub fn set_size(&mut self, id: InstanceId, s: Num) -> bool
        ensures redraw { result ≡ (instance_at id self.old).visible }
        ensures new { self.new ≡ on_instance id (with_size s) self.old }
        ensures kept { IsSameCast self.old self.new }
    {
        self.change(id, Change::Size(s))
    }

    /// Sets the costume of an instance by an index from 0, rounded and wrapped to the number of its costumes. A redraw is
    /// requested where it is visible.
    pub fn set_costume(&mut self, id: InstanceId, index: Num, costumes: u32) -> bool
        ensures redraw { result ≡ (instance_at id self.old).visible }
        ensures new { self.new ≡ on_instance id (with_costume (costume.costume_index costumes index)) self.old }
        ensures kept { IsSameCast self.old self.new }
    {
        self.change(id, Change::Costume { index, costumes })
    }

    /// Sets an effect of an instance; ghost is kept in 0 to 100 and brightness in -100 to 100. A redraw is requested where
    /// it is visible.
    pub fn set_effect(&mut self, id: InstanceId, e: Effect, v: Num) -> bool
        ensures redraw { result ≡ (instance_at id self.old).visible }
        ensures new { self.new ≡ on_instance id (with_effect (effect_place e) v) self.old }
        ensures kept { IsSameCast self.old self.new }
    {
        self.change(id, Change::Effect(e, v))
    }

    /// Sets all effects of an instance to 0. A redraw is requested where it is visible.
    pub fn clear_effects(&mut self, id: InstanceId) -> bool
        ensures redraw { result ≡ (instance_at id self.old).visible }
        ensures new { self.new ≡ on_instance id (λ i. record i { effects = no_effects }) self.old }
        ensures kept { IsSameCast self.old self.new }
    {
        self.change(id, Change::NoEffects)
    }

    /// Shows or hides an instance. A redraw is always requested.
    pub fn set_visible(&mut self, id: InstanceId, v: bool) -> bool
        ensures redraw { result ≡ true }
        ensures new { self.new ≡ on_instance id (λ i. record i { visible = v }) self.old }
        ensures kept { IsSameCast self.old self.new }
    {
        let _was = self.change(id, Change::Visible(v));
        true
    }

    /// Sets the rotation style of an instance. A redraw is requested where it is visible.
    pub fn set_style(&mut self, id: InstanceId, s: Style) -> bool
        ensures redraw { result ≡ (instance_at id self.old).visible }
        ensures new { self.new ≡ on_instance id (λ i. record i { style = s }) self.old }
        ensures kept { IsSameCast self.old self.new }
    {
        self.change(id, Change::Style(s))
    }

    /// Updates the bubble of an instance. A redraw is requested where it is visible.
    pub fn set_bubble(&mut self, id: InstanceId, kind: Say, text: BubbleText, usage: u64) -> bool
        ensures redraw { result ≡ (instance_at id self.old).visible }
        ensures new { self.new ≡ on_instance id (λ i. record i { bubble = record { kind = kind; text = text; usage = usage } }) self.old }
        ensures kept { IsSameCast self.old self.new }
    {
        self.say(id, Bubble { kind, text, usage })
    }

    // Sets the bubble of an instance, and tells whether it is visible.
    fn say(&mut self, id: InstanceId, bubble: Bubble) -> bool
        ensures visible { result ≡ (instance_at id self.old).visible }
        ensures new { self.new ≡ on_instance id (λ i. record i { bubble = bubble }) self.old }
        ensures kept { IsSameCast self.old self.new }
    {
        match self.place(id) {
            Some(place) => changes::say(&mut self.instances[place], bubble),
            None => false,
        }
    }

    // Puts recorded values in place of those of an instance, and gives these.
    fn exchange(&mut self, id: InstanceId, new: Edges) -> Edges
        ensures old { result ≡ (instance_at id self.old).edges }
        ensures new { self.new ≡ on_instance id (λ i. record i { edges = new }) self.old }
        ensures kept { IsSameCast self.old self.new }
    {
        match self.place(id) {
            Some(place) => changes::exchange(&mut self.instances[place], new),
            None => Edges::new(self.alloc),
        }
    }

    /// Records the value of an edge hat of an instance, and gives the value that was recorded before. None exactly where
    /// there was none. The only error is want of memory, and then nothing changes.
    pub fn set_edge(
        &mut self,
        id: InstanceId,
        hat: BlockId,
        value: bool,
    ) -> Result<Option<bool>, AllocError>
        ensures old { IfOk result (λ was. was ≡ edge_of hat (instance_at id self.old).edges) }
        ensures recorded { IfOk result (λ was. unwrap_or was false ≡ frame.recorded hat (instance_at id self.old).edges) }
        ensures new { OnOk result (self.new ≡ on_instance id (λ i. record i { edges = frame.with_edge hat value i.edges }) self.old) }
        ensures err { OnErr result (self.new ≡ self.old) }
        ensures kept { IsSameCast self.old self.new }
    {
        let old = self.exchange(id, Edges::new(self.alloc));
        let was = edges::recorded(old.as_slice(), hat);
        let (new, recorded) = edges::recording(old, hat, value);
        self.exchange(id, new);
        match recorded {
            Ok(()) => Ok(was),
            Err(stop) => Err(stop),
        }
    }

    /// Forgets all recorded values of edge hats.
    pub fn clear_edges(&mut self)
        ensures new { self.new ≡ map without_edges self.old }
        ensures kept { IsSameCast self.old self.new }
    {
        changes::forget_all(&mut self.instances, self.alloc);
    }

    /// Adds a clone of an instance under a number, last in the order. The only error is want of memory, and then nothing
    /// changes.
    pub fn add_clone(&mut self, of: InstanceId, number: InstanceId) -> Result<(), AllocError>
        requires { IsLive of self.old }
        ensures ok { OnOk result (self.new ≡ self.old ++ copied number (instance_at of self.old) ∷ []) }
        ensures err { OnErr result (self.new ≡ self.old) }
        ensures kept { (n : ℕ) → IsLive n self.old → live n self.new ≡ live n self.old }
    {
        let clone = match self.place(of) {
            Some(place) => changes::copied(&self.instances[place], number, self.alloc)?,
            None => unreachable!(),
        };
        self.instances.reserve(1)?;
        self.order.push(number)?;
        let last = self.instances.len();
        order::put(&mut self.instances, last, clone);
        Ok(())
    }

    // Whether there are the most clones, or an instance is on the stage.
    fn lacks_room(&self, of: InstanceId) -> bool
        requires { IsLive of self.now }
        ensures { result ≡ lacks_room of self.now }
    {
        match self.place(of) {
            Some(place) => clones::is_full(self.instances.as_slice(), place),
            None => unreachable!(),
        }
    }

    /// Whether a clone of an instance can be made: there are fewer than 300 clones, and it is not on the stage. The records are
    /// those with which the run began.
    pub fn has_room(&self, records: &Records, of: InstanceId) -> bool
        ensures { result ≡ not (has_no_room (records_in records.now) of self.now) }
    {
        clones::has_room(self.instances.len(), self.target(of), records)
    }

    /// The original of the first sprite, in file order, with exactly this name. None where there is none; the stage is no
    /// sprite. The records are those with which the run began.
    pub fn sprite_named(&self, records: &Records, name: &str) -> Option<InstanceId>
        ensures { result ≡ program.sprite_named name.now (records_in records.now) }
    {
        match clones::sprite(records.all_targets(), name) {
            Some(place) => Some(InstanceId(place as u64)),
            None => None,
        }
    }

    /// Makes a clone of an instance under a number, last in the order. None exactly where there are 300 clones or the instance
    /// is on the stage, whose original is the first. The only error is want of memory. On None and on the error nothing
    /// changes.
    pub fn make_clone(
        &mut self,
        of: InstanceId,
        number: InstanceId,
    ) -> Result<Option<()>, AllocError>
        requires { IsLive of self.old }
        ensures room { IfOk result (λ made. is_some made ≡ not (lacks_room of self.old)) }
        ensures new { IfOk result (λ made. MatchOption made (self.new ≡ self.old) (λ _. self.new ≡ self.old ++ copied number (instance_at of self.old) ∷ [])) }
        ensures err { OnErr result (self.new ≡ self.old) }
        ensures kept { (n : ℕ) → IsLive n self.old → live n self.new ≡ live n self.old }
    {
        if self.lacks_room(of) {
            return Ok(None);
        }
        self.add_clone(of, number)?;
        Ok(Some(()))
    }

    /// Puts a clone directly behind another instance.
    pub fn place_behind(&mut self, clone: InstanceId, original: InstanceId)
        requires { IsLive clone self.old }
        ensures new { self.new ≡ placed_behind clone original self.old }
        ensures same { IsLive original (first_removed (λ i. i.number == clone) self.old) → (test : Seen → Bool) → list_any test self.new ≡ list_any test self.old }
    {
        match self.place(clone) {
            Some(place) => {
                let mut order = self.order.take(self.alloc);
                order::put_behind(&mut order, &mut self.instances, place, original);
                self.order.put(order);
            }
            None => unreachable!(),
        }
    }

    /// Moves an instance to another layer. The layers of sprites count from 1; no sprite goes past the first or the last.
    pub fn move_layer(&mut self, id: InstanceId, to: Place)
        requires { IsLive id self.old }
        ensures new { self.new ≡ at_layer id (layer_to to (layer id self.old) (length self.old - 1)) self.old }
        ensures same { (test : Seen → Bool) → list_any test self.new ≡ list_any test self.old }
    {
        match self.place(id) {
            Some(place) => {
                let to = layers::layer(to, place, self.instances.len() - 1);
                let mut order = self.order.take(self.alloc);
                order::shift(&mut order, place, to);
                self.order.put(order);
                order::shift(&mut self.instances, place, to);
            }
            None => unreachable!(),
        }
    }

    /// Takes an instance out of the order.
    pub fn dispose(&mut self, id: InstanceId)
        ensures new { self.new ≡ first_removed (λ i. i.number == id) self.old }
        ensures others { (n : ℕ) → n ≢ id → live n self.new ≡ live n self.old }
    {
        match self.place(id) {
            Some(place) => {
                let mut order = self.order.take(self.alloc);
                order.remove(place);
                self.order.put(order);
                self.instances.remove(place);
            }
            None => {}
        }
    }

    /// Takes all clones out, and the effects and bubbles of the others, as stopping everything does. The originals of the
    /// targets have the numbers below that of the targets.
    pub fn stop_all(&mut self, targets: u32)
        ensures new { self.new ≡ map cleared (filter (λ i. not (not (nat_lt i.number targets))) self.old) }
        ensures originals { (n : ℕ) → n < targets → live n self.new ≡ option_map cleared (live n self.old) }
    {
        let mut order = self.order.take(self.alloc);
        order.retain(|id| id.0 < u64::from(targets));
        self.order.put(order);
        self.instances
            .retain(|instance| instance.number.0 < u64::from(targets));
        changes::clear_all(&mut self.instances, self.alloc);
    }
}
