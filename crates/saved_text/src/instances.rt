//! Instances with their variables and lists.

ghost use Rattle.std.specs.Prelude.{◌≡◌, ◌==◌, [], find, length, OnOk, ⊤};
ghost use Rattle.std.specs.List.{All};
ghost use Rattle.std.specs.Option.{option_copied};
ghost use Rattle.serde_json.specs.Events.{SendsValue};
ghost use Rattle.machine_spec.specs.Stores.{store_at};
ghost use Rattle.saved_spec.specs.Instances as saved;
ghost use Rattle.saved_spec.specs.Ranges as range;
ghost use Rattle.saved_spec.specs.Rows.{whole, each};
ghost use Rattle.saved_spec.specs.Values.{num};

use crate::rows::{Saved, send_each, send_list, send_member};
use machine_spec::{BlockId, Bubble, Effect, Effects, Instance, InstanceId, Say, Store, Style};
use scratch_number::Num;
use scratch_values::{Value, Values};
use serde::Serializer;

fn say_name(kind: Say) -> &'static str
    ensures { result.now ≡ saved.say_name kind }
{
    match kind {
        Say::Say => "say",
        Say::Think => "think",
    }
}

fn style_number(style: Style) -> u64
    ensures { result ≡ saved.style_number style }
{
    match style {
        Style::AllAround => 0,
        Style::LeftRight => 1,
        Style::DontRotate => 2,
    }
}

impl Saved for Style {
    ghost as_data = { λ s. whole (saved.style_number s) };

    ghost in_range = { λ s. ⊤ };

    fn send<S: Serializer>(&self, out: &mut S) -> Result<(), S::Error> {
        out.u64(style_number(*self))
    }
}

impl Saved for Bubble {
    ghost as_data = { saved.bubble };

    ghost in_range = { range.IsBubble };

    fn send<S: Serializer>(&self, out: &mut S) -> Result<(), S::Error> {
        out.begin_seq(Some(3))?;
        out.str(say_name(self.kind))?;
        out.str(self.text.as_str())?;
        self.usage.send(out)?;
        out.end_seq()
    }
}

impl Saved for (BlockId, bool) {
    ghost as_data = { saved.edge };

    ghost in_range = { λ e. range.IsWhole e.0 };

    fn send<S: Serializer>(&self, out: &mut S) -> Result<(), S::Error> {
        out.begin_seq(Some(2))?;
        self.0.send(out)?;
        out.bool(self.1)?;
        out.end_seq()
    }
}

// The numbers of the effects, in their order.
fn numbers_of(effects: Effects) -> [Num; 7]
    ensures value { result ≡ saved.effect_numbers effects }
    ensures seven { length effects ≡ 7 }
{
    [
        effects.get(Effect::Color),
        effects.get(Effect::Fisheye),
        effects.get(Effect::Whirl),
        effects.get(Effect::Pixelate),
        effects.get(Effect::Mosaic),
        effects.get(Effect::Brightness),
        effects.get(Effect::Ghost),
    ]
}

impl Saved for Effects {
    ghost as_data = { λ es. each num (saved.effect_numbers es) };

    ghost in_range = { range.AreEffects };

    fn send<S: Serializer>(&self, out: &mut S) -> Result<(), S::Error> {
        send_each(&numbers_of(*self), out)
    }
}

// The first store of an instance.
fn found(stores: &[Store], of: InstanceId) -> Option<&Store>
    ensures { option_copied result ≡ find (λ s. s.of == of) stores.now }
{
    stores.iter().find(|store| store.of == of)
}

// The values of an instance, and none where it has no store.
fn values_of(stores: &[Store], of: InstanceId) -> &[Value]
    ensures { result.now ≡ (store_at of stores.now).values }
{
    match found(stores, of) {
        Some(store) => store.values.as_slice(),
        None => &[],
    }
}

// The lists of an instance, and none where it has no store.
fn lists_of(stores: &[Store], of: InstanceId) -> &[Values]
    ensures { result.now ≡ (store_at of stores.now).lists }
{
    match found(stores, of) {
        Some(store) => store.lists.as_slice(),
        None => &[],
    }
}

// Sends an instance with these values and lists.
#[tactic(auto, unfolding(saved_spec::specs::Instances::instance_of))]
fn send_parts<S: Serializer>(
    instance: &Instance,
    values: &[Value],
    lists: &[Values],
    out: &mut S,
) -> Result<(), S::Error>
    ensures sent { OnOk result (SendsValue (saved.instance_of instance.now values.now lists.now) (S.written out.old) (S.written out.new)) }
    ensures ranges { OnOk result (range.HasInstance instance.now values.now lists.now) }
{
    out.begin_map(Some(14))?;
    send_member("bubble", &instance.bubble, out)?;
    send_member("costume", &instance.costume, out)?;
    send_member("direction", &instance.direction, out)?;
    send_member("edges", &instance.edges, out)?;
    send_member("effects", &instance.effects, out)?;
    send_list("lists", lists, out)?;
    send_member("number", &instance.number, out)?;
    send_member("of", &instance.of, out)?;
    send_member("size", &instance.size, out)?;
    send_member("style", &instance.style, out)?;
    send_list("variables", values, out)?;
    send_member("visible", &instance.visible, out)?;
    send_member("x", &instance.x, out)?;
    send_member("y", &instance.y, out)?;
    out.end_map()
}

// Sends an instance with its store among these.
fn send_instance<S: Serializer>(
    instance: &Instance,
    stores: &[Store],
    out: &mut S,
) -> Result<(), S::Error>
    ensures sent { OnOk result (SendsValue (saved.instance stores.now instance.now) (S.written out.old) (S.written out.new)) }
    ensures ranges { OnOk result (range.IsStanding stores.now instance.now) }
{
    let values = values_of(stores, instance.number);
    let lists = lists_of(stores, instance.number);
    send_parts(instance, values, lists, out)
}

// Sends the instances in executable order, each with its store among these.
pub(crate) fn send_instances<S: Serializer>(
    instances: &[Instance],
    stores: &[Store],
    out: &mut S,
) -> Result<(), S::Error>
    ensures sent { OnOk result (SendsValue (each (saved.instance stores.now) instances.now) (S.written out.old) (S.written out.new)) }
    ensures ranges { OnOk result (All (range.IsStanding stores.now) instances.now) }
{
    out.begin_seq(Some(instances.len()))?;
    for instance in instances {
        send_instance(instance, stores, out)?;
    }
    out.end_seq()
}
