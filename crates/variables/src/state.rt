//! The variables and lists of all instances, and the monitors.

ghost use Rattle.std.specs.Prelude.{◌≡◌, ◌≢◌, ℕ, ◌≤◌, ◌<◌, ◌+◌, ◌==◌, ◌∷◌, [], ◌++◌, length, filter, not, nat_lt, position, find, None, slice_set, IfOk, OnOk, OnErr, IsTrue, IsFalse, ◌↔◌};
ghost use Rattle.scratch_number.specs.Arithmetic.{add as sum_of};
ghost use Rattle.scratch_values.specs.Casts.{number as number_of};
ghost use Rattle.scratch_values.specs.declared.index.Index.TheVariants.{At};
ghost use Rattle.scratch_values.specs.declared.value.Value.TheVariants.{Number};
ghost use Rattle.machine_spec.specs.Lists.{first_removed};
ghost use Rattle.machine_spec.specs.Stores.{store_at, value_in, items_in};
ghost use Rattle.machine_spec.specs.DataRows.{value_set, items_set, added, inserted, deleted, replaced, most_items};
ghost use Rattle.machine_spec.specs.Monitors.{monitor_set};
ghost use Rattle.target_records.specs.Records.{records_in};
ghost use Rattle.variables.specs.First.{first_variables};
ghost use Rattle.variables.specs.Held.{HasStore, HasNoStore, HasValue, HasItems, HasSameShape};
ghost use Rattle.variables.specs.Kept.{HasShortLists};
ghost use Rattle.variables.specs.Parts.{variables_of, AreStores};

use crate::parts::VariableParts;
use crate::{first, monitors, store};
use lists::ListOf;
use machine_spec::{InstanceId, MadeList, Shown, Store, Stores};
use scratch_number::{Num, of_whole};
use scratch_values::{Value, Values};
use std::alloc::{AllocError, Global};
use std::marker::Model;
use target_records::Records;

/// Truths, in order.
pub type Truths = ListOf<bool>;

/// The stores by instance, whether each monitor of the file is visible, and the monitors that blocks added. No list has
/// more than 200,000 items. Contracts see the record of the reference machine.
///
/// Where an instance has no variable or list of a number, the variable reads as 0 and the list as one of no items, and
/// changing it changes nothing.
pub struct Variables {
    alloc: Global,
    stores: Vec<Store>,
    file_monitors: Truths,
    made: MadeList,
    // What is read where an instance has no such variable or list: 0, and no items.
    zero: Value,
    nothing: Values,
}

// Not derived: whoever holds one calls this, and does not prove anew how it is taken apart.
impl Drop for Variables {
    fn drop(self) {
        let Variables {
            alloc: _,
            stores: _stores,
            file_monitors: _file_monitors,
            made: _made,
            zero: _zero,
            nothing: _nothing,
        } = self;
    }
}

impl Model for Variables {
    ghost use Rattle.machine_spec.specs.Stores.{Variables as Seen};
    ghost use Rattle.variables.specs.Kept.{IsKept};

    ghost Value = { Seen };

    ghost view = { λ v. record { stores = v.stores.items; file_monitors = v.file_monitors; made = v.made } };

    ghost invariant = { λ v. IsKept v.stores.items v.zero v.nothing };
}

impl Variables {
    /// The variables, lists and monitors with which a run begins. The only error is want of memory.
    pub fn open(alloc: Global, records: &Records) -> Result<Variables, AllocError>
        ensures { IfOk result (λ variables. variables ≡ first_variables (records_in records.now)) }
    {
        let stores = first::stores(alloc, records.all_targets())?;
        let file_monitors = first::truths(alloc, records.monitors())?;
        let parts = VariableParts {
            stores: Stores::from_vec(stores),
            file_monitors,
            made: MadeList::new(alloc),
        };
        Ok(Variables::rebuild(alloc, parts))
    }

    /// The variables that hold just these parts, as a saved run that is read again needs them. Each instance has one store,
    /// and no list has more than 200,000 items.
    pub fn rebuild(alloc: Global, parts: VariableParts) -> Variables
        requires { AreStores parts.stores }
        ensures { result ≡ variables_of parts }
    {
        Variables {
            alloc,
            stores: parts.stores.into_vec(),
            file_monitors: parts.file_monitors,
            made: parts.made,
            zero: Value::Number(of_whole(0)),
            nothing: Values::new(alloc),
        }
    }

    /// The stores of all instances, each once, in the order of making.
    pub fn stores(&self) -> &[Store]
        ensures stores { result.now ≡ self.now.stores }
        ensures kept { AreStores result.now }
    {
        self.stores.as_slice()
    }

    // The place of the store of an instance: first that of its number is tried.
    #[inline]
    fn place(&self, of: InstanceId) -> Option<usize>
        ensures { result ≡ position (λ s. s.of == of) self.now.stores }
    {
        let guess = of.0 as usize;
        if guess < self.stores.len() && self.stores[guess].of == of {
            return Some(guess);
        }
        store::sought(self.stores.as_slice(), of)
    }

    /// Whether an instance has variables and lists, or none yet.
    pub fn has_store(&self, of: InstanceId) -> bool
        ensures held { IsTrue result ↔ HasStore of self.now }
        ensures free { IsFalse result → HasNoStore of self.now }
    {
        self.place(of).is_some()
    }

    /// Whether an instance has a variable of this number.
    pub fn has_value(&self, of: InstanceId, index: u32) -> bool
        ensures { IsTrue result ↔ HasValue of index self.now }
    {
        match self.place(of) {
            Some(place) => (index as usize) < self.stores[place].values.len(),
            None => false,
        }
    }

    /// Whether an instance has a list of this number.
    pub fn has_items(&self, of: InstanceId, index: u32) -> bool
        ensures { IsTrue result ↔ HasItems of index self.now }
    {
        match self.place(of) {
            Some(place) => (index as usize) < self.stores[place].lists.len(),
            None => false,
        }
    }

    /// The value of a variable of an instance.
    #[inline]
    pub fn value(&self, of: InstanceId, index: u32) -> &Value
        ensures { result.now ≡ value_in of index self.now }
    {
        match self.place(of) {
            Some(place) => store::value(&self.stores[place], index, &self.zero),
            None => &self.zero,
        }
    }

    /// The items of a list of an instance, of which there are at most 200,000.
    #[inline]
    pub fn items(&self, of: InstanceId, index: u32) -> &Values
        ensures items { result.now ≡ items_in of index self.now }
        ensures few { length result.now ≤ most_items }
    {
        match self.place(of) {
            Some(place) => store::items(&self.stores[place], index, &self.nothing),
            None => &self.nothing,
        }
    }

    /// Sets a variable.
    #[inline]
    pub fn set(&mut self, of: InstanceId, index: u32, value: Value)
        ensures new { self.new ≡ value_set of index value self.old }
        ensures held { HasSameShape self.old self.new }
    {
        match self.place(of) {
            Some(place) => store::set(&mut self.stores[place], index, value),
            None => {}
        }
    }

    /// Raises the number of a variable, and makes it a number.
    #[inline]
    pub fn change(&mut self, of: InstanceId, index: u32, by: Num)
        ensures new { self.new ≡ value_set of index (Number (sum_of (number_of (value_in of index self.old)) by)) self.old }
        ensures held { HasSameShape self.old self.new }
    {
        match self.place(of) {
            Some(place) => store::raise(&mut self.stores[place], index, by),
            None => {}
        }
    }

    /// Appends an item to a list; at 200,000 items nothing is added. The only error is want of memory, and then nothing
    /// changes.
    pub fn push(&mut self, of: InstanceId, index: u32, item: Value) -> Result<(), AllocError>
        ensures ok { OnOk result (self.new ≡ items_set of index (added item (items_in of index self.old)) self.old) }
        ensures err { OnErr result (self.new ≡ self.old) }
        ensures held { HasSameShape self.old self.new }
    {
        let alloc = self.alloc;
        match self.place(of) {
            Some(place) => store::push(alloc, &mut self.stores[place], index, item),
            None => Ok(()),
        }
    }

    /// Inserts an item into a list, at a place from 1; behind the last one it stands at the end, and at 200,000 items the
    /// last one is dropped. The only error is want of memory, and then nothing changes.
    pub fn insert(
        &mut self,
        of: InstanceId,
        index: u32,
        at: u32,
        item: Value,
    ) -> Result<(), AllocError>
        ensures ok { OnOk result (self.new ≡ items_set of index (inserted (At at) item (items_in of index self.old)) self.old) }
        ensures err { OnErr result (self.new ≡ self.old) }
        ensures held { HasSameShape self.old self.new }
    {
        let alloc = self.alloc;
        match self.place(of) {
            Some(place) => store::insert(alloc, &mut self.stores[place], index, at, item),
            None => Ok(()),
        }
    }

    /// Puts an item in place of the one at a place of a list, from 1; behind the last one nothing changes.
    pub fn replace(&mut self, of: InstanceId, index: u32, at: u32, item: Value)
        ensures new { self.new ≡ items_set of index (replaced (At at) item (items_in of index self.old)) self.old }
        ensures held { HasSameShape self.old self.new }
    {
        let alloc = self.alloc;
        match self.place(of) {
            Some(place) => store::replace(alloc, &mut self.stores[place], index, at, item),
            None => {}
        }
    }

    /// Deletes the item at a place of a list, from 1; behind the last one nothing changes.
    pub fn delete(&mut self, of: InstanceId, index: u32, at: u32)
        ensures new { self.new ≡ items_set of index (deleted (At at) (items_in of index self.old)) self.old }
        ensures held { HasSameShape self.old self.new }
    {
        let alloc = self.alloc;
        match self.place(of) {
            Some(place) => store::delete(alloc, &mut self.stores[place], index, at),
            None => {}
        }
    }

    /// Deletes all items of a list.
    pub fn clear(&mut self, of: InstanceId, index: u32)
        ensures new { self.new ≡ items_set of index [] self.old }
        ensures held { HasSameShape self.old self.new }
    {
        let alloc = self.alloc;
        match self.place(of) {
            Some(place) => store::clear(alloc, &mut self.stores[place], index),
            None => {}
        }
    }

    /// Whether each monitor of the file is visible, in the order of the file.
    pub fn file_monitors(&self) -> &Truths
        ensures { result.now ≡ self.now.file_monitors }
    {
        &self.file_monitors
    }

    /// The monitors that blocks added, in the order of adding.
    pub fn made(&self) -> &MadeList
        ensures { result.now ≡ self.now.made }
    {
        &self.made
    }

    /// Shows or hides the first monitor of a variable or list, those of the file before the added ones; where there is none,
    /// one is added to show it. The records are those with which the run began. The only error is want of memory, and then
    /// nothing changes.
    pub fn show(&mut self, records: &Records, what: Shown, visible: bool) -> Result<(), AllocError>
        ensures ok { OnOk result (self.new ≡ monitor_set (records_in records.now) what visible self.old) }
        ensures err { OnErr result (self.new ≡ self.old) }
        ensures stores { self.new.stores ≡ self.old.stores }
        ensures held { HasSameShape self.old self.new }
    {
        match monitors::of_file(records, &what) {
            Some(place) => {
                set_truth(&mut self.file_monitors, place, visible);
                Ok(())
            }
            None => monitors::set_made(&mut self.made, &what, visible),
        }
    }

    // A copy of the variables and lists of an instance under another number; of none where it has none. The only error is
    // want of memory.
    fn copied(&self, from: InstanceId, to: InstanceId) -> Result<Store, AllocError>
        ensures copy { IfOk result (λ copy. copy ≡ record (store_at from self.now.stores) { of = to }) }
        ensures short { IfOk result HasShortLists }
    {
        match self.place(from) {
            Some(place) => store::copied(&self.stores[place], to),
            None => Ok(store::empty(self.alloc, to)),
        }
    }

    /// Copies the variables and lists of an instance for a clone, which has none yet. Where the instance has none the clone
    /// gets no variables and no lists. The only error is want of memory, and then nothing changes.
    pub fn copy_for_clone(&mut self, from: InstanceId, to: InstanceId) -> Result<(), AllocError>
        requires { HasNoStore to self.old }
        ensures ok { OnOk result (self.new ≡ record self.old { stores = self.old.stores ++ record (store_at from self.old.stores) { of = to } ∷ [] }) }
        ensures err { OnErr result (self.new ≡ self.old) }
        ensures others { (n : ℕ) → n ≢ to → store_at n self.new.stores ≡ store_at n self.old.stores }
        ensures copy { OnOk result (store_at to self.new.stores ≡ record (store_at from self.old.stores) { of = to }) }
    {
        let copy = self.copied(from, to)?;
        self.stores.push(copy)?;
        Ok(())
    }

    /// Drops the variables and lists of an instance.
    pub fn drop_instance(&mut self, id: InstanceId)
        ensures new { self.new ≡ record self.old { stores = first_removed (λ s. s.of == id) self.old.stores } }
        ensures others { (n : ℕ) → n ≢ id → store_at n self.new.stores ≡ store_at n self.old.stores }
    {
        match self.place(id) {
            Some(place) => {
                self.stores.remove(place);
            }
            None => {}
        }
    }

    /// Drops the variables and lists of all clones, as stopping everything does: of all instances but those of the targets of
    /// the file, which have the numbers below that of the targets.
    pub fn stop_all(&mut self, targets: u32)
        ensures new { self.new ≡ record self.old { stores = filter (λ s. not (not (nat_lt s.of targets))) self.old.stores } }
        ensures others { (n : ℕ) → n < targets → store_at n self.new.stores ≡ store_at n self.old.stores }
    {
        self.stores.retain(|store| store.of.0 < u64::from(targets));
    }
}

// Sets the truth at a place, where there is one.
fn set_truth(truths: &mut Truths, place: usize, truth: bool)
    ensures { truths.new ≡ slice_set truths.old place truth }
{
    if place < truths.len() {
        truths.replace(place, truth);
    }
}
