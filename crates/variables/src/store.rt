//! The store of one instance.

ghost use Rattle.std.specs.Prelude.{◌≡◌, ◌==◌, ◌<◌, [], slice_get, slice_set, position, unwrap_or, Some, IfOk, OnOk, OnErr};
ghost use Rattle.scratch_number.specs.Arithmetic.{add as sum_of};
ghost use Rattle.scratch_values.specs.Casts.{number as number_of};
ghost use Rattle.scratch_values.specs.declared.index.Index.TheVariants.{At};
ghost use Rattle.scratch_values.specs.declared.value.Value.TheVariants.{Number};
ghost use Rattle.machine_spec.specs.DataRows.{added, deleted, inserted, replaced};
ghost use Rattle.variables.specs.Held.{value_at, items_at};
ghost use Rattle.variables.specs.Kept.{IsAlike, HasShortLists};

use crate::items;
use machine_spec::{InstanceId, Store};
use scratch_number::{Num, add};
use scratch_values::{Value, ValueLists, Values, to_number};
use std::alloc::{AllocError, Global};

// The place of the first store of an instance.
pub(crate) fn sought(stores: &[Store], of: InstanceId) -> Option<usize>
    ensures { result ≡ position (λ s. s.of == of) stores.now }
{
    stores.iter().position(|store| store.of == of)
}

// The value of a variable; another where there is no such variable.
#[inline]
pub(crate) fn value<'s>(store: &'s Store, index: u32, other: &'s Value) -> &'s Value
    ensures { result.now ≡ unwrap_or (slice_get store.now.values index) other.now }
{
    match store.values.get(index as usize) {
        Some(value) => value,
        None => other,
    }
}

// The items of a list; others where there is no such list.
#[inline]
pub(crate) fn items<'s>(store: &'s Store, index: u32, others: &'s Values) -> &'s Values
    ensures { result.now ≡ unwrap_or (slice_get store.now.lists index) others.now }
{
    match store.lists.get(index as usize) {
        Some(items) => items,
        None => others,
    }
}

// Sets a variable, where there is one.
#[inline]
pub(crate) fn set(store: &mut Store, index: u32, value: Value)
    ensures new { store.new ≡ record store.old { values = slice_set store.old.values index value } }
    ensures alike { IsAlike store.old store.new }
{
    let place = index as usize;
    if place < store.values.len() {
        store.values.replace(place, value);
    }
}

// Raises the number of a variable, where there is one.
#[inline]
pub(crate) fn raise(store: &mut Store, index: u32, by: Num)
    ensures new { store.new ≡ record store.old { values = slice_set store.old.values index (Number (sum_of (number_of (value_at index store.old)) by)) } }
    ensures alike { IsAlike store.old store.new }
{
    let number = match store.values.get(index as usize) {
        Some(value) => to_number(value),
        None => return,
    };
    set(store, index, Value::Number(add(number, by)));
}

// Appends an item to a list, where there is one. The only error is want of memory, and then nothing changes.
#[inline]
pub(crate) fn push(
    alloc: Global,
    store: &mut Store,
    index: u32,
    item: Value,
) -> Result<(), AllocError>
    ensures ok { OnOk result (store.new ≡ record store.old { lists = slice_set store.old.lists index (added item (items_at index store.old)) }) }
    ensures err { OnErr result (store.new ≡ store.old) }
    ensures alike { IsAlike store.old store.new }
{
    let place = index as usize;
    if place >= store.lists.len() {
        return Ok(());
    }
    let old = store.lists.replace(place, Values::new(alloc));
    let (new, pushed) = items::added(old, item);
    store.lists.replace(place, new);
    pushed
}

// Inserts an item into a list at a place from 1, where there is such a list. The only error is want of memory, and then
// nothing changes.
pub(crate) fn insert(
    alloc: Global,
    store: &mut Store,
    index: u32,
    at: u32,
    item: Value,
) -> Result<(), AllocError>
    ensures ok { OnOk result (store.new ≡ record store.old { lists = slice_set store.old.lists index (inserted (At at) item (items_at index store.old)) }) }
    ensures err { OnErr result (store.new ≡ store.old) }
    ensures alike { IsAlike store.old store.new }
{
    let place = index as usize;
    if place >= store.lists.len() {
        return Ok(());
    }
    let old = store.lists.replace(place, Values::new(alloc));
    let (new, put) = items::inserted(old, at, item);
    store.lists.replace(place, new);
    put
}

// Puts an item in place of the one at a place of a list, from 1, where both are there.
pub(crate) fn replace(alloc: Global, store: &mut Store, index: u32, at: u32, item: Value)
    ensures new { store.new ≡ record store.old { lists = slice_set store.old.lists index (replaced (At at) item (items_at index store.old)) } }
    ensures alike { IsAlike store.old store.new }
{
    let place = index as usize;
    if place < store.lists.len() {
        let old = store.lists.replace(place, Values::new(alloc));
        let new = items::replaced(old, at, item);
        store.lists.replace(place, new);
    }
}

// Deletes the item at a place of a list, from 1, where both are there.
pub(crate) fn delete(alloc: Global, store: &mut Store, index: u32, at: u32)
    ensures new { store.new ≡ record store.old { lists = slice_set store.old.lists index (deleted (At at) (items_at index store.old)) } }
    ensures alike { IsAlike store.old store.new }
{
    let place = index as usize;
    if place < store.lists.len() {
        let old = store.lists.replace(place, Values::new(alloc));
        let new = items::deleted(old, at);
        store.lists.replace(place, new);
    }
}

// Deletes all items of a list, where there is one.
pub(crate) fn clear(alloc: Global, store: &mut Store, index: u32)
    ensures new { store.new ≡ record store.old { lists = slice_set store.old.lists index [] } }
    ensures alike { IsAlike store.old store.new }
{
    let place = index as usize;
    if place < store.lists.len() {
        store.lists.replace(place, Values::new(alloc));
    }
}

// The store under another number. The only error is want of memory.
pub(crate) fn copied(store: &Store, to: InstanceId) -> Result<Store, AllocError>
    ensures { IfOk result (λ copy. copy ≡ record store.now { of = to }) }
{
    let values = store.values.clone()?;
    let lists = store.lists.clone()?;
    Ok(Store {
        of: to,
        values,
        lists,
    })
}

// A store of no variables and no lists.
pub(crate) fn empty(alloc: Global, of: InstanceId) -> Store
    ensures { result ≡ record { of = of; values = []; lists = [] } }
{
    Store {
        of,
        values: Values::new(alloc),
        lists: ValueLists::new(alloc),
    }
}
