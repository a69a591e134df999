//! The items of one list.

ghost use Rattle.std.specs.Prelude.{◌≡◌, ◌≤◌, ◌∷◌, ◌++◌, take, drop, length, OnOk, OnErr};
ghost use Rattle.std.specs.List.{insert};
ghost use Rattle.machine_spec.specs.DataRows.{added as with_added, inserted as with_inserted, replaced as with_replaced, deleted as with_deleted, most_items};
ghost use Rattle.scratch_values.specs.declared.index.Index.TheVariants.{At};
ghost use Rattle.variables.specs.Kept.{IsShort};

use machine_spec::MOST_ITEMS;
use scratch_values::{Value, Values};
use std::alloc::AllocError;

// The items with one more at the end, and whether there was memory for it; at the most items nothing is added.
#[inline]
pub(crate) fn added(mut items: Values, item: Value) -> (Values, Result<(), AllocError>)
    ensures ok { OnOk result.1 (result.0 ≡ with_added item items) }
    ensures err { OnErr result.1 (result.0 ≡ items) }
    ensures short { IsShort items → IsShort result.0 }
{
    if items.len() >= MOST_ITEMS {
        return (shortened(items), Ok(()));
    }
    let pushed = items.push(item);
    (items, pushed)
}

// The items without those behind the most.
fn shortened(items: Values) -> Values
    ensures { result ≡ take most_items items }
{
    let mut items = items.into_vec();
    items.truncate(MOST_ITEMS);
    Values::from_vec(items)
}

// The items with one at a place from 1, and whether there was memory for it: behind the last it stands at the end, and at
// the most items the last is dropped.
pub(crate) fn inserted(items: Values, at: u32, item: Value) -> (Values, Result<(), AllocError>)
    ensures ok { OnOk result.1 (result.0 ≡ with_inserted (At at) item items) }
    ensures err { OnErr result.1 (result.0 ≡ items) }
    ensures short { IsShort items → IsShort result.0 }
{
    let place = (at as usize).saturating_sub(1);
    if items.len() >= MOST_ITEMS {
        return (inserted_in_full(items, place, item), Ok(()));
    }
    if place >= items.len() {
        return added(items, item);
    }
    let mut items = items.into_vec();
    let put = put_in(&mut items, place, item);
    (Values::from_vec(items), put)
}

// Puts an item at a place from 0, where there is memory for it.
fn put_in(items: &mut Vec<Value>, place: usize, item: Value) -> Result<(), AllocError>
    requires { place ≤ length items.old.items }
    ensures ok { OnOk result (items.new.items ≡ insert items.old.items place item) }
    ensures err { OnErr result (items.new.items ≡ items.old.items) }
{
    items.insert(place, item)?;
    Ok(())
}

// The items with one at a place from 0, where there are no fewer than the most.
fn inserted_in_full(items: Values, place: usize, item: Value) -> Values
    requires { most_items ≤ length items }
    ensures { result ≡ take most_items (take place items ++ item ∷ drop place items) }
{
    if place >= MOST_ITEMS {
        return shortened(items);
    }
    let mut items = items.into_vec();
    items.truncate(MOST_ITEMS - 1);
    match items.insert(place, item) {
        Ok(()) => Values::from_vec(items),
        Err(_) => unreachable!(),
    }
}

// The items with one in place of that at a place from 1, where there is one.
pub(crate) fn replaced(mut items: Values, at: u32, item: Value) -> Values
    ensures new { result ≡ with_replaced (At at) item items }
    ensures short { IsShort items → IsShort result }
{
    let place = (at as usize).saturating_sub(1);
    if place < items.len() {
        items.replace(place, item);
    }
    items
}

// The items without the one at a place from 1, where there is one.
pub(crate) fn deleted(items: Values, at: u32) -> Values
    ensures new { result ≡ with_deleted (At at) items }
    ensures short { IsShort items → IsShort result }
{
    let at = at as usize;
    if at == 0 || at > items.len() {
        return items;
    }
    let mut items = items.into_vec();
    items.remove(at - 1);
    Values::from_vec(items)
}
