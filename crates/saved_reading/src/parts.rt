//! What is read of a value, and lists, rows and members of it.

ghost use Rattle.std.specs.Prelude.{List, ℕ, Result, ◌≡◌, map, length, IfOk};
ghost use Rattle.std.specs.Option.{option_map};
ghost use Rattle.saved_reading.specs.Parts.{item_at, named};
ghost use Rattle.saved_spec.specs.Shapes as shape;
ghost use Rattle.serde_json.specs.Data.{Data};
ghost use Rattle.serde_json.specs.View.{view};
ghost use Rattle.json_shapes.specs.Reads.{Reads};
ghost use Rattle.json_shapes.specs.Shapes.{found};

use json_shapes::{Fault, Place};
use lists::ListOf;
use serde_json::Value;
use std::alloc::Global;

// A part of a saved run, which is read as `shape` says. Contracts see it as `seen`.
pub(crate) trait Shaped: Drop {
    ghost Seen: { Type 0 };

    ghost seen: { Self → Seen };

    ghost shape: { List (List ℕ) → Data → Result Seen (List ℕ) };

    // What the value at a place tells.
    fn read(alloc: Global, place: &Place, value: &Value) -> Result<Self, Fault>
        ensures { Reads seen result (shape place.now (view value.now)) };
}

// What was found at a place, or its path.
pub(crate) fn found<T: Drop>(alloc: Global, place: &Place, part: Option<T>) -> Result<T, Fault>
    ensures { Reads (λ t. t) result (found place.now part) }
{
    match part {
        Some(part) => Ok(part),
        None => Err(place.fault(alloc)),
    }
}

// The items of a list.
pub(crate) fn items<'a>(
    alloc: Global,
    place: &Place,
    value: &'a Value,
) -> Result<&'a [Value], Fault>
    ensures { Reads (λ vs. map view vs.now) result (shape.items place.now (view value.now)) }
{
    match value.as_array() {
        Some(items) => Ok(items.as_slice()),
        None => Err(place.fault(alloc)),
    }
}

// What each item tells, in order.
pub(crate) fn each_item<T: Shaped>(
    alloc: Global,
    place: &Place,
    items: &[Value],
) -> Result<ListOf<T>, Fault>
    ensures reads { Reads (map T.seen) result (shape.each_from 0 T.shape place.now (map view items.now)) }
    ensures count { IfOk result (λ ts. length ts ≡ length items.now) }
{
    let mut parts = ListOf::new(alloc);
    for (i, item) in items.iter().enumerate() {
        let part = T::read(alloc, &place.item(i), item)?;
        parts.push(part)?;
    }
    Ok(parts)
}

impl<T: Shaped> Shaped for ListOf<T> {
    ghost Seen = { List T.Seen };

    ghost seen = { map T.seen };

    ghost shape = { shape.each T.shape };

    fn read(alloc: Global, place: &Place, value: &Value) -> Result<ListOf<T>, Fault> {
        let items = items(alloc, place, value)?;
        each_item(alloc, place, items)
    }
}

// A list has just so many items.
pub(crate) fn sized(
    alloc: Global,
    place: &Place,
    items: &[Value],
    count: usize,
) -> Result<(), Fault>
    ensures { Reads (λ _. map view items.now) result (shape.sized count place.now (map view items.now)) }
{
    if items.len() == count {
        Ok(())
    } else {
        Err(place.fault(alloc))
    }
}

// The items of a list that has just so many.
pub(crate) fn row<'a>(
    alloc: Global,
    place: &Place,
    value: &'a Value,
    count: usize,
) -> Result<&'a [Value], Fault>
    ensures reads { Reads (λ vs. map view vs.now) result (shape.row count place.now (view value.now)) }
    ensures count { IfOk result (λ vs. length vs.now ≡ count) }
{
    let items = items(alloc, place, value)?;
    if items.len() == count {
        Ok(items)
    } else {
        Err(place.fault(alloc))
    }
}

// The item at a place of a list.
fn item_at<'a>(
    alloc: Global,
    place: &Place,
    items: &'a [Value],
    i: usize,
) -> Result<&'a Value, Fault>
    ensures { Reads (λ v. view v.now) result (item_at i place.now (map view items.now)) }
{
    match items.get(i) {
        Some(item) => Ok(item),
        None => Err(place.item(i).fault(alloc)),
    }
}

// What the item at a place of a list tells.
pub(crate) fn part<T: Shaped>(
    alloc: Global,
    place: &Place,
    items: &[Value],
    i: usize,
) -> Result<T, Fault>
    ensures { Reads T.seen result (shape.part i T.shape place.now (map view items.now)) }
{
    let item = item_at(alloc, place, items, i)?;
    T::read(alloc, &place.item(i), item)
}

// A value is an object.
pub(crate) fn table(alloc: Global, place: &Place, value: &Value) -> Result<(), Fault>
    ensures { Reads (λ _. view value.now) result (shape.table place.now (view value.now)) }
{
    if value.is_object() {
        Ok(())
    } else {
        Err(place.fault(alloc))
    }
}

// The value of a member, which has to be there.
fn named<'a>(alloc: Global, place: &Place, value: &'a Value, name: &str) -> Result<&'a Value, Fault>
    ensures { Reads (λ v. view v.now) result (named name.now place.now (view value.now)) }
{
    match value.get(name) {
        Some(value) => Ok(value),
        None => Err(place.member(name).fault(alloc)),
    }
}

// What a member tells, which has to be there.
pub(crate) fn member<T: Shaped>(
    alloc: Global,
    place: &Place,
    value: &Value,
    name: &str,
) -> Result<T, Fault>
    ensures { Reads T.seen result (shape.member name.now T.shape place.now (view value.now)) }
{
    let value = named(alloc, place, value, name)?;
    T::read(alloc, &place.member(name), value)
}

// Null is nothing.
impl<T: Shaped> Shaped for Option<T> {
    ghost use Rattle.std.specs.Prelude.{Option};

    ghost Seen = { Option T.Seen };

    ghost seen = { option_map T.seen };

    ghost shape = { shape.if_some T.shape };

    fn read(alloc: Global, place: &Place, value: &Value) -> Result<Option<T>, Fault> {
        if value.is_null() {
            return Ok(None);
        }
        let part = T::read(alloc, place, value)?;
        Ok(Some(part))
    }
}
