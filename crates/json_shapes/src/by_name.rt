//! The members of an object, each by its name.

ghost use Rattle.std.specs.Prelude.{◌≡◌, map, []};
ghost use Rattle.std.specs.Option.{option_map};
ghost use Rattle.project_json.specs.View.{tree, field};
ghost use Rattle.project_json.specs.Parts.{value_named};
ghost use Rattle.json_shapes.specs.Shapes as shape;
ghost use Rattle.json_shapes.specs.Reads.{Reads};

use crate::by_kind::{digits, items, members, text, truth};
use crate::fault::Fault;
use crate::place::Place;
use project_json::{Json, Member, Text, is_null, value_named};
use std::alloc::Global;

/// The member, unless it is absent or null.
pub fn present<'a>(members: &'a [Member], name: &str) -> Option<&'a Json>
    ensures { option_map (λ j. tree j.now) result ≡ shape.present (value_named name.now (map field members.now)) }
{
    match value_named(members, name) {
        Some(value) => { if is_null(value) { None } else { Some(value) } }
        None => None,
    }
}

/// A member that has to be there.
pub fn required<'a>(
    alloc: Global,
    place: &Place,
    members: &'a [Member],
    name: &str,
) -> Result<&'a Json, Fault>
    ensures { Reads (λ j. tree j.now) result (shape.named name.now place.now (map field members.now)) }
{
    match value_named(members, name) {
        Some(value) => Ok(value),
        None => Err(place.member(name).fault(alloc)),
    }
}

/// A text that has to be there.
pub fn required_text<'a>(
    alloc: Global,
    place: &Place,
    members: &'a [Member],
    name: &str,
) -> Result<&'a Text, Fault>
    ensures { Reads (λ t. t.now) result (shape.required shape.text name.now place.now (map field members.now)) }
{
    let value = required(alloc, place, members, name)?;
    text(alloc, &place.member(name), value)
}

/// A truth that has to be there.
pub fn required_truth(
    alloc: Global,
    place: &Place,
    members: &[Member],
    name: &str,
) -> Result<bool, Fault>
    ensures { Reads (λ b. b) result (shape.required shape.truth name.now place.now (map field members.now)) }
{
    let value = required(alloc, place, members, name)?;
    truth(alloc, &place.member(name), value)
}

/// The items of a list that has to be there.
pub fn required_items<'a>(
    alloc: Global,
    place: &Place,
    members: &'a [Member],
    name: &str,
) -> Result<&'a [Json], Fault>
    ensures { Reads (λ js. map tree js.now) result (shape.required shape.items name.now place.now (map field members.now)) }
{
    let value = required(alloc, place, members, name)?;
    items(alloc, &place.member(name), value)
}

/// The members of an object that has to be there.
pub fn required_members<'a>(
    alloc: Global,
    place: &Place,
    object: &'a [Member],
    name: &str,
) -> Result<&'a [Member], Fault>
    ensures { Reads (λ ms. map field ms.now) result (shape.required shape.members name.now place.now (map field object.now)) }
{
    let value = required(alloc, place, object, name)?;
    members(alloc, &place.member(name), value)
}

/// A text, or `None` where it is absent or null.
pub fn optional_text<'a>(
    alloc: Global,
    place: &Place,
    members: &'a [Member],
    name: &str,
) -> Result<Option<&'a Text>, Fault>
    ensures { Reads (λ t. option_map (λ u. u.now) t) result (shape.optional shape.text name.now place.now (map field members.now)) }
{
    match present(members, name) {
        Some(value) => {
            let text = text(alloc, &place.member(name), value)?;
            Ok(Some(text))
        }
        None => Ok(None),
    }
}

/// A truth, or the default where it is absent or null.
pub fn defaulted_truth(
    alloc: Global,
    place: &Place,
    members: &[Member],
    name: &str,
    default: bool,
) -> Result<bool, Fault>
    ensures { Reads (λ b. b) result (shape.defaulted shape.truth default name.now place.now (map field members.now)) }
{
    match present(members, name) {
        Some(value) => truth(alloc, &place.member(name), value),
        None => Ok(default),
    }
}

/// The items of a list; none where it is absent or null.
pub fn defaulted_items<'a>(
    alloc: Global,
    place: &Place,
    members: &'a [Member],
    name: &str,
) -> Result<&'a [Json], Fault>
    ensures { Reads (λ js. map tree js.now) result (shape.defaulted shape.items [] name.now place.now (map field members.now)) }
{
    match present(members, name) {
        Some(value) => items(alloc, &place.member(name), value),
        None => Ok(&[]),
    }
}

/// The members of an object; none where it is absent or null.
pub fn defaulted_members<'a>(
    alloc: Global,
    place: &Place,
    object: &'a [Member],
    name: &str,
) -> Result<&'a [Member], Fault>
    ensures { Reads (λ ms. map field ms.now) result (shape.defaulted shape.members [] name.now place.now (map field object.now)) }
{
    match present(object, name) {
        Some(value) => members(alloc, &place.member(name), value),
        None => Ok(&[]),
    }
}

/// A truth, or the default where it is absent. It is not null.
pub fn given_truth(
    alloc: Global,
    place: &Place,
    members: &[Member],
    name: &str,
    default: bool,
) -> Result<bool, Fault>
    ensures { Reads (λ b. b) result (shape.given shape.truth default name.now place.now (map field members.now)) }
{
    match value_named(members, name) {
        Some(value) => truth(alloc, &place.member(name), value),
        None => Ok(default),
    }
}

/// The members of an object; none where it is absent. It is not null.
pub fn given_members<'a>(
    alloc: Global,
    place: &Place,
    object: &'a [Member],
    name: &str,
) -> Result<&'a [Member], Fault>
    ensures { Reads (λ ms. map field ms.now) result (shape.given shape.members [] name.now place.now (map field object.now)) }
{
    match value_named(object, name) {
        Some(value) => members(alloc, &place.member(name), value),
        None => Ok(&[]),
    }
}
