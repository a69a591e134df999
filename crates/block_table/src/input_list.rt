//! The inputs of a block.

ghost use Rattle.std.specs.Prelude.{◌≡◌, ◌≤◌, map, length, codes, IfOk};
ghost use Rattle.project_json.specs.View.{tree, field};
ghost use Rattle.json_shapes.specs.Reads.{Reads};
ghost use Rattle.json_shapes.specs.Shapes.{each_member};
ghost use Rattle.project_spec.specs.Blocks as told;
ghost use Rattle.block_table.specs.FileBlock.{input_in, named_input};
ghost use Rattle.block_table.specs.Parts.{inputs_in};

use crate::file_block::{FileInput, FileInputs};
use crate::ids::Ids;
use crate::primitives::{primitive, tag};
use json_shapes::{Fault, Place, given_members, item, items};
use machine_spec::BlockId;
use project_json::{Json, Member, Text};
use project_spec::Link;
use std::alloc::{AllocError, Global};

/// Where an id leads. The only error is want of memory.
pub(crate) fn link_to(ids: &Ids, id: &Text) -> Result<Link, AllocError>
    ensures { IfOk result (λ link. link ≡ told.link_to ids.now id.now) }
{
    match ids.place(id.as_str()) {
        Some(place) => Ok(Link::To(BlockId(place))),
        None => Ok(Link::Unknown(id.clone()?)),
    }
}

// What an input holds: null, the id of a block, or a primitive.
fn input_value(alloc: Global, ids: &Ids, place: &Place, json: &Json) -> Result<FileInput, Fault>
    ensures { Reads input_in result (told.input_value ids.now place.now (tree json.now)) }
{
    match json {
        Json::Null => Ok(FileInput::Absent),
        Json::Text(id) => {
            let link = link_to(ids, id)?;
            Ok(FileInput::Reporter(link))
        }
        Json::List(_) => {
            let items = items(alloc, place, json)?;
            primitive(alloc, place, items)
        }
        Json::Truth(_) => Err(place.fault(alloc)),
        Json::Number(_) => Err(place.fault(alloc)),
        Json::Object(_) => Err(place.fault(alloc)),
    }
}

/// A list of so many items at least.
pub(crate) fn items_from<'a>(
    alloc: Global,
    place: &Place,
    json: &'a Json,
    count: usize,
) -> Result<&'a [Json], Fault>
    ensures { Reads (λ js. map tree js.now) result (told.items_from count place.now (tree json.now)) }
{
    let items = items(alloc, place, json)?;
    if items.len() < count {
        Err(place.fault(alloc))
    } else {
        Ok(items)
    }
}

// An input, with its name.
fn input(
    alloc: Global,
    ids: &Ids,
    place: &Place,
    member: &Member,
) -> Result<(Text, FileInput), Fault>
    ensures { Reads named_input result (told.input_of ids.now place.now (field member.now)) }
{
    let place = place.member(member.name().as_str());
    let items = items_from(alloc, &place, member.value(), 2)?;
    tag(alloc, &place, items, &[1, 2, 3])?;
    let held = item(alloc, &place, items, 1)?;
    let input = input_value(alloc, ids, &place.item(1), held)?;
    let name = member.name().clone()?;
    Ok((name, input))
}

// Each input, in order.
fn each_input(
    alloc: Global,
    ids: &Ids,
    place: &Place,
    members: &[Member],
) -> Result<FileInputs, Fault>
    ensures { Reads (map named_input) result (each_member (told.input_of ids.now) place.now (map field members.now)) }
{
    let mut inputs = FileInputs::new(alloc);
    for member in members {
        let input = input(alloc, ids, place, member)?;
        inputs.push(input)?;
    }
    Ok(inputs)
}

/// The inputs of a block.
pub(crate) fn inputs(
    alloc: Global,
    ids: &Ids,
    place: &Place,
    members: &[Member],
) -> Result<FileInputs, Fault>
    ensures { Reads (map named_input) result (inputs_in ids.now place.now (map field members.now)) }
{
    let held = given_members(alloc, place, members, "inputs")?;
    each_input(alloc, ids, &place.member("inputs"), held)
}
