//! The lists of a target in the file.

ghost use Rattle.std.specs.Prelude.{◌≡◌, ◌<◌, ◌^◌, map, length, [], codes, IfOk};
ghost use Rattle.project_json.specs.Size.{members_size};
ghost use Rattle.project_json.specs.Tree.{fields_of};
ghost use Rattle.project_json.specs.View.{tree, field};
ghost use Rattle.project_spec.specs.FileValues.{value_in};
ghost use Rattle.project_spec.specs.Targets.{list_of, values_of};
ghost use Rattle.project_spec.specs.Values as told;
ghost use Rattle.json_shapes.specs.Reads.{Reads};
ghost use Rattle.json_shapes.specs.Shapes as shape;
ghost use Rattle.target_records.specs.Reading.{lists_of};

use crate::file_targets::{FileList, FileLists};
use crate::members::few_members;
use json_shapes::{Fault, Place, item, item_text, items};
use lists::ListOf;
use project_json::{Json, Member};
use project_spec::{FileValue, value};
use std::alloc::Global;

fn each_value(alloc: Global, place: &Place, items: &[Json]) -> Result<ListOf<FileValue>, Fault>
    ensures { Reads (λ vs. map value_in vs) result (shape.each told.value place.now (map tree items.now)) }
{
    let mut values = ListOf::new(alloc);
    for (i, item) in items.iter().enumerate() {
        let value = value(alloc, &place.item(i), item)?;
        values.push(value)?;
    }
    Ok(values)
}

// The items of a list.
fn values(alloc: Global, place: &Place, json: &Json) -> Result<ListOf<FileValue>, Fault>
    ensures { Reads (λ vs. map value_in vs) result (values_of place.now (tree json.now)) }
{
    let items = items(alloc, place, json)?;
    each_value(alloc, place, items)
}

// A list: a list of its name and the list of its items.
fn list(alloc: Global, place: &Place, member: &Member) -> Result<FileList, Fault>
    ensures { Reads (λ l. l) result (list_of place.now (field member.now)) }
{
    let place = place.member(member.name().as_str());
    let held = items(alloc, &place, member.value())?;
    let name = item_text(alloc, &place, held, 0)?.clone()?;
    let list = item(alloc, &place, held, 1)?;
    let items = values(alloc, &place.item(1), list)?;
    let id = member.name().clone()?;
    Ok(FileList { id, name, items })
}

fn each_list(alloc: Global, place: &Place, members: &[Member]) -> Result<FileLists, Fault>
    ensures { Reads (λ ls. ls) result (shape.each_member list_of place.now (map field members.now)) }
{
    let mut lists = ListOf::new(alloc);
    for member in members {
        let list = list(alloc, place, member)?;
        lists.push(list)?;
    }
    Ok(lists)
}

// The lists of a target, by its members.
pub(crate) fn lists(alloc: Global, place: &Place, members: &[Member]) -> Result<FileLists, Fault>
    requires { members_size (fields_of (map field members.now)) < 2 ^ 32 }
    ensures reads { Reads (λ ls. ls) result (lists_of place.now (map field members.now)) }
    ensures few { IfOk result (λ ls. length ls < 2 ^ 32) }
{
    let held = few_members(alloc, place, members, "lists")?;
    each_list(alloc, &place.member("lists"), held)
}
