//! The variables of a target in the file.

ghost use Rattle.std.specs.Prelude.{◌≡◌, ◌<◌, ◌^◌, map, length, [], codes, IfOk};
ghost use Rattle.project_json.specs.Size.{members_size};
ghost use Rattle.project_json.specs.Tree.{fields_of};
ghost use Rattle.project_json.specs.View.{tree, field};
ghost use Rattle.project_spec.specs.Targets.{variable_of};
ghost use Rattle.json_shapes.specs.Reads.{Reads};
ghost use Rattle.json_shapes.specs.Shapes as shape;
ghost use Rattle.target_records.specs.Reading.{variables_of};

use crate::file_targets::{FileVariable, FileVariables};
use crate::members::few_members;
use json_shapes::{Fault, Place, item, item_text, items};
use lists::ListOf;
use project_json::Member;
use project_spec::value;
use std::alloc::Global;

// A variable: a list of its name and its value.
fn variable(alloc: Global, place: &Place, member: &Member) -> Result<FileVariable, Fault>
    ensures { Reads (λ v. v) result (variable_of place.now (field member.now)) }
{
    let place = place.member(member.name().as_str());
    let items = items(alloc, &place, member.value())?;
    let name = item_text(alloc, &place, items, 0)?.clone()?;
    let held = item(alloc, &place, items, 1)?;
    let value = value(alloc, &place.item(1), held)?;
    let id = member.name().clone()?;
    Ok(FileVariable { id, name, value })
}

fn each_variable(alloc: Global, place: &Place, members: &[Member]) -> Result<FileVariables, Fault>
    ensures { Reads (λ vs. vs) result (shape.each_member variable_of place.now (map field members.now)) }
{
    let mut variables = ListOf::new(alloc);
    for member in members {
        let variable = variable(alloc, place, member)?;
        variables.push(variable)?;
    }
    Ok(variables)
}

// The variables of a target, by its members.
pub(crate) fn variables(
    alloc: Global,
    place: &Place,
    members: &[Member],
) -> Result<FileVariables, Fault>
    requires { members_size (fields_of (map field members.now)) < 2 ^ 32 }
    ensures reads { Reads (λ vs. vs) result (variables_of place.now (map field members.now)) }
    ensures few { IfOk result (λ vs. length vs < 2 ^ 32) }
{
    let held = few_members(alloc, place, members, "variables")?;
    each_variable(alloc, &place.member("variables"), held)
}
