//! The costumes of a target in the file.

ghost use Rattle.std.specs.Prelude.{◌≡◌, ◌<◌, ◌^◌, map, length, codes, IfOk};
ghost use Rattle.project_json.specs.Size.{size_of, members_size};
ghost use Rattle.project_json.specs.Tree.{fields_of};
ghost use Rattle.project_json.specs.View.{tree, field};
ghost use Rattle.project_spec.specs.Targets.{costume_of, costumes_of, not_empty};
ghost use Rattle.json_shapes.specs.Reads.{Reads};
ghost use Rattle.json_shapes.specs.Shapes as shape;

use json_shapes::{Fault, Place, items, members, required, required_text};
use lists::ListOf;
use project_json::{Json, Member, Text, Texts};
use std::alloc::Global;

// The name of a costume.
fn costume(alloc: Global, place: &Place, json: &Json) -> Result<Text, Fault>
    ensures { Reads (λ t. t) result (costume_of place.now (tree json.now)) }
{
    let members = members(alloc, place, json)?;
    let name = required_text(alloc, place, members, "name")?;
    Ok(name.clone()?)
}

fn each_costume(alloc: Global, place: &Place, items: &[Json]) -> Result<Texts, Fault>
    ensures { Reads (λ ts. ts) result (shape.each costume_of place.now (map tree items.now)) }
{
    let mut costumes = ListOf::new(alloc);
    for (i, item) in items.iter().enumerate() {
        let costume = costume(alloc, &place.item(i), item)?;
        costumes.push(costume)?;
    }
    Ok(costumes)
}

// The items of a list that is not empty.
fn some_items<'a>(alloc: Global, place: &Place, items: &'a [Json]) -> Result<&'a [Json], Fault>
    ensures { Reads (λ js. map tree js.now) result (not_empty place.now (map tree items.now)) }
{
    if items.is_empty() {
        return Err(place.fault(alloc));
    }
    Ok(items)
}

fn costumes(alloc: Global, place: &Place, json: &Json) -> Result<Texts, Fault>
    ensures { Reads (λ ts. ts) result (costumes_of place.now (tree json.now)) }
{
    let held = items(alloc, place, json)?;
    let items = some_items(alloc, place, held)?;
    each_costume(alloc, place, items)
}

// The names of the costumes of a target, by its members.
pub(crate) fn required_costumes(
    alloc: Global,
    place: &Place,
    members: &[Member],
) -> Result<Texts, Fault>
    requires { members_size (fields_of (map field members.now)) < 2 ^ 32 }
    ensures reads { Reads (λ ts. ts) result (shape.required costumes_of (codes "costumes") place.now (map field members.now)) }
    ensures few { IfOk result (λ ts. length ts < 2 ^ 32) }
{
    let list = required(alloc, place, members, "costumes")?;
    costumes(alloc, &place.member("costumes"), list)
}
