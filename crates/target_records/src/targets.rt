//! The targets of a file, read by the members of each.

ghost use Rattle.std.specs.Prelude.{◌≡◌, ◌<◌, ◌^◌, map};
ghost use Rattle.project_json.specs.Size.{size_of, items_size, members_size};
ghost use Rattle.project_json.specs.Tree.{trees_of, fields_of};
ghost use Rattle.project_json.specs.View.{tree, field};
ghost use Rattle.project_spec.specs.Targets.{target_of, target_members};
ghost use Rattle.json_shapes.specs.Reads.{Reads};
ghost use Rattle.json_shapes.specs.Shapes as shape;

use crate::costumes::required_costumes;
use crate::file_lists::lists;
use crate::file_targets::{FileTarget, FileTargets};
use crate::file_variables::variables;
use crate::kept_ranges::costume_index;
use crate::looks::{defaulted_style, look_of, seen};
use crate::members::defaulted_num;
use json_shapes::{Fault, Place, members, required_text, required_truth};
use project_json::{Json, Member};
use scratch_number::of_whole;
use std::alloc::Global;

// A target, by its members.
fn target_by(alloc: Global, place: &Place, members: &[Member]) -> Result<FileTarget, Fault>
    requires { members_size (fields_of (map field members.now)) < 2 ^ 32 }
    ensures { Reads (λ t. t) result (target_members place.now (map field members.now)) }
{
    let is_stage = required_truth(alloc, place, members, "isStage")?;
    let name = required_text(alloc, place, members, "name")?.clone()?;
    let variables = variables(alloc, place, members)?;
    let lists = lists(alloc, place, members)?;
    let costumes = required_costumes(alloc, place, members)?;
    let costume = defaulted_num(alloc, place, members, "currentCostume", of_whole(0))?;
    let layer_order = defaulted_num(alloc, place, members, "layerOrder", of_whole(0))?;
    let volume = defaulted_num(alloc, place, members, "volume", of_whole(100))?;
    let look = look_of(alloc, place, members)?;
    let style = defaulted_style(alloc, place, members)?;
    let look = seen(is_stage, look);
    Ok(FileTarget {
        is_stage,
        name,
        variables,
        lists,
        costume: costume_index(costumes.len() as u32, costume),
        costumes,
        layer_order,
        volume,
        visible: look.visible,
        x: look.x,
        y: look.y,
        size: look.size,
        direction: look.direction,
        style,
    })
}

fn target(alloc: Global, place: &Place, json: &Json) -> Result<FileTarget, Fault>
    requires { size_of (tree json.now) < 2 ^ 32 }
    ensures { Reads (λ t. t) result (target_of place.now (tree json.now)) }
{
    let members = members(alloc, place, json)?;
    target_by(alloc, place, members)
}

/// The targets of a file, by the items of its `targets`, which stand at the place. Where a value has not its shape, the
/// fault tells the path of the first (Scratch 3 project file format; scratch-vm, serialization/sb3.js).
pub fn read_targets(alloc: Global, place: &Place, items: &[Json]) -> Result<FileTargets, Fault>
    requires { items_size (trees_of (map tree items.now)) < 2 ^ 32 }
    ensures { Reads (λ ts. ts) result (shape.each target_of place.now (map tree items.now)) }
{
    let mut targets = Vec::new(alloc);
    for (i, item) in items.iter().enumerate() {
        let target = target(alloc, &place.item(i), item)?;
        targets.push(target)?;
    }
    Ok(FileTargets::new(targets))
}
