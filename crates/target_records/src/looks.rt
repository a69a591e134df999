//! How a target of the file looks.

ghost use Rattle.std.specs.Prelude.{◌≡◌, map, codes};
ghost use Rattle.project_json.specs.View.{tree, field};
ghost use Rattle.project_spec.specs.Targets as told;
ghost use Rattle.json_shapes.specs.Reads.{Reads};
ghost use Rattle.json_shapes.specs.Shapes as shape;
ghost use Rattle.machine_spec.specs.declared.instance.Style.TheVariants.{AllAround};
ghost use Rattle.target_records.specs.Looks.{look_in};

use crate::kept_ranges::{direction_after, size_kept};
use crate::members::defaulted_num;
use json_shapes::{Fault, Place, defaulted_truth, present, text};
use machine_spec::Style;
use project_json::{Json, Member};
use scratch_number::{Num, of_whole};
use std::alloc::Global;

// Where a target stands and how it looks.
#[derive(Clone, Copy, Debug)]
pub(crate) struct Look {
    pub(crate) visible: bool,
    pub(crate) x: Num,
    pub(crate) y: Num,
    pub(crate) size: Num,
    pub(crate) direction: Num,
}

// What the members of a target say of its look.
pub(crate) fn look_of(alloc: Global, place: &Place, members: &[Member]) -> Result<Look, Fault>
    ensures { Reads look_in result (told.look_of place.now (map field members.now)) }
{
    let visible = defaulted_truth(alloc, place, members, "visible", true)?;
    let x = defaulted_num(alloc, place, members, "x", of_whole(0))?;
    let y = defaulted_num(alloc, place, members, "y", of_whole(0))?;
    let size = defaulted_num(alloc, place, members, "size", of_whole(100))?;
    let direction = defaulted_num(alloc, place, members, "direction", of_whole(90))?;
    Ok(Look {
        visible,
        x,
        y,
        size,
        direction,
    })
}

// The look of a target: the stage has its own, whatever the file says.
pub(crate) fn seen(is_stage: bool, look: Look) -> Look
    ensures { look_in result ≡ told.look_by is_stage (look_in look) }
{
    if is_stage {
        return Look {
            visible: true,
            x: of_whole(0),
            y: of_whole(0),
            size: of_whole(100),
            direction: of_whole(90),
        };
    }
    Look {
        visible: look.visible,
        x: look.x,
        y: look.y,
        size: size_kept(look.size),
        direction: direction_after(look.direction, of_whole(90)),
    }
}

// The style of a name; an unknown name is all around.
fn style_named(name: &str) -> Style
    ensures { result ≡ told.style_named name.now }
{
    if name == "left-right" {
        return Style::LeftRight;
    }
    if name == "don't rotate" {
        return Style::DontRotate;
    }
    Style::AllAround
}

fn style(alloc: Global, place: &Place, json: &Json) -> Result<Style, Fault>
    ensures { Reads (λ s. s) result (told.style_of place.now (tree json.now)) }
{
    let name = text(alloc, place, json)?;
    Ok(style_named(name.as_str()))
}

// The style of a target, by its members.
pub(crate) fn defaulted_style(
    alloc: Global,
    place: &Place,
    members: &[Member],
) -> Result<Style, Fault>
    ensures { Reads (λ s. s) result (shape.defaulted told.style_of AllAround (codes "rotationStyle") place.now (map field members.now)) }
{
    match present(members, "rotationStyle") {
        Some(value) => style(alloc, &place.member("rotationStyle"), value),
        None => Ok(Style::AllAround),
    }
}
