//! Turns, directions and how a sprite turns with them. Each tells whether a redraw is requested.

ghost use Rattle.std.specs.Prelude.{◌≡◌, codes, option_map};
ghost use Rattle.opcode_table.specs.declared.opcode.Opcode.TheVariants as opcode;
ghost use Rattle.machine_spec.specs.Motion as machine;
ghost use Rattle.machine_spec.specs.Motion.{moved_by, stepped};
ghost use Rattle.machine_spec.specs.Stores.{instance_at, on_instance};
ghost use Rattle.machine_spec.specs.View.{field_at};
ghost use Rattle.machine_spec.specs.Words.{Words};
ghost use Rattle.targets.specs.Live.{IsSameCast};
ghost use Rattle.motion_blocks.specs.Blocks.{goes_on};

use crate::instance::stance_of;
use block_arguments::{field, number};
use machine_spec::InstanceId;
use scratch_number::{add, sub};
use scratch_values::Args;
use targets::{Style, Targets};

// `turn right DEGREES degrees`.
#[tactic(auto, using(crate::proofs::Instances::on_instance_same))]
pub(crate) fn turn_right(args: &Args<'_>, here: InstanceId, targets: &mut Targets) -> bool
    ensures new { targets.new ≡ on_instance here (stepped opcode.MotionTurnRight args.entry.now) targets.old }
    ensures redraw { result ≡ (instance_at here targets.old).visible }
    ensures cast { IsSameCast targets.old targets.new }
{
    let own = stance_of(targets, here);
    targets.set_direction(here, add(own.direction, number(args, "DEGREES")))
}

// `turn left DEGREES degrees`.
#[tactic(auto, using(crate::proofs::Instances::on_instance_same))]
pub(crate) fn turn_left(args: &Args<'_>, here: InstanceId, targets: &mut Targets) -> bool
    ensures new { targets.new ≡ on_instance here (stepped opcode.MotionTurnLeft args.entry.now) targets.old }
    ensures redraw { result ≡ (instance_at here targets.old).visible }
    ensures cast { IsSameCast targets.old targets.new }
{
    let own = stance_of(targets, here);
    targets.set_direction(here, sub(own.direction, number(args, "DEGREES")))
}

// `point in direction DIRECTION`.
#[inline]
pub(crate) fn point_in_direction(args: &Args<'_>, here: InstanceId, targets: &mut Targets) -> bool
    ensures new { targets.new ≡ on_instance here (stepped opcode.MotionPointInDirection args.entry.now) targets.old }
    ensures redraw { result ≡ (instance_at here targets.old).visible }
    ensures cast { IsSameCast targets.old targets.new }
{
    targets.set_direction(here, number(args, "DIRECTION"))
}

// The rotation style of a name.
fn style_named(name: &str) -> Option<Style>
    ensures { result ≡ machine.style_named name.now }
{
    match name {
        "all around" => Some(Style::AllAround),
        "left-right" => Some(Style::LeftRight),
        "don't rotate" => Some(Style::DontRotate),
        _ => None,
    }
}

// `set rotation style STYLE`; a name of no style changes nothing.
pub(crate) fn set_rotation_style(args: &Args<'_>, here: InstanceId, targets: &mut Targets) -> bool
    ensures row { (w : Words) → moved_by (option_map (λ s i. record i { style = s }) (machine.style_named (field_at (codes "STYLE") args.entry.now))) here (record { targets = targets.old; words = w }) ≡ goes_on targets.new w result }
    ensures cast { IsSameCast targets.old targets.new }
{
    match style_named(field(args, "STYLE")) {
        Some(style) => targets.set_style(here, style),
        None => false,
    }
}
