//! Steps, and places by their coordinates. Each tells whether a redraw is requested.

ghost use Rattle.std.specs.Prelude.{◌≡◌};
ghost use Rattle.scratch_number.specs.Angles.{cos as cosine, sin as sine};
ghost use Rattle.scratch_number.specs.Arithmetic.{add as sum, mul as product};
ghost use Rattle.opcode_table.specs.declared.opcode.Opcode.TheVariants as opcode;
ghost use Rattle.machine_spec.specs.Motion.{stepped};
ghost use Rattle.machine_spec.specs.Stores.{instance_at, on_instance};
ghost use Rattle.targets.specs.Live.{IsSameCast};

use crate::instance::{Point, Stance, stance_of};
use block_arguments::number;
use machine_spec::InstanceId;
use scratch_number::{Num, add, cos, mul, sin};
use scratch_values::Args;
use targets::Targets;

// The place so many steps away along a direction.
fn ahead(own: &Stance, steps: Num) -> Point
    ensures x { result.x ≡ sum own.now.x (product steps (sine own.now.direction)) }
    ensures y { result.y ≡ sum own.now.y (product steps (cosine own.now.direction)) }
{
    let upward = steps;
    Point {
        x: add(own.x, mul(steps, sin(own.direction))),
        y: add(own.y, mul(upward, cos(own.direction))),
    }
}

// `move STEPS steps`: along the direction.
#[tactic(auto, using(crate::proofs::Instances::on_instance_same))]
pub(crate) fn move_steps(args: &Args<'_>, here: InstanceId, targets: &mut Targets) -> bool
    ensures new { targets.new ≡ on_instance here (stepped opcode.MotionMoveSteps args.entry.now) targets.old }
    ensures redraw { result ≡ (instance_at here targets.old).visible }
    ensures cast { IsSameCast targets.old targets.new }
{
    let own = stance_of(targets, here);
    let end = ahead(&own, number(args, "STEPS"));
    targets.set_xy(here, end.x, end.y)
}

// `go to x: X y: Y`.
#[inline]
pub(crate) fn go_to_xy(args: &Args<'_>, here: InstanceId, targets: &mut Targets) -> bool
    ensures new { targets.new ≡ on_instance here (stepped opcode.MotionGoToXY args.entry.now) targets.old }
    ensures redraw { result ≡ (instance_at here targets.old).visible }
    ensures cast { IsSameCast targets.old targets.new }
{
    targets.set_xy(here, number(args, "X"), number(args, "Y"))
}

// `change x by DX`.
#[tactic(auto, using(crate::proofs::Instances::on_instance_same))]
pub(crate) fn change_x(args: &Args<'_>, here: InstanceId, targets: &mut Targets) -> bool
    ensures new { targets.new ≡ on_instance here (stepped opcode.MotionChangeXBy args.entry.now) targets.old }
    ensures redraw { result ≡ (instance_at here targets.old).visible }
    ensures cast { IsSameCast targets.old targets.new }
{
    let own = stance_of(targets, here);
    targets.set_xy(here, add(own.x, number(args, "DX")), own.y)
}

// `set x to X`.
#[tactic(auto, using(crate::proofs::Instances::on_instance_same))]
pub(crate) fn set_x(args: &Args<'_>, here: InstanceId, targets: &mut Targets) -> bool
    ensures new { targets.new ≡ on_instance here (stepped opcode.MotionSetX args.entry.now) targets.old }
    ensures redraw { result ≡ (instance_at here targets.old).visible }
    ensures cast { IsSameCast targets.old targets.new }
{
    let own = stance_of(targets, here);
    targets.set_xy(here, number(args, "X"), own.y)
}

// `change y by DY`.
#[tactic(auto, using(crate::proofs::Instances::on_instance_same))]
pub(crate) fn change_y(args: &Args<'_>, here: InstanceId, targets: &mut Targets) -> bool
    ensures new { targets.new ≡ on_instance here (stepped opcode.MotionChangeYBy args.entry.now) targets.old }
    ensures redraw { result ≡ (instance_at here targets.old).visible }
    ensures cast { IsSameCast targets.old targets.new }
{
    let own = stance_of(targets, here);
    targets.set_xy(here, own.x, add(own.y, number(args, "DY")))
}

// `set y to Y`.
#[tactic(auto, using(crate::proofs::Instances::on_instance_same))]
pub(crate) fn set_y(args: &Args<'_>, here: InstanceId, targets: &mut Targets) -> bool
    ensures new { targets.new ≡ on_instance here (stepped opcode.MotionSetY args.entry.now) targets.old }
    ensures redraw { result ≡ (instance_at here targets.old).visible }
    ensures cast { IsSameCast targets.old targets.new }
{
    let own = stance_of(targets, here);
    targets.set_xy(here, own.x, number(args, "Y"))
}
