//! The instance that executes.

ghost use Rattle.std.specs.Prelude.{◌≡◌};
ghost use Rattle.machine_spec.specs.Stores.{instance_at, on_instance};

use machine_spec::InstanceId;
use scratch_number::{Num, of_whole};
use targets::Targets;

// A place on the stage, in stage units.
#[derive(Clone, Copy, Debug)]
pub(crate) struct Point {
    pub x: Num,
    pub y: Num,
}

// Where an instance is, and its direction in degrees.
#[derive(Clone, Copy, Debug)]
pub(crate) struct Stance {
    pub x: Num,
    pub y: Num,
    pub direction: Num,
}

// The stance of an instance; zeros where none is live.
pub(crate) fn stance_of(targets: &Targets, here: InstanceId) -> Stance
    ensures x { result.x ≡ (instance_at here targets.now).x }
    ensures y { result.y ≡ (instance_at here targets.now).y }
    ensures direction { result.direction ≡ (instance_at here targets.now).direction }
{
    match targets.get(here) {
        Some(own) => Stance {
            x: own.x,
            y: own.y,
            direction: own.direction,
        },
        None => Stance {
            x: of_whole(0),
            y: of_whole(0),
            direction: of_whole(0),
        },
    }
}

// Whether an instance is visible; where none is live it is not.
#[tactic(auto, using(crate::proofs::Instances::on_instance_itself))]
pub(crate) fn is_visible(here: InstanceId, targets: &Targets) -> bool
    ensures visible { result ≡ (instance_at here targets.now).visible }
    ensures same { targets.now ≡ on_instance here (λ i. i) targets.now }
{
    targets.is_visible(here)
}
