//! The instance that executes.

ghost use Rattle.std.specs.Prelude.{◌≡◌};
ghost use Rattle.machine_spec.specs.Stores.{instance_at};

use machine_spec::InstanceId;
use scratch_number::{Num, of_whole};
use targets::Targets;

// The size of an instance; 0 where none is live.
pub(crate) fn size(here: InstanceId, targets: &Targets) -> Num
    ensures { result ≡ (instance_at here targets.now).size }
{
    match targets.get(here) {
        Some(own) => own.size,
        None => of_whole(0),
    }
}

// The number of the latest update of the bubble of an instance; 0 where none is live.
pub(crate) fn bubble_usage(here: InstanceId, targets: &Targets) -> u64
    ensures { result ≡ (instance_at here targets.now).bubble.usage }
{
    match targets.get(here) {
        Some(own) => own.bubble.usage,
        None => 0,
    }
}
