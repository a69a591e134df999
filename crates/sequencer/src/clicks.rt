//! Clicks on instances.

ghost use Rattle.std.specs.Prelude.{◌≡◌, IfOk, slice_get};
ghost use Rattle.std.specs.Option.{option_map};
ghost use Rattle.machine_spec.specs.Line as machine;
ghost use Rattle.machine_spec.specs.Outcome.{Goes, StopIs};
ghost use Rattle.project_check.specs.Loaded.{program_of};
ghost use Rattle.executions.specs.Resting.{IsIdle};
ghost use Rattle.executions.specs.Seen.{seen};

use executions::State;
use machine_spec::{Filter, InstanceId};
use project_check::Project;
use script_words::{Rng, Stop};
use std::alloc::Global;
use targets::Targets;

// The instance at a place of the executable order.
fn at(targets: &Targets, place: u32) -> Option<InstanceId>
    ensures { result ≡ option_map (λ i. i.number) (slice_get targets.now place) }
{
    match targets.instances().get(place as usize) {
        Some(instance) => Some(instance.number),
        None => None,
    }
}

// Clicks the instance at a place of the executable order; where there is none nothing changes.
pub(crate) fn click<R: Rng + Drop>(
    state: &mut State<R>,
    alloc: Global,
    project: &Project,
    place: u32,
) -> Result<(), Stop>
    requires { IsIdle project.now state.old }
    ensures ok { IfOk result (λ _. machine.clicked (program_of project.now) (slice_get state.old.targets place) (seen R.stream project.now state.old) ≡ Goes (seen R.stream project.now state.new)) }
    ensures stop { StopIs result (machine.clicked (program_of project.now) (slice_get state.old.targets place) (seen R.stream project.now state.old)) }
    ensures kept { IfOk result (λ _. IsIdle project.now state.new) }
{
    match at(&state.targets, place) {
        Some(of) => state.begin(alloc, project, &Filter::Clicked(of)),
        None => Ok(()),
    }
}
