//! The green flag.

ghost use Rattle.std.specs.Prelude.{◌≡◌, [], IfOk};
ghost use Rattle.machine_spec.specs.Line as machine;
ghost use Rattle.machine_spec.specs.Outcome.{Goes, StopIs};
ghost use Rattle.machine_spec.specs.declared.threads.Filter.TheVariants as filter;
ghost use Rattle.project_check.specs.Loaded.{program_of};
ghost use Rattle.executions.specs.Resting.{IsIdle};
ghost use Rattle.executions.specs.Seen.{seen};

use executions::State;
use machine_spec::Filter;
use project_check::Project;
use project_json::Text;
use scratch_values::BoundText;
use script_words::{Rng, Stop};
use std::alloc::Global;

// Stops everything; the answer is the given one, the timer begins at the clock, and no edge value is recorded.
fn reset<R: Rng + Drop>(state: &mut State<R>, project: &Project, answer: BoundText)
    requires idle { IsIdle project.now state.old }
    requires empty { answer ≡ [] }
    ensures reset { seen R.stream project.now state.new ≡ machine.reset (program_of project.now).records (seen R.stream project.now state.old) }
    ensures kept { IsIdle project.now state.new }
{
    state.stop_all(project);
    state.targets.clear_edges();
    state.devices.set_answer(answer);
    state.devices.reset_timer();
}

// Clicks the green flag: everything is stopped, the answer, the timer and the edge values are new, and the flag hats are
// started.
pub(crate) fn flag<R: Rng + Drop>(
    state: &mut State<R>,
    alloc: Global,
    project: &Project,
) -> Result<(), Stop>
    requires { IsIdle project.now state.old }
    ensures ok { IfOk result (λ _. machine.started (program_of project.now) filter.Flag (machine.reset (program_of project.now).records (seen R.stream project.now state.old)) ≡ Goes (seen R.stream project.now state.new)) }
    ensures stop { StopIs result (machine.started (program_of project.now) filter.Flag (machine.reset (program_of project.now).records (seen R.stream project.now state.old))) }
    ensures kept { IfOk result (λ _. IsIdle project.now state.new) }
{
    match BoundText::from_short(alloc, Text::new(alloc)) {
        Ok(empty) => {
            reset(state, project, empty);
            state.begin(alloc, project, &Filter::Flag)
        }
        Err(_) => Err(Stop::NoMemory),
    }
}
