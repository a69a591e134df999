//! The stages of a frame, in their order. Each is a function of its own with a `match` in place of `?`: so the world that the
//! next one begins with has a name in its contract.

ghost use Rattle.std.specs.Prelude.{◌≡◌, ◌<◌, ◌≤◌, ◌^◌, length, IfOk};
ghost use Rattle.machine_spec.specs.Frame as machine;
ghost use Rattle.machine_spec.specs.Outcome.{Goes, StopIs};
ghost use Rattle.project_check.specs.declared.project.Project.{Project};
ghost use Rattle.project_check.specs.Loaded.{program_of};
ghost use Rattle.executions.specs.Resting.{IsIdle};
ghost use Rattle.executions.specs.Seen.{seen};
ghost use Rattle.frames.specs.Stages.{edges_tried, passes_made, threads_run, scripts_run};

use crate::bubble_ends::end_timers;
use crate::edge_hats::pass_edge_hats;
use crate::frame_passes::passes;
use executions::State;
use machine_spec::Budget;
use project_check::Project;
use script_words::{CounterKind, LAST_NUMBER, Rng, Stop};
use std::alloc::Global;

// A frame gets its number.
fn number<R: Rng + Drop>(state: &mut State<R>) -> Result<(), Stop>
    requires few { state.old.frame < 2 ^ 62 }
    ensures ok { (p : Project) → IfOk result (λ _. machine.numbered (seen R.stream p state.old) ≡ Goes (seen R.stream p state.new)) }
    ensures stop { (p : Project) → StopIs result (machine.numbered (seen R.stream p state.old)) }
    ensures kept { (p : Project) → IsIdle p state.old → IsIdle p state.new }
    ensures clock { state.new.devices.clock ≡ state.old.devices.clock }
    ensures few { state.new.frame < 2 ^ 62 }
{
    if state.frame == LAST_NUMBER {
        return Err(Stop::Counter {
            which: CounterKind::Frame,
        });
    }
    state.frame += 1;
    Ok(())
}

// Bubbles whose time has passed end.
fn end_bubbles<R: Rng + Drop>(
    state: &mut State<R>,
    alloc: Global,
    project: &Project,
) -> Result<(), Stop>
    requires idle { IsIdle project.now state.old }
    requires few { state.old.frame < 2 ^ 62 }
    ensures ok { IfOk result (λ _. machine.timers_ended (length state.old.devices.timers) (seen R.stream project.now state.old) ≡ Goes (seen R.stream project.now state.new)) }
    ensures stop { StopIs result (machine.timers_ended (length state.old.devices.timers) (seen R.stream project.now state.old)) }
    ensures kept { IfOk result (λ _. IsIdle project.now state.new) }
    ensures clock { IfOk result (λ _. state.new.devices.clock ≡ state.old.devices.clock) }
    ensures few { IfOk result (λ _. state.new.frame < 2 ^ 62) }
{
    end_timers(state, alloc, project)
}

// Edge hats are evaluated, and those that have become true are started.
fn start_edge_hats<R: Rng + Drop>(
    state: &mut State<R>,
    alloc: Global,
    project: &Project,
) -> Result<(), Stop>
    requires idle { IsIdle project.now state.old }
    requires few { state.old.frame < 2 ^ 62 }
    ensures ok { IfOk result (λ _. edges_tried (program_of project.now) (seen R.stream project.now state.old) ≡ Goes (seen R.stream project.now state.new)) }
    ensures stop { StopIs result (edges_tried (program_of project.now) (seen R.stream project.now state.old)) }
    ensures kept { IfOk result (λ _. IsIdle project.now state.new) }
    ensures clock { IfOk result (λ _. state.new.devices.clock ≡ state.old.devices.clock) }
    ensures few { IfOk result (λ _. state.new.frame < 2 ^ 62) }
{
    pass_edge_hats(state, alloc, project)
}

// Passes are made, before which no redraw is requested.
fn make_passes<R: Rng + Drop>(
    state: &mut State<R>,
    alloc: Global,
    project: &Project,
    budget: &Budget,
) -> Result<(), Stop>
    requires idle { IsIdle project.now state.old }
    requires few { state.old.frame < 2 ^ 62 }
    ensures ok { IfOk result (λ _. passes_made (program_of project.now) budget.now (seen R.stream project.now state.old) ≡ Goes (seen R.stream project.now state.new)) }
    ensures stop { StopIs result (passes_made (program_of project.now) budget.now (seen R.stream project.now state.old)) }
    ensures kept { IfOk result (λ _. IsIdle project.now state.new) }
    ensures clock { IfOk result (λ _. state.new.devices.clock ≡ state.old.devices.clock) }
    ensures few { IfOk result (λ _. state.new.frame < 2 ^ 62) }
{
    state.redraw = false;
    passes(state, alloc, project, budget.warp, budget.passes)
}

// What follows edge hats: passes, and the number of the frame.
fn run_threads<R: Rng + Drop>(
    state: &mut State<R>,
    alloc: Global,
    project: &Project,
    budget: &Budget,
) -> Result<(), Stop>
    requires idle { IsIdle project.now state.old }
    requires few { state.old.frame < 2 ^ 62 }
    ensures ok { IfOk result (λ _. threads_run (program_of project.now) budget.now (seen R.stream project.now state.old) ≡ Goes (seen R.stream project.now state.new)) }
    ensures stop { StopIs result (threads_run (program_of project.now) budget.now (seen R.stream project.now state.old)) }
    ensures kept { IfOk result (λ _. IsIdle project.now state.new) }
    ensures clock { IfOk result (λ _. state.new.devices.clock ≡ state.old.devices.clock) }
    ensures few { IfOk result (λ _. state.new.frame < 2 ^ 62) }
{
    match make_passes(state, alloc, project, budget) {
        Ok(()) => number(state),
        Err(stop) => Err(stop),
    }
}

// What follows bubbles that end: edge hats, passes, and the number of the frame.
fn run_scripts<R: Rng + Drop>(
    state: &mut State<R>,
    alloc: Global,
    project: &Project,
    budget: &Budget,
) -> Result<(), Stop>
    requires idle { IsIdle project.now state.old }
    requires few { state.old.frame < 2 ^ 62 }
    ensures ok { IfOk result (λ _. scripts_run (program_of project.now) budget.now (seen R.stream project.now state.old) ≡ Goes (seen R.stream project.now state.new)) }
    ensures stop { StopIs result (scripts_run (program_of project.now) budget.now (seen R.stream project.now state.old)) }
    ensures kept { IfOk result (λ _. IsIdle project.now state.new) }
    ensures clock { IfOk result (λ _. state.new.devices.clock ≡ state.old.devices.clock) }
    ensures few { IfOk result (λ _. state.new.frame < 2 ^ 62) }
{
    match start_edge_hats(state, alloc, project) {
        Ok(()) => run_threads(state, alloc, project, budget),
        Err(stop) => Err(stop),
    }
}

/// A frame of a run (scratch-vm, engine/runtime.js, _step). The clock is set to that of the budget, in milliseconds; it does
/// not go back. Bubbles whose time has passed end, edge hats are evaluated, the redraw request is cleared, and at most as
/// many passes as the budget says are made, with its warp budget in executions. Then the frame has its number, from which
/// the next is one more. In scratch-vm the passes end by clock time; here they are counted. `Stop` is the first limit that is
/// met; it is `Counter` of frames exactly where the counter stands at 2^62 − 1 behind all this, and is `NoMemory` only for
/// want of memory. After a stop nothing is told of the run.
pub fn frame<R: Rng + Drop>(
    state: &mut State<R>,
    alloc: Global,
    project: &Project,
    budget: &Budget,
) -> Result<(), Stop>
    requires idle { IsIdle project.now state.old }
    requires clock { state.old.devices.clock ≤ budget.now.clock }
    requires few { state.old.frame < 2 ^ 62 }
    ensures ok { IfOk result (λ _. machine.frame (program_of project.now) budget.now (seen R.stream project.now state.old) ≡ Goes (seen R.stream project.now state.new)) }
    ensures stop { StopIs result (machine.frame (program_of project.now) budget.now (seen R.stream project.now state.old)) }
    ensures kept { IfOk result (λ _. IsIdle project.now state.new) }
    ensures clock { IfOk result (λ _. state.new.devices.clock ≡ budget.now.clock) }
    ensures few { IfOk result (λ _. state.new.frame < 2 ^ 62) }
{
    state.devices.set_clock(budget.clock);
    match end_bubbles(state, alloc, project) {
        Ok(()) => run_scripts(state, alloc, project, budget),
        Err(stop) => Err(stop),
    }
}
