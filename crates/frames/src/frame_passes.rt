//! The passes of a frame.

ghost use Rattle.std.specs.Prelude.{◌≡◌, true, IfOk};
ghost use Rattle.machine_spec.specs.Frame as machine;
ghost use Rattle.machine_spec.specs.Outcome.{Goes, StopIs};
ghost use Rattle.project_check.specs.Loaded.{program_of};
ghost use Rattle.executions.specs.Seen.{seen};
ghost use Rattle.executions.specs.Resting.{IsIdle};
ghost use Rattle.frames.specs.Turns.{passes_go_on};

use crate::thread_visits::pass;
use executions::State;
use project_check::Project;
use script_words::{Rng, Stop};
use std::alloc::Global;

// Whether a frame has one more pass.
fn goes_on<R: Rng + Drop>(state: &State<R>, active: bool) -> bool
    ensures { result ≡ passes_go_on active state.now }
{
    state.threads.len() > 0 && active && (state.devices.turbo() || !state.redraw)
}

/// The passes of a frame, at most so many: they go on while the list is not empty, a thread was active in the last one, and
/// turbo is on or no redraw is requested (scratch-vm, engine/sequencer.js, stepThreads). Behind each pass the threads that
/// are done leave the list. `warp` is the warp budget in executions. In scratch-vm the passes end by clock time; here they
/// are counted. `Stop` is that of the first execution that stops, and is `NoMemory` only for want of memory. After a stop
/// nothing is told of the run.
pub fn passes<R: Rng + Drop>(
    state: &mut State<R>,
    alloc: Global,
    project: &Project,
    warp: u32,
    passes: u32,
) -> Result<(), Stop>
    requires { IsIdle project.now state.old }
    ensures ok { IfOk result (λ _. machine.passes (program_of project.now) warp passes true true (seen R.stream project.now state.old) ≡ Goes (seen R.stream project.now state.new)) }
    ensures stop { StopIs result (machine.passes (program_of project.now) warp passes true true (seen R.stream project.now state.old)) }
    ensures kept { IfOk result (λ _. IsIdle project.now state.new) }
{
    let mut first = true;
    let mut active = true;
    for made in 0..passes {
        if !goes_on(state, active) {
            return Ok(());
        }
        match pass(state, alloc, project, first, warp) {
            Ok(is_active) => {
                state.threads.remove_done();
                first = false;
                active = is_active;
            }
            Err(stop) => return Err(stop),
        }
    }
    Ok(())
}
