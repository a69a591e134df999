//! Threads that waited go on.

ghost use Rattle.std.specs.Prelude.{◌≡◌, ◌<◌, length, false, All, OnOk};
ghost use Rattle.machine_spec.specs.Tasks as machine;
ghost use Rattle.machine_spec.specs.Threads.{is_done};
ghost use Rattle.executions.specs.Ready.{AllFit};
ghost use Rattle.executions.specs.Resting.{IsIdle};
ghost use Rattle.executions.specs.Seen.{seen};
ghost use Rattle.frames.specs.Resuming.{IsResumedAt};

use executions::State;
use machine_spec::{Serial, Status, Which};
use project_check::Project;
use script_words::Rng;
use std::alloc::AllocError;
use thread_frames::Threads;

// The thread of a slot goes on behind the block that waited.
fn resume_at(project: &Project, threads: &mut Threads, slot: u64) -> Result<(), AllocError>
    requires there { slot < length threads.old.list }
    requires fits { AllFit project.now threads.old }
    requires alive { All (λ t. is_done t.status ≡ false) threads.old.list }
    ensures { OnOk result (IsResumedAt project.now slot threads.old threads.new) }
{
    let which = Which::Slot(slot);
    let target = match threads.thread(which) {
        Some(thread) => thread.target(),
        None => unreachable!(),
    };
    match thread_moves::resume(project, target, threads, which) {
        Ok(()) => {
            threads.set_status(which, Status::Running);
            Ok(())
        }
        Err(stop) => Err(stop),
    }
}

/// The first listed thread of a number goes on behind the block that waited for a promise (scratch-vm, engine/execute.js,
/// handlePromise); where none is listed nothing changes. The only error is want of memory, and then nothing is told of the
/// run.
pub fn resume<R: Rng + Drop>(
    state: &mut State<R>,
    project: &Project,
    serial: Serial,
) -> Result<(), AllocError>
    requires { IsIdle project.now state.old }
    ensures resumed { OnOk result (seen R.stream project.now state.new ≡ machine.resumed serial (seen R.stream project.now state.old)) }
    ensures kept { OnOk result (IsIdle project.now state.new) }
{
    match state.threads.slot_of(serial) {
        Some(slot) => {
            let threads = &mut state.threads;
            resume_at(project, threads, slot)
        }
        None => Ok(()),
    }
}
