//! Visits of threads, and a pass over the thread list.

ghost use Rattle.std.specs.Prelude.{◌≡◌, ◌<◌, ◌+◌, ◌^◌, ◌||◌, drop, slice_get, false, IfOk, IfSome};
ghost use Rattle.machine_spec.specs.Outcome.{Goes, StopIs};
ghost use Rattle.machine_spec.specs.Places.{running};
ghost use Rattle.machine_spec.specs.Slice as machine;
ghost use Rattle.project_check.specs.declared.project.Project.{Project};
ghost use Rattle.project_check.specs.Loaded.{program_of};
ghost use Rattle.executions.specs.Seen.{seen, seen_threads};
ghost use Rattle.executions.specs.Resting.{IsResting};
ghost use Rattle.frames.specs.Turns as turns;
ghost use Rattle.frames.specs.Turns.{IsAlive};

use crate::thread_slices::turn;
use executions::State;
use machine_spec::{Status, Which};
use project_check::Project;
use script_words::{Rng, Stop};
use std::alloc::Global;
use thread_frames::Threads;

// The most slices of a pass.
const MOST_SLICES: u32 = 65_536;

// Whether one of two is true.
fn either(a: bool, b: bool) -> bool
    ensures { result ≡ (a || b) }
{
    a || b
}

// Whether the running thread is active.
fn is_active(threads: &Threads, slot: u64) -> bool
    ensures { result ≡ turns.is_active (running slot threads.now) }
{
    match threads.thread(threads.place(slot)) {
        Some(thread) => matches!(thread.status(), Status::Running),
        None => false,
    }
}

// Whether the thread of a slot gets a slice; one that ticks does in the first pass of a frame.
fn gets_slice(threads: &Threads, first: bool, slot: u64) -> bool
    ensures { result ≡ turns.gets_slice first (slice_get threads.now.list slot) }
{
    match threads.thread(Which::Slot(slot)) {
        Some(thread) => match thread.status() {
            Status::Running => true,
            Status::YieldTick => first,
            Status::PromiseWait => false,
            Status::Done => false,
        },
        None => false,
    }
}

// The first place from one on whose thread gets a slice.
fn next_place(threads: &Threads, first: bool, from: u64) -> Option<u64>
    ensures next { (p : Project) → result ≡ machine.next_place first from (drop from (seen_threads p threads.now).list) }
    ensures alive { IfSome result (λ place. IsAlive place threads.now) }
    ensures within { IfSome result (λ place. place + 1 < 2 ^ 64) }
{
    for place in from..threads.len() {
        if gets_slice(threads, first, place) {
            return Some(place);
        }
    }
    None
}

// The thread of a slot has its turn; answers whether it is active afterwards, in its slot or detached. A detached thread is
// dropped then.
fn visit<R: Rng + Drop>(
    state: &mut State<R>,
    alloc: Global,
    project: &Project,
    slot: u64,
    warp: u32,
) -> Result<bool, Stop>
    requires resting { IsResting project.now state.old }
    requires alive { IsAlive slot state.old.threads }
    ensures ok { IfOk result (λ active. machine.visit (program_of project.now) warp slot (seen R.stream project.now state.old) ≡ Goes (record { world = seen R.stream project.now state.new; active = active })) }
    ensures stop { StopIs result (machine.visit (program_of project.now) warp slot (seen R.stream project.now state.old)) }
    ensures kept { IfOk result (λ _. IsResting project.now state.new) }
{
    state.threads.set_status(Which::Slot(slot), Status::Running);
    match turn(state, alloc, project, slot, warp) {
        Ok(()) => {
            let active = is_active(&state.threads, slot);
            state.threads.drop_detached();
            Ok(active)
        }
        Err(stop) => Err(stop),
    }
}

/// A pass over the thread list, by the list as it is at each place: each thread that is running gets a slice, at most 65,536
/// of them, and in the `first` pass of a frame one that ticks does too (scratch-vm, engine/sequencer.js, the inner loop of
/// stepThreads). It answers whether a thread was active: running behind its slice. `warp` is the warp budget in executions.
/// `Stop` is that of the first execution that stops, and is `NoMemory` only for want of memory. After a stop nothing is told
/// of the run.
pub fn pass<R: Rng + Drop>(
    state: &mut State<R>,
    alloc: Global,
    project: &Project,
    first: bool,
    warp: u32,
) -> Result<bool, Stop>
    requires { IsResting project.now state.old }
    ensures ok { IfOk result (λ active. machine.pass (program_of project.now) first warp machine.most_slices 0 (seen R.stream project.now state.old) false ≡ Goes (record { world = seen R.stream project.now state.new; active = active })) }
    ensures stop { StopIs result (machine.pass (program_of project.now) first warp machine.most_slices 0 (seen R.stream project.now state.old) false) }
    ensures kept { IfOk result (λ _. IsResting project.now state.new) }
{
    let mut from: u64 = 0;
    let mut active = false;
    for slices in 0..MOST_SLICES {
        match next_place(&state.threads, first, from) {
            Some(place) => match visit(state, alloc, project, place, warp) {
                Ok(is_active) => {
                    active = either(active, is_active);
                    from = place + 1;
                }
                Err(stop) => return Err(stop),
            },
            None => return Ok(active),
        }
    }
    Ok(active)
}
