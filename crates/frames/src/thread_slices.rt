//! Slices of executions.

ghost use Rattle.std.specs.Prelude.{◌≡◌, ◌≤◌, ◌<◌, ◌+◌, ◌^◌, IfOk, Some};
ghost use Rattle.machine_spec.specs.Outcome.{Goes, StopIs};
ghost use Rattle.machine_spec.specs.Places.{running};
ghost use Rattle.machine_spec.specs.Slice as machine;
ghost use Rattle.thread_frames.specs.Levels.{top_block, warp_flag};
ghost use Rattle.thread_frames.specs.Threads.{levels_of};
ghost use Rattle.project_check.specs.Loaded.{program_of};
ghost use Rattle.executions.specs.Ready.{IsKept, IsReady};
ghost use Rattle.executions.specs.Seen.{seen};
ghost use Rattle.frames.specs.Turns.{CanTurn};

use executions::State;
use machine_spec::{BlockId, Report};
use project_check::Project;
use script_words::{Rng, Stop};
use std::alloc::Global;
use thread_moves::head;

// The most executions of a slice.
const MOST_EXECUTIONS: u32 = 1_000_000;

// The executions that are counted, after one more.
#[inline]
fn counted_after(counted: u32, flag: bool) -> u32
    requires { counted < 2 ^ 31 }
    ensures value { result ≡ machine.counted_after counted flag }
    ensures bound { result ≤ counted + 1 }
{
    if counted > 0 || flag {
        counted + 1
    } else {
        counted
    }
}

// Whether a slice goes on behind an execution.
#[inline]
fn goes_on(report: Report, before: bool, after: bool, late: bool) -> bool
    ensures { result ≡ machine.slice_goes_on report before after late }
{
    match report {
        Report::Go => true,
        Report::Uncovered => after && !late,
        Report::Yielded => before && !late,
        Report::Ticked => false,
        Report::Waits => false,
        Report::Ended => false,
    }
}

// A slice of the running thread, whose top level holds this block and has this warp flag.
#[inline(always)]
fn slice_from<R: Rng + Drop>(
    state: &mut State<R>,
    alloc: Global,
    project: &Project,
    slot: u64,
    first: BlockId,
    flag: bool,
    warp: u32,
) -> Result<(), Stop>
    requires ready { IsReady project.now slot state.old }
    requires block { top_block (levels_of (running slot state.old.threads)) ≡ Some first }
    requires flag { flag ≡ warp_flag (levels_of (running slot state.old.threads)) }
    ensures ok { IfOk result (λ _. machine.slice (program_of project.now) warp slot machine.most_executions 0 (seen R.stream project.now state.old) ≡ Goes (seen R.stream project.now state.new)) }
    ensures stop { StopIs result (machine.slice (program_of project.now) warp slot machine.most_executions 0 (seen R.stream project.now state.old)) }
    ensures kept { IfOk result (λ _. IsKept project.now state.new) }
{
    let mut runner = state.runner(project, slot);
    let mut counted: u32 = 0;
    let mut next = Some(first);
    let mut before = flag;
    for execution in 0..MOST_EXECUTIONS {
        let id = match next {
            Some(id) => id,
            None => unreachable!(),
        };
        match state.step_at(alloc, project, slot, &mut runner, id, counted > warp) {
            Ok(report) => {
                counted = counted_after(counted, before);
                let top = state.head(&runner);
                if !goes_on(report, before, top.1, counted > warp) {
                    return Ok(());
                }
                next = top.0;
                before = top.1;
            }
            Err(stop) => return Err(stop),
        }
    }
    Ok(())
}

/// A slice of the running thread, while the thread of a slot is visited: executions, until it lets other threads run, at
/// most 1,000,000 (scratch-vm, engine/sequencer.js, stepThread). It goes on behind a yield where the warp flag before it was
/// true, and at an uncovered loop where the restored flag is true, both while warp time has not passed: while no more
/// executions than `warp` were counted, from the first at a true flag on. In scratch-vm a slice ends by clock time; here
/// executions are counted. `Stop` is that of the first execution that stops, and is `NoMemory` only for want of memory.
/// After a stop nothing is told of the run.
pub fn slice<R: Rng + Drop>(
    state: &mut State<R>,
    alloc: Global,
    project: &Project,
    slot: u64,
    warp: u32,
) -> Result<(), Stop>
    requires { IsReady project.now slot state.old }
    ensures ok { IfOk result (λ _. machine.slice (program_of project.now) warp slot machine.most_executions 0 (seen R.stream project.now state.old) ≡ Goes (seen R.stream project.now state.new)) }
    ensures stop { StopIs result (machine.slice (program_of project.now) warp slot machine.most_executions 0 (seen R.stream project.now state.old)) }
    ensures kept { IfOk result (λ _. IsKept project.now state.new) }
{
    let top = head(&state.threads, state.threads.place(slot));
    match top.0 {
        Some(id) => slice_from(state, alloc, project, slot, id, top.1, warp),
        None => unreachable!(),
    }
}

// The turn of the running thread: a slice; with nothing to do it is done, with no execution.
pub(crate) fn turn<R: Rng + Drop>(
    state: &mut State<R>,
    alloc: Global,
    project: &Project,
    slot: u64,
    warp: u32,
) -> Result<(), Stop>
    requires { CanTurn project.now slot state.old }
    ensures ok { IfOk result (λ _. machine.turn (program_of project.now) warp slot (seen R.stream project.now state.old) ≡ Goes (seen R.stream project.now state.new)) }
    ensures stop { StopIs result (machine.turn (program_of project.now) warp slot (seen R.stream project.now state.old)) }
    ensures kept { IfOk result (λ _. IsKept project.now state.new) }
{
    let which = state.threads.place(slot);
    let top = head(&state.threads, which);
    match top.0 {
        Some(id) => slice_from(state, alloc, project, slot, id, top.1, warp),
        None => {
            state.threads.finish(which);
            Ok(())
        }
    }
}
