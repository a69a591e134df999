//! A thread after a control of its own.

ghost use Rattle.std.specs.Prelude.{◌≡◌, ◌≤◌, ◌<◌, ◌∷◌, length, IfOk, Some, false, true, ◌&&◌, slice_get};
ghost use Rattle.opcode_table.specs.Kinds.{kind};
ghost use Rattle.cached_blocks.specs.declared.block.CachedBlock.{CachedBlock};
ghost use Rattle.cached_blocks.specs.Cached.{cached_blocks};
ghost use Rattle.machine_spec.specs.Keeping.{has_branches, may_wait, top_fits, under_fits};
ghost use Rattle.machine_spec.specs.Outcome.{most_levels, with_room};
ghost use Rattle.machine_spec.specs.Pending as machine;
ghost use Rattle.machine_spec.specs.Starting.{open_levels};
ghost use Rattle.machine_spec.specs.Tasks as tasks;
ghost use Rattle.machine_spec.specs.declared.threads.Control.TheVariants as control;
ghost use Rattle.machine_spec.specs.Places.{on_place};
ghost use Rattle.machine_spec.specs.Step.{position};
ghost use Rattle.project_check.specs.Loaded.{program_of, sheet_at};
ghost use Rattle.thread_frames.specs.Levels.{top_block, warp_flag};
ghost use Rattle.thread_frames.specs.Stops.{PushStopIs};
ghost use Rattle.thread_frames.specs.Threads.{frames, with_status};
ghost use Rattle.thread_moves.specs.Moves.{IsAtBlock, MovesOn, OnlyLevels, levels_at};
ghost use Rattle.thread_moves.specs.Standing.{TopHolds, MovesTo, is_ended};

use crate::empty_levels::{arrive, leave};
use crate::links::{branch, linked};
use cached_blocks::{a_script_is_told, links_fall};
use machine_spec::{BlockId, Context, Report, Status, TargetId, Which};
use project_check::Project;
use thread_frames::{PushStop, Threads};

// The warp flag of the top level of a thread; that of no levels is false.
#[inline]
pub(crate) fn is_warp(threads: &Threads, which: Which) -> bool
    ensures { result ≡ warp_flag (levels_at which threads.now) }
{
    match threads.top(which) {
        Some(top) => top.warp,
        None => false,
    }
}

/// The block that the top level of a thread holds, if any, and the warp flag of that level; that of no levels is false.
#[inline(always)]
pub fn head(threads: &Threads, which: Which) -> (Option<BlockId>, bool)
    ensures block { result.0 ≡ top_block (levels_at which threads.now) }
    ensures warp { result.1 ≡ warp_flag (levels_at which threads.now) }
{
    match threads.top(which) {
        Some(top) => (top.block, top.warp),
        None => (None, false),
    }
}

// How a thread stands after a report of it.
#[inline]
fn status_after(report: Report) -> Status
    ensures { result ≡ tasks.status_after report }
{
    match report {
        Report::Go => Status::Running,
        Report::Uncovered => Status::Running,
        Report::Yielded => Status::Running,
        Report::Ticked => Status::YieldTick,
        Report::Waits => Status::PromiseWait,
        Report::Ended => Status::Done,
    }
}

// A thread stands as its report says.
#[inline]
pub(crate) fn report_of(threads: &mut Threads, which: Which, report: Report) -> Report
    ensures status { threads.new ≡ on_place (with_status (tasks.status_after report)) which threads.old }
    ensures same { result ≡ report }
{
    threads.set_status(which, status_after(report));
    report
}

// Levels go on behind the block of the top one.
#[inline]
pub(crate) fn pass(
    project: &Project,
    target: TargetId,
    threads: &mut Threads,
    which: Which,
    id: BlockId,
) -> Report
    requires { TopHolds (sheet_at target project.now) (levels_at which threads.old) id }
    ensures at { MovesTo (sheet_at target project.now) id (λ s rest. machine.settle rest (warp_flag (levels_at which threads.old))) (levels_at which threads.old) (levels_at which threads.new) result }
    ensures fewer { length (levels_at which threads.new) ≤ length (levels_at which threads.old) }
    ensures only { OnlyLevels which threads.old threads.new }
{
    let block = linked(project, target, id);
    if block.next.is_some() {
        threads.go_next(which, block.next);
        Report::Go
    } else {
        leave(project, target, threads, which)
    }
}

/// Goes on behind the block of the top level of a thread.
#[inline(always)]
pub fn go_on(
    project: &Project,
    threads: &mut Threads,
    which: Which,
    target: TargetId,
    id: BlockId,
) -> Report
    requires { IsAtBlock project.now which threads.old target id }
    ensures { MovesOn project.now which target id (λ s rest warp. machine.settle rest warp) threads.old threads.new result }
{
    let report = pass(project, target, threads, which, id);
    report_of(threads, which, report)
}

/// Enters a branch of the block of the top level of a thread, which keeps the context and the loop mark. Full exactly where
/// 65,536 levels are open; the only other error is want of memory. After an error nothing is told of the thread.
#[inline(always)]
pub fn enter(
    project: &Project,
    threads: &mut Threads,
    which: Which,
    target: TargetId,
    id: BlockId,
    number: u8,
    is_loop: bool,
    context: Context,
) -> Result<Report, PushStop>
    requires at { IsAtBlock project.now which threads.old target id }
    requires fits { (b : CachedBlock) → slice_get (cached_blocks (sheet_at target project.now)) id ≡ Some b → (has_branches (kind b.op) && under_fits context is_loop (kind b.op)) ≡ true }
    ensures room { IfOk result (λ r. open_levels frames threads.old < most_levels) }
    ensures at { IfOk result (MovesOn project.now which target id (λ s rest warp. position (program_of project.now) false warp s rest (control.Branch number is_loop) context) threads.old threads.new) }
    ensures stop { PushStopIs result (with_room (open_levels frames threads.old) threads.old) }
{
    a_script_is_told();
    links_fall();
    let block = linked(project, target, id);
    match threads.open_branch(which, is_loop, context, branch(block, number)) {
        Ok(()) => {}
        Err(stop) => return Err(stop),
    }
    let report = arrive(project, target, threads, which, branch(block, number));
    Ok(report_of(threads, which, report))
}

/// Stays at the block of the top level of a thread, which keeps the context.
pub fn stay(
    project: &Project,
    threads: &mut Threads,
    which: Which,
    target: TargetId,
    id: BlockId,
    context: Context,
    report: Report,
) -> Report
    requires at { IsAtBlock project.now which threads.old target id }
    requires fits { (b : CachedBlock) → slice_get (cached_blocks (sheet_at target project.now)) id ≡ Some b → (may_wait (kind b.op) && top_fits context false (kind b.op)) ≡ true }
    requires report { is_ended report ≡ false }
    ensures { MovesOn project.now which target id (λ s rest warp. record { items = machine.kept s context ∷ rest; warp = warp; report = report }) threads.old threads.new result }
{
    let _block = linked(project, target, id);
    threads.set_context(which, context);
    report_of(threads, which, report)
}

/// Gives up levels of a thread until the top one has called, which is then executed once more; with none the thread has
/// ended.
pub fn stop_this_script(
    project: &Project,
    threads: &mut Threads,
    which: Which,
    target: TargetId,
    id: BlockId,
) -> Report
    requires { IsAtBlock project.now which threads.old target id }
    ensures { MovesOn project.now which target id (λ s rest warp. machine.unwind rest) threads.old threads.new result }
{
    let _block = linked(project, target, id);
    if threads.stop_this_script(which) {
        report_of(threads, which, Report::Go)
    } else {
        report_of(threads, which, Report::Ended)
    }
}
