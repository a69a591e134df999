//! Levels with nothing left to do are left.

ghost use Rattle.std.specs.Prelude.{◌≡◌, ◌<◌, length};
ghost use Rattle.machine_spec.specs.Pending as machine;
ghost use Rattle.project_check.specs.Loaded.{sheet_at};
ghost use Rattle.thread_frames.specs.Levels.{warp_flag};
ghost use Rattle.thread_frames.specs.Reading.{pending};
ghost use Rattle.thread_moves.specs.Moves.{OnlyLevels, levels_at};
ghost use Rattle.thread_moves.specs.Standing.{IsAt, IsCovered, IsOpened, emptied};

use crate::links::linked;
use machine_spec::{BlockId, Report, TargetId, Which};
use project_check::Project;
use thread_frames::Threads;

// Leaves the top level of a thread, whose block is done with and has no block behind it, and with it those under it that have
// nothing left to do then: as far as a loop, or a block that follows. With no level left the thread has ended.
pub(crate) fn leave(
    project: &Project,
    target: TargetId,
    threads: &mut Threads,
    which: Which,
) -> Report
    requires { IsCovered (sheet_at target project.now) (emptied (levels_at which threads.old)) }
    ensures at { IsAt (sheet_at target project.now) (machine.settle (pending (sheet_at target project.now) (emptied (levels_at which threads.old))) (warp_flag (emptied (levels_at which threads.old)))) (levels_at which threads.new) result }
    ensures fewer { length (levels_at which threads.new) < length (levels_at which threads.old) }
    ensures only { OnlyLevels which threads.old threads.new }
{
    while let Some((is_loop, block)) = threads.uncover(which) {
        if is_loop {
            return Report::Uncovered;
        }
        let id = match block {
            Some(id) => id,
            None => unreachable!(),
        };
        let block = linked(project, target, id);
        if block.next.is_some() {
            threads.go_next(which, block.next);
            return Report::Go;
        }
    }
    Report::Ended
}

// A thread stands at the block with which the level begins that was just opened; where there is none it leaves the level.
#[inline(always)]
pub(crate) fn arrive(
    project: &Project,
    target: TargetId,
    threads: &mut Threads,
    which: Which,
    first: Option<BlockId>,
) -> Report
    requires { IsOpened (sheet_at target project.now) first (levels_at which threads.old) }
    ensures at { IsAt (sheet_at target project.now) (machine.settle (pending (sheet_at target project.now) (levels_at which threads.old)) (warp_flag (levels_at which threads.old))) (levels_at which threads.new) result }
    ensures only { OnlyLevels which threads.old threads.new }
{
    if first.is_some() {
        Report::Go
    } else {
        leave(project, target, threads, which)
    }
}
