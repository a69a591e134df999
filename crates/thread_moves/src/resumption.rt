//! A thread whose promise ended.

ghost use Rattle.std.specs.Prelude.{◌≡◌, ◌<◌, [], ◌∷◌, None, is_some, false, true, OnOk};
ghost use Rattle.machine_spec.specs.Outcome.{most_levels};
ghost use Rattle.machine_spec.specs.Places.{at_place};
ghost use Rattle.machine_spec.specs.Starting.{open_levels};
ghost use Rattle.project_check.specs.Loaded.{sheet_at};
ghost use Rattle.thread_frames.specs.Fit.{IsAtRest};
ghost use Rattle.thread_frames.specs.Levels as levels_of;
ghost use Rattle.thread_frames.specs.Threads.{frames};
ghost use Rattle.thread_moves.specs.Moves.{OnlyLevels, levels_at};
ghost use Rattle.thread_moves.specs.Resuming.{IsResumed, kept_open};

use crate::level_moves::pass;
use crate::links::linked;
use machine_spec::{BlockId, TargetId, Which};
use project_check::Project;
use std::alloc::AllocError;
use thread_frames::{PushStop, Threads};

// The block of the top level of a thread.
fn top_block(threads: &Threads, which: Which) -> Option<BlockId>
    ensures { result ≡ levels_of.top_block (levels_at which threads.now) }
{
    match threads.top(which) {
        Some(top) => top.block,
        None => None,
    }
}

// Opens a level without a block for a thread, for which there is room.
fn open_empty(threads: &mut Threads, which: Which) -> Result<(), AllocError>
    requires there { is_some (at_place which threads.old) ≡ true }
    requires room { open_levels frames threads.old < most_levels }
    ensures levels { OnOk result (levels_at which threads.new ≡ levels_of.new_level None false ∷ levels_at which threads.old) }
    ensures only { OnOk result (OnlyLevels which threads.old threads.new) }
{
    match threads.push(which, None, false) {
        Ok(()) => Ok(()),
        Err(PushStop::Full) => unreachable!(),
        Err(PushStop::NoMemory) => Err(AllocError),
    }
}

// Opens a level without a block where no level is left to a thread.
fn keep_open(threads: &mut Threads, which: Which) -> Result<(), AllocError>
    requires there { is_some (at_place which threads.old) ≡ true }
    requires room { levels_at which threads.old ≡ [] → open_levels frames threads.old < most_levels }
    ensures levels { OnOk result (levels_at which threads.new ≡ kept_open (levels_at which threads.old)) }
    ensures only { OnOk result (OnlyLevels which threads.old threads.new) }
{
    if threads.depth(which) > 0 {
        Ok(())
    } else {
        open_empty(threads, which)
    }
}

/// A thread goes on behind the block of its top level, whose promise has ended (scratch-vm, engine/execute.js,
/// handlePromise). One with nothing left keeps one level without a block: it is done when it is visited next. The only error
/// is want of memory, and then nothing is told of the thread.
pub fn resume(
    project: &Project,
    target: TargetId,
    threads: &mut Threads,
    which: Which,
) -> Result<(), AllocError>
    requires { IsAtRest (sheet_at target project.now) (levels_at which threads.old) }
    ensures resumed { OnOk result (IsResumed (sheet_at target project.now) (levels_at which threads.old) (levels_at which threads.new)) }
    ensures only { OnOk result (OnlyLevels which threads.old threads.new) }
{
    let _few = threads.levels();
    match top_block(threads, which) {
        Some(id) => {
            let _block = linked(project, target, id);
            pass(project, target, threads, which, id);
            keep_open(threads, which)
        }
        None => {
            threads.pop(which);
            open_empty(threads, which)
        }
    }
}
