//! The running thread of a slot.

ghost use Rattle.std.specs.Prelude.{◌≡◌};
ghost use Rattle.machine_spec.specs.Places.{at_place};
ghost use Rattle.thread_frames.specs.Levels.{top_block, warp_flag};
ghost use Rattle.thread_frames.specs.Threads.{levels_of};
ghost use Rattle.executions.specs.Ready.{IsReady};
ghost use Rattle.executions.specs.Runners.{IsRunner, next_block};

use crate::execution::Next;
use crate::state::State;
use machine_spec::{BlockId, InstanceId, Serial, TargetId, Which};
use project_check::Project;
use script_words::Rng;

/// The running thread of a slot: its place, its target, its instance and its number, so that an execution looks for none of
/// them. Its levels stand in the list of threads.
#[derive(Clone, Copy, Debug)]
pub struct Runner {
    pub(crate) which: Which,
    pub(crate) target: TargetId,
    pub(crate) here: InstanceId,
    pub(crate) serial: Serial,
}

impl Runner {
    // What the thread executes next, which is this block.
    #[inline]
    pub(crate) fn next(&self, id: BlockId) -> Next
        ensures { result ≡ next_block self.now id }
    {
        Next {
            target: self.target,
            here: self.here,
            serial: self.serial,
            id,
        }
    }
}

impl<R: Rng + Drop> State<R> {
    /// The running thread of a slot, which is about to execute a block, to be executed by `step`.
    #[inline]
    pub fn runner(&self, project: &Project, slot: u64) -> Runner
        requires { IsReady project.now slot self.now }
        ensures { IsRunner project.now slot result self.now }
    {
        let which = self.threads.place(slot);
        match self.threads.thread(which) {
            Some(thread) => Runner {
                which,
                target: thread.target(),
                here: thread.of(),
                serial: thread.serial(),
            },
            None => unreachable!(),
        }
    }

    /// The block of the top level of a runner, if there is one, and the warp flag of that level; that of no levels is false.
    #[inline(always)]
    pub fn head(&self, runner: &Runner) -> (Option<BlockId>, bool)
        ensures block { result.0 ≡ top_block (levels_of (at_place runner.now.which self.now.threads)) }
        ensures warp { result.1 ≡ warp_flag (levels_of (at_place runner.now.which self.now.threads)) }
    {
        thread_moves::head(&self.threads, runner.which)
    }

    // The block of the top level of a runner.
    #[inline]
    pub(crate) fn block_of(&self, runner: &Runner) -> Option<BlockId>
        ensures { result ≡ top_block (levels_of (at_place runner.now.which self.now.threads)) }
    {
        match self.threads.top(runner.which) {
            Some(top) => top.block,
            None => None,
        }
    }
}
