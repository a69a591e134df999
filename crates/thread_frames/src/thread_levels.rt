//! What is done with the levels of a thread.

ghost use Rattle.std.specs.Prelude.{◌≡◌, ◌<◌, ◌∷◌, length, nat_lt, slice_get, option_map, OnOk, OnErr, Err, is_ok};
ghost use Rattle.machine_spec.specs.declared.threads.Context.TheVariants.{Fresh};
ghost use Rattle.machine_spec.specs.Outcome.{Goes, with_room, most_levels};
ghost use Rattle.machine_spec.specs.Places.{at_place, on_place};
ghost use Rattle.machine_spec.specs.Starting.{open_levels};
ghost use Rattle.thread_frames.specs.declared.stops.PushStop.TheVariants as push_stop;
ghost use Rattle.thread_frames.specs.Levels.{new_level, at_next, mark_of, with_branch, with_loop, with_context, with_params, on_top, without_top, top_context, unwound};
ghost use Rattle.thread_frames.specs.Threads.{frames, on_levels, levels_of};
ghost use Rattle.thread_frames.specs.Stops.{PushStopIs};

use crate::level::Level;
use crate::level_stacks::{give_up, open_branch, top_mark, unwind};
use crate::stops::PushStop;
use crate::threads::Threads;
use machine_spec::{BlockId, Boxed, Context, MOST_LEVELS, Which};
use scratch_values::Params;
use std::mem;

impl Threads {
    // Puts a level on those of a thread; fewer than 65,536 are open. It takes no memory.
    #[inline(always)]
    pub(crate) fn put(&mut self, which: Which, level: Level)
        requires { open_levels frames self.old < most_levels }
        ensures { self.new ≡ on_place (on_levels (λ ls. level ∷ ls)) which self.old }
    {
        let Some(entry) = self.table.at_mut(which) else {
            return;
        };
        self.pool.push(&mut entry.stack, level);
    }

    /// Opens a level. It takes no memory: Ok exactly where fewer than 65,536 levels are open, else Full, and then nothing is
    /// changed.
    #[inline(always)]
    pub fn push(&mut self, which: Which, block: Option<BlockId>, warp: bool) -> Result<(), PushStop>
        ensures ok { OnOk result (with_room (open_levels frames self.old) (on_place (on_levels (λ ls. new_level block warp ∷ ls)) which self.old) ≡ Goes self.new) }
        ensures stop { PushStopIs result (with_room (open_levels frames self.old) self.old) }
        ensures err { OnErr result (self.new ≡ self.old) }
        ensures room { is_ok result ≡ nat_lt (open_levels frames self.old) most_levels }
        ensures full { OnErr result (result ≡ Err push_stop.Full) }
    {
        if self.pool.used() >= MOST_LEVELS {
            return Err(PushStop::Full);
        }
        self.put(which, Level::new(block, warp));
        Ok(())
    }

    /// Gives up the top level of a thread; true where a level is left.
    #[inline(always)]
    pub fn pop(&mut self, which: Which) -> bool
        ensures popped { self.new ≡ on_place (on_levels without_top) which self.old }
        ensures left { result ≡ nat_lt 1 (length (levels_of (at_place which self.old))) }
    {
        let Some(entry) = self.table.at_mut(which) else {
            return false;
        };
        give_up(&mut self.pool, &mut entry.stack);
        entry.stack.depth() > 0
    }

    /// Gives up the top level of a thread, and tells the loop mark and the block of the one that was under it; None exactly
    /// where no level is left.
    #[inline(always)]
    pub fn uncover(&mut self, which: Which) -> Option<(bool, Option<BlockId>)>
        ensures popped { self.new ≡ on_place (on_levels without_top) which self.old }
        ensures next { result ≡ option_map mark_of (slice_get (without_top (levels_of (at_place which self.old))) 0) }
    {
        let Some(entry) = self.table.at_mut(which) else {
            return None;
        };
        give_up(&mut self.pool, &mut entry.stack);
        top_mark(&self.pool, entry.stack)
    }

    /// Gives up the top level of a thread, and then all down to one that has called; true where there is such a level.
    pub fn stop_this_script(&mut self, which: Which) -> bool
        ensures levels { self.new ≡ on_place (on_levels unwound) which self.old }
        ensures found { result ≡ nat_lt 0 (length (unwound (levels_of (at_place which self.old)))) }
    {
        let Some(entry) = self.table.at_mut(which) else {
            return false;
        };
        unwind(&mut self.pool, &mut entry.stack);
        entry.stack.depth() > 0
    }

    /// The top level of a thread goes to the next block: it loses its loop mark, its context and its parameters.
    #[inline(always)]
    pub fn go_next(&mut self, which: Which, next: Option<BlockId>)
        ensures { self.new ≡ on_place (on_levels (on_top (at_next next))) which self.old }
    {
        let stack = self.table.stack(which);
        if stack.depth() > 0 {
            let top = self.pool.top_mut(stack);
            top.go_next(next);
        }
    }

    /// Sets the loop mark of the top level of a thread.
    #[inline(always)]
    pub fn set_loop(&mut self, which: Which, is_loop: bool)
        ensures { self.new ≡ on_place (on_levels (on_top (with_loop is_loop))) which self.old }
    {
        let stack = self.table.stack(which);
        if stack.depth() > 0 {
            let top = self.pool.top_mut(stack);
            top.set_loop(is_loop);
        }
    }

    /// Opens a branch over the block of the top level of a thread: that level keeps a loop mark and a context, and the new one
    /// has its warp flag. It takes no memory: Ok exactly where fewer than 65,536 levels are open, else Full, and then nothing
    /// is changed.
    #[inline(always)]
    pub fn open_branch(
        &mut self,
        which: Which,
        is_loop: bool,
        context: Context,
        first: Option<BlockId>,
    ) -> Result<(), PushStop>
        ensures ok { OnOk result (with_room (open_levels frames self.old) (on_place (on_levels (with_branch first is_loop context)) which self.old) ≡ Goes self.new) }
        ensures stop { PushStopIs result (with_room (open_levels frames self.old) self.old) }
        ensures err { OnErr result (self.new ≡ self.old) }
        ensures full { OnErr result (result ≡ Err push_stop.Full) }
    {
        if self.pool.used() >= MOST_LEVELS {
            return Err(PushStop::Full);
        }
        let Some(entry) = self.table.at_mut(which) else {
            return Ok(());
        };
        open_branch(&mut self.pool, &mut entry.stack, is_loop, context, first);
        Ok(())
    }

    /// Takes what the block of the top level of a thread keeps, and leaves it Fresh.
    #[inline(always)]
    pub fn take_context(&mut self, which: Which) -> Context
        ensures context { result ≡ top_context (levels_of (at_place which self.old)) }
        ensures left { self.new ≡ on_place (on_levels (on_top (with_context Fresh))) which self.old }
    {
        let stack = self.table.stack(which);
        if stack.depth() == 0 {
            return Context::Fresh;
        }
        let top = self.pool.top_mut(stack);
        top.take_context()
    }

    /// Sets what the block of the top level of a thread keeps.
    #[inline(always)]
    pub fn set_context(&mut self, which: Which, context: Context)
        ensures { self.new ≡ on_place (on_levels (on_top (with_context context))) which self.old }
    {
        let stack = self.table.stack(which);
        if stack.depth() > 0 {
            let top = self.pool.top_mut(stack);
            top.set_context(context);
        }
    }

    /// Sets the parameters of the top level of a thread.
    #[inline(always)]
    pub fn set_params(&mut self, which: Which, params: Boxed<Params>)
        ensures { self.new ≡ on_place (on_levels (on_top (with_params params))) which self.old }
    {
        let stack = self.table.stack(which);
        if stack.depth() > 0 {
            let top = self.pool.top_mut(stack);
            top.set_params(params);
        }
    }
}
