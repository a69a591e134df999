//! One level of a thread.

use machine_spec::{BlockId, Boxed, Context};
use scratch_values::Params;
use std::mem;

/// A level of a thread: the block that it holds, if any, its loop mark, its warp flag, what its block keeps, and the
/// parameters with which its block called (scratch-vm, engine/thread.js, a stack frame and its block).
#[derive(Debug, Drop)]
pub struct Level {
    pub block: Option<BlockId>,
    pub is_loop: bool,
    pub warp: bool,
    pub context: Context,
    pub params: Option<Boxed<Params>>,
}

// Gives up what a block kept.
#[inline(never)]
fn give_up_context(_context: Context) {}

impl Level {
    ghost use Rattle.std.specs.Prelude.{◌≡◌};
    ghost use Rattle.machine_spec.specs.declared.threads.Context.TheVariants.{Fresh};
    ghost use Rattle.machine_spec.specs.Keeping.{is_called};
    ghost use Rattle.thread_frames.specs.Levels.{is_plain, new_level, at_next, with_loop, with_context, with_params};

    // A level that was just opened.
    #[inline]
    pub(crate) fn new(block: Option<BlockId>, warp: bool) -> Level
        ensures { result ≡ new_level block warp }
    {
        Level {
            block,
            is_loop: false,
            warp,
            context: Context::Fresh,
            params: None,
        }
    }

    // Whether the block keeps nothing, and has not called.
    #[inline(always)]
    pub(crate) fn is_plain(&self) -> bool
        ensures { result ≡ is_plain self.now }
    {
        matches!(self.context, Context::Fresh) && self.params.is_none()
    }

    // The level goes to the next block.
    #[inline(always)]
    pub(crate) fn go_next(&mut self, next: Option<BlockId>)
        ensures { self.new ≡ at_next next self.old }
    {
        if self.is_plain() {
            self.block = next;
            self.is_loop = false;
        } else {
            self.go_next_kept(next);
        }
    }

    // The level goes to the next block, and gives up what its block kept.
    #[inline(never)]
    fn go_next_kept(&mut self, next: Option<BlockId>)
        ensures { self.new ≡ at_next next self.old }
    {
        self.block = next;
        self.is_loop = false;
        self.context = Context::Fresh;
        self.params = None;
    }

    // Sets the loop mark, and what the block keeps.
    #[inline(always)]
    pub(crate) fn keep(&mut self, is_loop: bool, context: Context)
        ensures { self.new ≡ with_context context (with_loop is_loop self.old) }
    {
        self.is_loop = is_loop;
        self.set_context(context);
    }

    // Sets the loop mark.
    #[inline]
    pub(crate) fn set_loop(&mut self, is_loop: bool)
        ensures { self.new ≡ with_loop is_loop self.old }
    {
        self.is_loop = is_loop;
    }

    // Sets what the block keeps.
    #[inline(always)]
    pub(crate) fn set_context(&mut self, context: Context)
        ensures { self.new ≡ with_context context self.old }
    {
        let old = mem::replace(&mut self.context, context);
        if matches!(old, Context::Fresh) {
            mem::forget(old);
        } else {
            give_up_context(old);
        }
    }

    // Takes what the block keeps, and leaves it Fresh.
    #[inline]
    pub(crate) fn take_context(&mut self) -> Context
        ensures context { result ≡ self.old.context }
        ensures level { self.new ≡ with_context Fresh self.old }
    {
        mem::replace(&mut self.context, Context::Fresh)
    }

    // Whether the block has called.
    #[inline]
    pub(crate) fn has_called(&self) -> bool
        ensures { result ≡ is_called self.now.context }
    {
        matches!(self.context, Context::Called)
    }

    // Sets the parameters.
    #[inline]
    pub(crate) fn set_params(&mut self, params: Boxed<Params>)
        ensures { self.new ≡ with_params params self.old }
    {
        self.params = Some(params);
    }
}
