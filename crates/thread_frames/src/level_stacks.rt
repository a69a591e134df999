//! The stack of the levels of one thread in the pool of all: a branch is opened over the top one, and levels are given up.

ghost use Rattle.std.specs.Prelude.{◌≡◌, ◌≤◌, ◌<◌, ◌+◌, ◌-◌, ◌^◌, true, slice_get, option_map};
ghost use Rattle.machine_spec.specs.Keeping.{is_called};
ghost use Rattle.shared_stacks.specs.Chains.{IsIn, Moves, capacity, used, values};
ghost use Rattle.thread_frames.specs.Levels.{mark_of, on_top, top_context, unwound, warp_flag, with_branch, with_context, with_loop, without_top};

use crate::level::Level;
use machine_spec::{BlockId, Context};
use shared_stacks::{Pool, Stack};
use std::mem;

// Whether the block of the top level has called.
#[inline]
fn has_called(pool: &Pool<Level>, stack: Stack) -> bool
    requires { IsIn pool.now stack }
    ensures { result ≡ is_called (top_context (values pool.now stack)) }
{
    match pool.top(stack) {
        Some(top) => top.has_called(),
        None => false,
    }
}

// Whether the block of the top level keeps nothing, and has not called; so it is of no levels.
#[inline(always)]
fn is_plain(pool: &Pool<Level>, stack: Stack) -> bool
    requires { IsIn pool.now stack }
{
    match pool.top(stack) {
        Some(top) => top.is_plain(),
        None => true,
    }
}

// Gives up the top level, whose block keeps something or has called.
#[inline(never)]
fn give_up_kept(pool: &mut Pool<Level>, stack: &mut Stack)
    requires { IsIn pool.old stack.old }
    ensures values { values pool.new stack.new ≡ without_top (values pool.old stack.old) }
    ensures depth { stack.new.depth ≡ stack.old.depth - 1 }
    ensures moved { Moves pool.old pool.new stack.old stack.new }
{
    let _top = pool.pop(stack);
}

// Gives up the top level. Most keep nothing that would have to be dropped.
#[inline(always)]
pub(crate) fn give_up(pool: &mut Pool<Level>, stack: &mut Stack)
    requires { IsIn pool.old stack.old }
    ensures values { values pool.new stack.new ≡ without_top (values pool.old stack.old) }
    ensures depth { stack.new.depth ≡ stack.old.depth - 1 }
    ensures moved { Moves pool.old pool.new stack.old stack.new }
{
    if is_plain(pool, *stack) {
        mem::forget(pool.pop(stack));
    } else {
        give_up_kept(pool, stack);
    }
}

// Sets the loop mark and the context of the top level, where there is one, and tells its warp flag; that of no levels is false.
#[inline(always)]
fn keep(pool: &mut Pool<Level>, stack: Stack, is_loop: bool, context: Context) -> bool
    requires { IsIn pool.old stack }
    ensures values { values pool.new stack ≡ on_top (with_context context) (on_top (with_loop is_loop) (values pool.old stack)) }
    ensures moved { Moves pool.old pool.new stack stack }
    ensures warp { result ≡ warp_flag (values pool.old stack) }
{
    if stack.depth() == 0 {
        return false;
    }
    let top = pool.top_mut(stack);
    top.keep(is_loop, context);
    top.warp
}

// Opens a branch over the block of the top level, which keeps a loop mark and a context.
#[inline(always)]
pub(crate) fn open_branch(
    pool: &mut Pool<Level>,
    stack: &mut Stack,
    is_loop: bool,
    context: Context,
    first: Option<BlockId>,
)
    requires there { IsIn pool.old stack.old }
    requires room { used pool.old < capacity pool.old }
    requires countable { stack.old.depth + 1 < 2 ^ 64 }
    ensures values { values pool.new stack.new ≡ with_branch first is_loop context (values pool.old stack.old) }
    ensures depth { stack.new.depth ≡ stack.old.depth + 1 }
    ensures moved { Moves pool.old pool.new stack.old stack.new }
{
    let warp = keep(pool, *stack, is_loop, context);
    pool.push(stack, Level::new(first, warp));
}

// The loop mark and the block of the top level; None exactly where there is none.
#[inline(always)]
pub(crate) fn top_mark(pool: &Pool<Level>, stack: Stack) -> Option<(bool, Option<BlockId>)>
    requires { IsIn pool.now stack }
    ensures { result ≡ option_map mark_of (slice_get (values pool.now stack) 0) }
{
    match pool.top(stack) {
        Some(top) => Some((top.is_loop, top.block)),
        None => None,
    }
}

// Gives up the top level, and then all down to one that has called.
pub(crate) fn unwind(pool: &mut Pool<Level>, stack: &mut Stack)
    requires { IsIn pool.old stack.old }
    ensures values { values pool.new stack.new ≡ unwound (values pool.old stack.old) }
    ensures fewer { stack.new.depth ≤ stack.old.depth }
    ensures moved { Moves pool.old pool.new stack.old stack.new }
{
    let _top = pool.pop(stack);
    while stack.depth() > 0 {
        if has_called(pool, *stack) {
            return;
        }
        let _top = pool.pop(stack);
    }
}
