//! A pool of slots in which many stacks stand.

ghost use Rattle.std.specs.Prelude.{◌≡◌, ◌+◌, ◌-◌, ◌<◌, ◌≤◌, ◌^◌, ◌∷◌, [], IfOk, Some, slice_get};
ghost use Rattle.std.specs.Borrow.{sem};
ghost use Rattle.std.specs.Option.{option_copied};
ghost use Rattle.shared_stacks.specs.Chains.{IsIn, Moves, capacity, used, values, without_top};
ghost use Rattle.shared_stacks.specs.Lending.{LendsTop};

use crate::slot::Slot;
use crate::stack::Stack;
use slab::Slab;
use std::alloc::{AllocError, Global};

/// A pool of slots in which many stacks stand. What is said of one stack asks that it is a stack of the pool (`IsIn`), and
/// what changes one tells what every other stack of the pool needs to stay as it is (`Moves`).
#[derive(Debug, Drop)]
pub struct Pool<T> {
    slab: Slab<Slot<T>>,
}

impl<T: Drop> Pool<T> {
    /// A pool of no values, with room for so many. The only error is want of memory.
    pub fn new(alloc: Global, most: usize) -> Result<Pool<T>, AllocError>
        ensures none { IfOk result (λ p. p.slab.slots ≡ []) }
        ensures room { IfOk result (λ p. most ≤ capacity p) }
    {
        Ok(Pool {
            slab: Slab::with_capacity(alloc, most)?,
        })
    }

    /// How many slots are used: as many as all stacks have values.
    #[inline(always)]
    pub fn used(&self) -> usize
        ensures { result ≡ used self.now }
    {
        self.slab.len()
    }

    /// Puts a value on a stack, for which there is room. It takes no memory.
    #[inline(always)]
    pub fn push(&mut self, stack: &mut Stack, value: T)
        requires there { IsIn self.old stack.old }
        requires room { used self.old < capacity self.old }
        requires countable { stack.old.depth + 1 < 2 ^ 64 }
        ensures values { values self.new stack.new ≡ value ∷ values self.old stack.old }
        ensures depth { stack.new.depth ≡ stack.old.depth + 1 }
        ensures moved { Moves self.old self.new stack.old stack.new }
    {
        let under = stack.top;
        stack.top = self.slab.insert_reserved(Slot { value, under });
        stack.depth += 1;
    }

    /// Takes the top value off a stack, and frees its slot; None exactly where the stack has no value.
    #[inline(always)]
    pub fn pop(&mut self, stack: &mut Stack) -> Option<T>
        requires { IsIn self.old stack.old }
        ensures value { result ≡ slice_get (values self.old stack.old) 0 }
        ensures values { values self.new stack.new ≡ without_top (values self.old stack.old) }
        ensures depth { stack.new.depth ≡ stack.old.depth - 1 }
        ensures moved { Moves self.old self.new stack.old stack.new }
    {
        if stack.depth == 0 {
            return None;
        }
        let Slot { value, under } = self.slab.remove(stack.top);
        stack.top = under;
        stack.depth -= 1;
        Some(value)
    }

    /// The top value of a stack; None exactly where it has no value.
    #[inline(always)]
    pub fn top(&self, stack: Stack) -> Option<&T>
        requires { IsIn self.now stack }
        ensures { option_copied result ≡ slice_get (values self.now stack) 0 }
    {
        if stack.depth == 0 {
            return None;
        }
        Some(&self.slab[stack.top].value)
    }

    /// The top value of a stack, to be changed; there is one.
    #[inline(always)]
    pub fn top_mut(&mut self, stack: Stack) -> &mut T
        requires there { IsIn self.old stack }
        requires some { 0 < stack.depth }
        ensures* lends { sem 𝓛 (LendsTop T.row self.entry stack result) }
        ensures value { slice_get (values self.old stack) 0 ≡ Some result.now }
    {
        self.slab[stack.top].value_mut()
    }

    /// The stack without its top value, to be read while the pool stands as it is: it follows one link, and changes nothing.
    #[inline(always)]
    pub fn under(&self, stack: Stack) -> Stack
        requires { IsIn self.now stack }
        ensures there { IsIn self.now result }
        ensures values { values self.now result ≡ without_top (values self.now stack) }
        ensures depth { result.depth ≡ stack.depth - 1 }
    {
        if stack.depth == 0 {
            return stack;
        }
        Stack {
            top: self.slab[stack.top].under,
            depth: stack.depth - 1,
        }
    }

    /// A value of a stack, counted from the top, which is 0; None exactly where there is none. It follows so many links.
    pub fn get(&self, stack: Stack, from_top: usize) -> Option<&T>
        requires { IsIn self.now stack }
        ensures { option_copied result ≡ slice_get (values self.now stack) from_top }
    {
        if from_top >= stack.depth {
            return None;
        }
        let mut rest = stack;
        for step in 0..from_top {
            rest = self.under(rest);
        }
        self.top(rest)
    }

    /// Takes all values off a stack, and frees their slots.
    pub fn clear(&mut self, stack: &mut Stack)
        requires { IsIn self.old stack.old }
        ensures values { values self.new stack.new ≡ [] }
        ensures depth { stack.new.depth ≡ 0 }
        ensures moved { Moves self.old self.new stack.old stack.new }
    {
        while stack.depth > 0 {
            let _value = self.pop(stack);
        }
    }

    /// Frees all slots: every stack of the pool is none any more. The room stays.
    pub fn clear_all(&mut self)
        ensures none { self.new.slab.slots ≡ [] }
        ensures room { capacity self.new ≡ capacity self.old }
    {
        self.slab.clear();
    }
}
