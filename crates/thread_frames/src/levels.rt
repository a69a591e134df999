//! The levels of one thread, to be read.

ghost use Rattle.std.specs.Prelude.{◌≡◌, length, drop, slice_get};
ghost use Rattle.std.specs.Option.{option_copied, option_map};
ghost use Rattle.shared_stacks.specs.Chains.{IsIn, values};
ghost use Rattle.thread_frames.specs.Levels.{without_top, near_params};

use crate::level::Level;
use scratch_values::Params;
use shared_stacks::{Pool, Stack};
use std::marker::Model;

/// The levels of one thread, to be read where they stand. Contracts see the top one first.
#[derive(Drop)]
pub struct Levels<'a> {
    pool: &'a Pool<Level>,
    stack: Stack,
}

impl<'a> Model for Levels<'a> {
    ghost use Rattle.std.specs.Prelude.{List};
    ghost use Rattle.shared_stacks.specs.Chains.{IsIn, values};
    ghost use Rattle.thread_frames.specs.declared.level.Level.{Level};

    ghost Value = { List Level };

    ghost view = { λ l. values l.pool.now l.stack };

    ghost invariant = { λ l. IsIn l.pool.now l.stack };
}

impl<'a> Levels<'a> {
    // Those of a stack of the pool.
    #[inline]
    pub(crate) fn new(pool: &'a Pool<Level>, stack: Stack) -> Levels<'a>
        requires { IsIn pool.now stack }
        ensures { result ≡ values pool.now stack }
    {
        Levels { pool, stack }
    }

    /// How many levels there are.
    #[inline]
    pub fn depth(&self) -> usize
        ensures { result ≡ length self.now }
    {
        self.stack.depth()
    }

    /// The top level; None exactly where there is no level.
    #[inline]
    pub fn top(&self) -> Option<&Level>
        ensures { option_copied result ≡ slice_get self.now 0 }
    {
        self.pool.top(self.stack)
    }

    /// The levels under the top one.
    #[inline]
    pub fn under(&self) -> Levels<'a>
        ensures { result ≡ without_top self.now }
    {
        Levels::new(self.pool, self.pool.under(self.stack))
    }

    /// The parameters of the nearest level, from the top, that has some; None exactly where no level has.
    pub fn params(&self) -> Option<&Params>
        ensures { option_map (λ p. p.now) result ≡ near_params self.now }
    {
        params_in(self.pool, self.stack)
    }

    /// The levels under so many from the top. It goes from each of these to the next.
    pub fn below(&self, count: usize) -> Levels<'a>
        ensures { result ≡ drop count self.now }
    {
        let mut rest = self.stack;
        for step in 0..count {
            rest = self.pool.under(rest);
        }
        Levels::new(self.pool, rest)
    }
}

// The parameters of the nearest level of a stack, from the top, that has some.
pub(crate) fn params_in<'a>(pool: &'a Pool<Level>, stack: Stack) -> Option<&'a Params>
    requires { IsIn pool.now stack }
    ensures { option_map (λ p. p.now) result ≡ near_params (values pool.now stack) }
{
    let mut rest = stack;
    while let Some(level) = pool.top(rest) {
        if let Some(params) = &level.params {
            return Some(params.get());
        }
        rest = pool.under(rest);
    }
    None
}
