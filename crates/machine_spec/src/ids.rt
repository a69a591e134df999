//! Numbers of targets, blocks, instances and threads. Contracts see the number.

use std::marker::Model;

/// The place of a target in the file, from 0.
#[derive(Clone, Copy, PartialEq, Eq, Debug)]
pub struct TargetId(pub u32);

impl Model for TargetId {
    ghost use Rattle.std.specs.Prelude.{ℕ};

    ghost Value = { ℕ };

    ghost view = { λ a. a.0 };

    ghost inverse = { λ n. record { 0 = n } };
}

/// The place of a block in its target's `blocks`, from 0.
#[derive(Clone, Copy, PartialEq, Eq, Debug)]
pub struct BlockId(pub u32);

impl Model for BlockId {
    ghost use Rattle.std.specs.Prelude.{ℕ};

    ghost Value = { ℕ };

    ghost view = { λ a. a.0 };

    ghost inverse = { λ n. record { 0 = n } };
}

/// The number of an original or a clone. An original has the place of its target as its number.
#[derive(Clone, Copy, PartialEq, Eq, Debug)]
pub struct InstanceId(pub u64);

impl Model for InstanceId {
    ghost use Rattle.std.specs.Prelude.{ℕ};

    ghost Value = { ℕ };

    ghost view = { λ a. a.0 };

    ghost inverse = { λ n. record { 0 = n } };
}

/// The number of a thread, given once in a run.
#[derive(Clone, Copy, PartialEq, Eq, Debug)]
pub struct Serial(pub u64);

impl Model for Serial {
    ghost use Rattle.std.specs.Prelude.{ℕ};

    ghost Value = { ℕ };

    ghost view = { λ a. a.0 };

    ghost inverse = { λ n. record { 0 = n } };
}
