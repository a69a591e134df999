//! Keys, questions and bubble timers.

use crate::ids::{InstanceId, Serial};
use lists::ListOf;
use scratch_number::Num;
use scratch_values::BoundText;

/// A key that can be held, an ASCII letter in upper case.
#[derive(Clone, Copy, PartialEq, Eq, Debug)]
pub enum Key {
    Space,
    Enter,
    Left,
    Right,
    Up,
    Down,
    One(char),
}

/// Keys in the order of pressing.
pub type Keys = ListOf<Key>;

/// A question that waits for its answer: who asked, the thread that waits, and whether it is shown as a bubble, not as
/// the prompt.
#[derive(Debug, Drop)]
pub struct Question {
    pub of: InstanceId,
    pub thread: Serial,
    pub text: BoundText,
    pub bubble: bool,
}

/// Questions in the order of asking.
pub type Questions = ListOf<Question>;

/// A bubble that ends at `due`, in seconds: whose it is, the thread that waits, and the number of the bubble's update.
#[derive(Clone, Copy, Debug)]
pub struct BubbleTimer {
    pub due: Num,
    pub of: InstanceId,
    pub thread: Serial,
    pub usage: u64,
}

/// Timers in the order of making.
pub type BubbleTimers = ListOf<BubbleTimer>;
