//! A run as a text tells it.

use crate::instances::ToldInstances;
use crate::threads::ToldThreads;
use lists::ListOf;
use machine_spec::BubbleTimers;
use project_json::Text;

/// Names of keys, which may be no keys.
pub type ToldKeys = ListOf<Text>;

/// Whether each monitor is visible.
pub type ToldTruths = ListOf<bool>;

/// Bubble timers in the order of making.
pub type ToldTimers = BubbleTimers;

/// A monitor that a block added: of a list or of a variable, with the places of the target and of the list or variable there.
#[derive(Clone, Copy, Debug)]
pub struct ToldMade {
    pub is_list: bool,
    pub target: u64,
    pub index: u64,
    pub visible: bool,
}

/// Monitors in the order of adding.
pub type ToldMadeList = ListOf<ToldMade>;

/// A question: of whom it is, the thread that waits, its text, and whether it is shown as a bubble.
#[derive(Debug, Drop)]
pub struct ToldQuestion {
    pub of: u64,
    pub thread: u64,
    pub text: Text,
    pub bubble: bool,
}

/// Questions in the order of asking.
pub type ToldQuestions = ListOf<ToldQuestion>;

/// Where the mouse is, and whether its button is down.
#[derive(Clone, Copy, Debug)]
pub struct ToldMouse {
    pub x: i64,
    pub y: i64,
    pub down: bool,
}

/// The numbers that are given next.
#[derive(Clone, Copy, Debug)]
pub struct ToldNext {
    pub thread: u64,
    pub instance: u64,
    pub usage: u64,
}

/// A run: the members of the text, but for its version. `project` has 64 lower-case hexadecimal digits.
#[derive(Debug, Drop)]
pub struct ToldRun {
    pub answer: Text,
    pub clock: u64,
    pub drawn: u64,
    pub frame: u64,
    pub seed: u64,
    pub timer: u64,
    pub instances: ToldInstances,
    pub keys: ToldKeys,
    pub made: ToldMadeList,
    pub monitors: ToldTruths,
    pub mouse: ToldMouse,
    pub next: ToldNext,
    pub project: Text,
    pub questions: ToldQuestions,
    pub threads: ToldThreads,
    pub timers: ToldTimers,
    pub turbo: bool,
}
