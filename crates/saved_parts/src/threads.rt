//! Threads as a text tells them.

use crate::values::ToldValue;
use lists::ListOf;
use machine_spec::{Count, GlideState, Status, WaitState};
use project_json::Text;

/// The numbers of the threads that a block waits for.
pub type ToldSerials = ListOf<u64>;

/// The name and the value of a parameter of a call.
#[derive(Debug, Drop)]
pub struct ToldParam {
    pub name: Text,
    pub value: ToldValue,
}

/// The parameters of a call.
pub type ToldParams = ListOf<ToldParam>;

/// What the block of a level keeps.
#[derive(Debug, Drop)]
pub enum ToldKept {
    /// It was not executed, or it is a choice with an open branch.
    Nothing,
    /// It is a loop that has no number of turns.
    Loop,
    /// The turns that are left.
    Repeat(Count),
    /// When the wait began, and how long it lasts.
    Wait(WaitState),
    /// When the glide began, how long it lasts, and its two ends.
    Glide(GlideState),
    /// The threads that it started and waits for.
    Started(ToldSerials),
    /// It waits for an answer.
    Asked,
    /// It waits for its bubble's end.
    Spoken,
    /// The parameters with which it called.
    Call(ToldParams),
}

/// A level: the number of its block, if something is left to do, and what that keeps.
#[derive(Debug, Drop)]
pub struct ToldLevel {
    pub block: Option<u64>,
    pub kept: ToldKept,
}

/// Levels from the bottom, as they are written.
pub type ToldLevels = ListOf<ToldLevel>;

/// A thread: its number, instance, hat block and status, and its levels.
#[derive(Debug, Drop)]
pub struct ToldThread {
    pub serial: u64,
    pub of: u64,
    pub hat: u64,
    pub status: Status,
    pub levels: ToldLevels,
}

/// Threads in the order of their list.
pub type ToldThreads = ListOf<ToldThread>;
