//! The devices of a run: the clock and the timer, the keys, the mouse, questions and bubble timers.
#![tactic(auto)]

mod keys;
mod parts;
mod questions;
mod state;
mod timers;

pub use machine_spec::{BubbleTimer, BubbleTimers, Key, Keys, Question, Questions};
pub use parts::DeviceParts;
pub use state::Devices;
pub use timers::seconds;
