//! What is done to the instances and the devices of a run together: updates of bubbles, and the questions that are shown
//! as bubbles.
#![tactic(auto)]

mod bubbles;
mod questions;

pub use bubbles::{empty_bubble, update_bubble};
pub use questions::{drop_questions, first_taken, show_first_question};
