//! Texts in quotes, as the lines of a frame and of a report have them.
#![tactic(auto)]

mod quotes;

pub use quotes::{push_inner, push_quoted};
