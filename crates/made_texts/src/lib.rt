//! A project of any size and a script for it, which the player makes itself: the same bytes for the same numbers.
#![tactic(auto)]

mod laws;
mod pieces;
mod project;
mod script;

pub use laws::blocks_are_counted;
pub use project::project_text;
pub use script::script_text;
