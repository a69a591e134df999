//! The levels of a thread that a saved run tells (docs/formats.md, section 5), made for the player; a thread that breaks a
//! rule on what it has still to do has none.
#![tactic(auto)]

mod calls;
mod chains;
mod floors;
mod kept_contexts;
mod level_parts;
mod parameter_names;
mod reader;
mod stacks;
mod waiting_threads;

pub use reader::levels_of;
pub use waiting_threads::Waiting;
