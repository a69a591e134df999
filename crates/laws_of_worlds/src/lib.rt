//! The worlds of a run are legal: laws over definitions. There is no code here.
#![tactic(auto)]

mod laws;

pub use laws::{every_line_keeps_it_legal, the_first_world_is_legal, the_last_world_is_legal};
