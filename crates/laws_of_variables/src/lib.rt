//! The variables of a run: laws over the definitions of the machine. There is no code here.
#![tactic(auto)]

mod laws;

pub use laws::{a_line_keeps_variables_legal, the_first_world_has_legal_variables};
