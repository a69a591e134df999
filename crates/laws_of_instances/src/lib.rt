//! The reference machine keeps its instances legal: laws over its definitions. There is no code here.
#![tactic(auto)]

mod laws;

pub use laws::{a_line_keeps_instances_legal, the_first_world_has_legal_instances};
