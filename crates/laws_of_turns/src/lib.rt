//! The reference machine keeps its numbers within the limit: laws over its definitions. There is no code here.
#![tactic(auto)]

mod laws;

pub use laws::{a_line_keeps_numbers_within_the_limit, the_first_world_is_within_the_limit};
