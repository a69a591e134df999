//! The reference machine keeps its threads legal: laws over its definitions. There is no code here.
#![tactic(auto)]

mod laws;

pub use laws::{
    a_frame_keeps_a_world_legal, a_line_keeps_a_world_legal, a_slice_keeps_a_world_legal,
    every_control_keeps_what_is_left_legal, the_first_world_is_legal,
};
