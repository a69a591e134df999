//! A script that is played in parts is the whole script: laws over the definitions of the reference machine. There is no code here.
#![tactic(auto)]

mod laws;

pub use laws::{
    a_world_goes_on_as_its_script, lines_go_on_from_the_last_world, lines_of_texts_join,
    numbers_are_told_by_refused_lines_alone, redraw_requests_are_not_told,
    the_clock_is_the_last_reading, the_parts_of_a_script_are_the_whole,
};
