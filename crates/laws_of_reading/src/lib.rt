//! A run that can be told is read back as it was: laws over definitions. There is no code here.
#![tactic(auto)]

mod laws;

pub use laws::{
    a_run_that_can_be_told_has_its_shape, a_saved_run_is_of_the_known_version,
    the_text_of_a_run_reads_back,
};
