//! The commands `play`, `resume`, `check` and `made`: the same bytes for the same files, on every machine.
//! specs/Promise.antt says what is promised.
#![tactic(auto)]

mod command;
mod counts;
mod endings;
mod laws;
mod made;
mod playback;
mod top;
mod whole_numbers;

pub use laws::two_parts_of_a_script_are_the_whole;
pub use run_save::{Detail, Limit, Status, Which, exit_number, status_text, told};
pub use top::play;
