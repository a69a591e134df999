//! A script played on a run, line by line: each frame's text is written by one write, and a limit that a line reaches has its
//! line written in the place of one. The programs that play scripts stand over this loop.
#![tactic(auto)]

mod limits;
mod lines;
mod scripts;
mod stops;

pub use limits::{tell_limit, write};
pub use lines::play_line;
pub use scripts::play_lines;
pub use stops::PlayStop;
