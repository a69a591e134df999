//! The command `report`: says in plain words what a Scratch 3 project has, or why and where it is refused, and what to change.
//! specs/Promise.antt says what is promised.
#![tactic(auto)]

mod advice;
mod block_names;
mod counts;
mod judgement;
mod pieces;
mod places;
mod project_counts;
mod status;
mod text;
mod top;
mod unknown;

pub use status::{Status, exit_number, told};
pub use top::report;
