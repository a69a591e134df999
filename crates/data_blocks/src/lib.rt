//! The blocks of data: variables, lists, and their monitors (scratch-vm, blocks/scratch3_data.js).
#![tactic(auto)]

mod block_rows;
mod edits;
mod list_rows;
mod monitor_rows;
mod places;
mod variable_rows;

pub use block_rows::{apply, apply_one};
