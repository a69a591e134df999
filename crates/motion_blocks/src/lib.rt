//! The blocks of motion: steps, turns, places, directions and glides (scratch-vm, blocks/scratch3_motion.js).
#![tactic(auto)]

mod block_rows;
mod destinations;
mod glide_steps;
mod headings;
mod instance;
mod places;
mod steps;
mod turns;

pub use block_rows::{apply, apply_step, is_step};
