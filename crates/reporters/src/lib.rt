//! What reporters give of their arguments, where their inputs are evaluated (scratch-vm, blocks/scratch3_operators.js,
//! scratch3_data.js, scratch3_motion.js, scratch3_looks.js, scratch3_sound.js, scratch3_sensing.js,
//! scratch3_procedures.js).
#![tactic(auto)]

mod instances;
mod keys;
mod list_items;
mod properties;
mod reporter_rows;
mod rows;
mod sight;

pub use reporter_rows::reported;
pub use sight::{Sight, contents, variable};
