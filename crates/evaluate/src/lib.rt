//! The values of the inputs of a block: each input once, in document order, depth first, with no short circuit (scratch-vm,
//! engine/execute.js).
#![tactic(auto)]

mod block_links;
mod input_values;
mod operations;
mod sole_input;
mod view;
mod ways;

pub use input_values::inputs;
pub use sole_input::{no_inputs, only_input};
pub use view::View;
