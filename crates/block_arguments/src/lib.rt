//! What the inputs and fields of a block give to its row. Where there is no such input or field, the row has its default.
#![tactic(auto)]

mod fields;
mod inputs;

pub use fields::{Place, field, held_at, named};
pub use inputs::{from_zero, given, number, text, truth, value};
