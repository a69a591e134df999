//! The blocks of control, events and procedures, and the commands of sensing (scratch-vm, blocks/scratch3_control.js,
//! scratch3_event.js, scratch3_procedures.js, scratch3_sensing.js).
#![tactic(auto)]

mod block_rows;
mod clones;
mod loops;
mod messages;
mod procedures;
mod questions;
mod waits;

pub use block_rows::apply;
