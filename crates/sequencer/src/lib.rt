//! Runs of a project: a line of an input script at a time (scratch-vm, engine/runtime.js and io). `run` has the type; `lines`
//! what each line does that is no frame, with `flags` for the green flag and the stop sign, `keys`, and `clicks`. The loop
//! that scratch-vm calls its sequencer stands in the crate `frames`.
#![tactic(auto)]

mod clicks;
mod flags;
mod keys;
mod lines;
mod run;

pub use lines::apply_line;
pub use run::Run;
