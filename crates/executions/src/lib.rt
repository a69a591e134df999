//! One execution of a thread on the whole state of a run (scratch-vm, engine/execute.js and engine/sequencer.js).
//!
//! All work on the one `State` of `state`, which `first_state` makes. `execution` evaluates the inputs of the block at which a
//! `runner` stands and hands it to `enactment`. That asks `choices` where the block leads, if it only chooses; of any other
//! block it applies the row, of `rows`, and gives the row's control to `own_controls`, or, where it acts on others, to
//! `other_controls`, and so to `start_control`, `stop_controls` or `clone_control`. `line_hats` starts hats between frames.
#![tactic(auto)]

mod choices;
mod clone_control;
mod enactment;
mod execution;
mod first_state;
mod line_hats;
mod other_controls;
mod own_controls;
mod rows;
mod runner;
mod start_control;
mod state;
mod stop_controls;

pub use runner::Runner;
pub use state::State;
