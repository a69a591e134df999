//! What the controls of executions do with one thread in its place: its levels stand where the thread's pending list stands
//! (scratch-vm, engine/thread.js and engine/sequencer.js, stepToBranch, stepToProcedure).
#![tactic(auto)]

mod empty_levels;
mod level_moves;
mod links;
mod procedure_calls;
mod resumption;

pub use level_moves::{enter, go_on, head, stay, stop_this_script};
pub use procedure_calls::call;
pub use resumption::resume;
