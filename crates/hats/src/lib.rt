//! Which hats a filter starts, their threads, started in turn, and the edge hats of a frame (scratch-vm, engine/runtime.js,
//! startHats, _pushThread and _restartThread).
#![tactic(auto)]

mod asked;
mod edge_hats;
mod edge_start;
mod filters;
mod hat_rounds;
mod hat_threads;
mod laws;

pub use edge_hats::{EdgeHat, EdgeList, edges};
pub use edge_start::fire;
pub use hat_rounds::start;
pub use laws::{an_index_gives_the_hats_that_start, every_hat_is_a_head};
