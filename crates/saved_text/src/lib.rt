//! The text of a saved run (docs/formats.md, section 5), written without a copy of the run: each part sends its value to a
//! writer of JSON.
#![tactic(auto)]

mod contexts;
mod ids;
mod instances;
mod keys;
mod laws;
mod levels;
mod monitors;
mod rows;
mod run;
mod saver;
mod values;
mod waits;

pub use laws::{a_saved_run_is_its_world, what_is_left_is_in_range};
pub use run::SavedRun;
pub use saver::{SAVED_LIMIT, SaveStop, save, text_of};
