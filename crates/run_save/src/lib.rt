//! Runs saved and loaded (docs/formats.md, section 5): a run has its text; bytes are the saved run of a project, and then the
//! run goes on from it, or they are refused by the first rule that they break. How a call of a player ends stands here too,
//! since the programs above have it in common.
#![tactic(auto)]

mod loader;
mod saver;
mod spelling;
mod status;
mod threads;
mod told_run;

pub use loader::load;
pub use saved_text::SaveStop;
pub use saver::save;
pub use status::{Detail, Limit, Status, Which, exit_number, status_text, told};
