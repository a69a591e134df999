//! Which project files are accepted, why the others are refused, and the projects that they tell: records, blocks that
//! are well linked, and what each block names.
#![tactic(auto)]

mod file;
mod hats;
mod heads;
mod laws;
mod loader;
mod procedures;
mod project;
mod sizes;

pub use hat_index::{HatIndex, Start, Starts};
pub use heads::Heads;
pub use laws::{every_project_is_linked, every_project_is_of_an_accepted_file};
pub use loader::load;
pub use procedures::Callee;
pub use project::Project;
pub use project_spec::{At, Refusal};
