//! Reads what procedures' prototypes and calls say of them, in the `mutation` of their blocks (after scratch-vm,
//! serialization/sb3.js). The lists of a prototype stand there as JSON texts, which are read as documents of their own.
//!
//! A prototype's defaults may be longer than the values of a run: who uses them tests their length.
#![tactic(auto)]

mod defaults;
mod parts;
mod prototype;
mod reader;

pub use project_spec::MutationRefusal;
pub use prototype::{FilePrototype, FileValues};
pub use reader::{read_call, read_prototype};
