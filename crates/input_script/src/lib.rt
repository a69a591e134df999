//! The reader of an input script: what each of its lines says, or why it is refused (docs/formats.md).
#![tactic(auto)]

mod cuts;
mod line_reader;
mod numbers;
mod ranges;
mod script;
mod words;

pub use machine_spec::{Budget, Key, Line, LineRefusal};
pub use numbers::is_whole;
pub use script::Script;
