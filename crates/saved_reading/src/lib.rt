//! A reader of the value of a saved run (docs/formats.md, section 5): what each part tells, or the path of the first part
//! that has not its shape.
#![tactic(auto)]

mod instances;
mod leaves;
mod parts;
mod run;
mod threads;
mod values;

pub use run::read_run;
