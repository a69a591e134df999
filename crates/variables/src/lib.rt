//! The variables and lists of a run by instance, and its monitors.
#![tactic(auto)]

mod first;
mod items;
mod monitors;
mod parts;
mod state;
mod store;

pub use machine_spec::{Made, MadeList, Shown, Store, Stores};
pub use parts::VariableParts;
pub use state::{Truths, Variables};
