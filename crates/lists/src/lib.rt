//! Lists whose contracts speak of their items alone.
#![tactic(auto)]

mod list_of;

pub use list_of::ListOf;
