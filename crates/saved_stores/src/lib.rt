//! The stores of a run made again from the parts that a saved text tells (docs/formats.md, section 5): its instances, its
//! variables, lists and monitors, and its devices. Texts are moved into the stores, and none of a value is copied.
#![tactic(auto)]

mod bubbles;
mod instances;
mod keys;
mod order;
mod questions;
mod shown_monitors;
mod stores;
mod told_parts;
mod values;

pub use stores::{RunStores, stores_of};
pub use told_parts::{ToldDevices, ToldStores};
