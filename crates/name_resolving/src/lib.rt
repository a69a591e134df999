//! Which variable or list each field and input of the blocks of checked scripts names, and what is added to the records
//! of the targets where nothing has that name (scratch-vm, engine/target.js, lookupOrCreateVariable and lookupOrCreateList).
#![tactic(auto)]

mod block;
mod directory;
mod field_names;
mod first_places;
mod index;
mod lookup;
mod resolution;
mod scope;
mod sort;
mod target;

pub use resolution::{ResolvedNames, resolve};
