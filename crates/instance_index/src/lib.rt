//! The slots of a list by the instance that each is of: the slots of one instance are visited from the last down, without a look
//! at the others.
#![tactic(auto)]

mod index;

pub use index::InstanceIndex;
