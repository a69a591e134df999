//! The instances of a run, originals and clones of the targets of the file, in executable order.
#![tactic(auto)]

mod changes;
mod clones;
mod edges;
mod first;
mod hints;
mod layers;
mod lookup;
mod order;
mod state;

pub use layers::Place;
pub use lookup::{costume_of, target_of};
pub use machine_spec::{
    Bubble, BubbleText, Edges, Effect, Effects, Instance, InstanceId, Say, Style, TargetId,
};
pub use order::Ids;
pub use state::Targets;
