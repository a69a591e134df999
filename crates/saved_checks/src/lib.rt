//! The rules on the parts of a saved run (docs/formats.md, section 5), tested on what its text tells.
#![tactic(auto)]

mod checking;
mod device_rules;
mod distinct;
mod given_numbers;
mod groups;
mod hat_blocks;
mod keys;
mod lengths;
mod levels;
mod live_targets;
mod monitors;
mod originals;
mod placement;
mod project_parts;
mod ranges;
mod referents;
mod rule_order;
mod thread_places;

pub use checking::broken_rule;
