//! What executions need of the blocks of a target, found once at load: what each input holds, in document order, with
//! menus as their texts; the fields with the variables and lists that they name; where the links lead.
#![tactic(auto)]

mod block;
mod cache;
mod fields;
mod inputs;
mod laws;
mod links;

pub use block::{CachedBlock, CachedBlocks, CachedFields, CachedInputs};
pub use cache::cache_blocks;
pub use fields::ref_in;
pub use laws::{a_script_is_told, an_expression_is_told, links_fall};
pub use links::{first_of, linked};
