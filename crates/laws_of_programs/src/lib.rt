//! What the program of each accepted project file has: laws over definitions. There is no code here.
#![tactic(auto)]

mod records;
mod scripts;

pub use records::{numbers_of_a_project_are_within_the_limit, targets_of_a_project_are_well};
pub use scripts::{
    blocks_of_a_project_are_in_order, each_block_begins_one_script, scripts_of_a_project_are_legal,
};
