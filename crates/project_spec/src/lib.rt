//! What a project file tells: definitions, in specs/, of its records, its blocks, which projects are well linked, and the
//! program of a project; and the plain types that they share with the code.
#![tactic(auto)]

mod blocks;
mod laws;
mod limits;
mod refusals;
mod values;

pub use blocks::{
    Block, Blocks, Code, Fields, Input, Inputs, Link, Mutation, Operand, Prototype, Resolved,
};
pub use laws::{
    a_file_has_one_answer, a_link_has_one_script, a_link_of_ranked_blocks_has_its_script,
    a_script_unrolls, an_expression_unrolls,
};
pub use limits::{MOST_MONITORS, MOST_TARGETS, PROJECT_LIMIT};
pub use refusals::{At, MutationRefusal, Refusal};
pub use values::{FileValue, num, value};
