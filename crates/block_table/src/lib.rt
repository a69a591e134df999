//! Reads the blocks of a target into a table, in which a block is found by its number, and its number by its id.
//!
//! Reading is in two steps. `read_table` tests the shapes and resolves links. `FileTable::bounded` tests that each text
//! that a run can use as a value is short enough, so that all shapes of a file can be tested before. `build` is the two
//! in one.
#![tactic(auto)]

mod by_name;
mod field_list;
mod file_block;
mod ids;
mod input_list;
mod objects;
mod primitives;
mod reader;
mod refusal;
mod roles;
mod salt;
mod table;
mod text_lengths;

pub use by_name::named;
pub use machine_spec::BlockId;
pub use project_spec::{Block, Blocks, Code, Fields, Input, Inputs, Link, Mutation};
pub use reader::build;
pub use refusal::BlockRefusal;
pub use roles::{has_role, is_branch, is_hat, is_head};
pub use table::{BlockTable, FileTable, read_table};
