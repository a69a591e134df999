//! The opcodes of blocks: their names, what a block of each has, and what each does with its thread.
#![tactic(auto)]

mod classes;
mod groups;
mod hats;
mod kinds;
mod laws;
mod names;
mod opcode;
mod parts;
mod shape;

pub use classes::{group, hat_kind, kind};
pub use groups::Group;
pub use hats::HatKind;
pub use kinds::Kind;
pub use laws::{
    each_name_is_found, every_hat_is_of_a_kind, found_by_its_name, groups_are_of_commands,
    kinds_are_of_commands, names_are_distinct,
};
pub use names::{name, of_name};
pub use opcode::Opcode;
pub use parts::spec;
pub use shape::{InputSpec, Role, Spec};
