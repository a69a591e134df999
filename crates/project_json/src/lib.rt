//! Reads JSON texts (RFC 8259) into documents, and looks their parts up.
#![tactic(auto)]

mod json;
mod laws;
mod member_list;
mod numbers;
mod parts;
mod pieces;
mod reader;
mod refusal;
mod scanner;
mod stop;
mod string_texts;
mod strings;
mod text;

pub use json::{Items, Json, Member, Members};
pub use laws::{
    each_text_has_its_tree, later_value_is_found, no_more_than_bytes, one_fault, one_tree,
    text_has_no_fault, text_or_fault,
};
pub use parts::{digits_of, is_null, items_of, member, members_of, text_of, truth_of, value_named};
pub use reader::read;
pub use refusal::JsonRefusal;
pub use text::{Decimal, Text, Texts};
