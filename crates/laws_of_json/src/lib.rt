//! Laws of the compact JSON text of a value (RFC 8259), each the contract of a function with an empty body.
#![tactic(auto)]

mod laws;

pub use laws::{a_compact_text_is_utf8, a_compact_text_reads_back};
