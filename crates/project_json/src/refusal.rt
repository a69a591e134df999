//! Why bytes are refused.

ghost use Rattle.std.specs.Prelude.{Some};
ghost use Rattle.project_json.specs.Told.{message};

use std::error::Error;
use std::fmt;

/// Why bytes are not read. A place `at` is the number of bytes that stand before it.
#[derive(Clone, Copy, Debug, PartialEq, Eq)]
pub enum JsonRefusal {
    /// The bytes are no UTF-8 (RFC 3629). The first ill-formed sequence starts at `at`.
    NotUtf8 { at: usize },
    /// The bytes are no JSON text (RFC 8259). The longest prefix that begins one has `at` bytes.
    Syntax { at: usize },
    /// The bracket or brace at `at` opens a nesting of 257.
    TooDeep { at: usize },
    /// Memory ran out.
    NoMemory,
}

impl fmt::Display for JsonRefusal {
    ghost output = { λ refusal. Some (message refusal) };

    fn fmt<W: fmt::Write>(&self, f: &mut fmt::Formatter<W>) -> fmt::Result {
        match self {
            JsonRefusal::NotUtf8 { at } => write!(f, "not UTF-8 at byte {at}"),
            JsonRefusal::Syntax { at } => write!(f, "no JSON text goes on so at byte {at}"),
            JsonRefusal::TooDeep { at } => write!(f, "nested deeper than 256 at byte {at}"),
            JsonRefusal::NoMemory => write!(f, "out of memory"),
        }
    }
}

impl Error for JsonRefusal {}
