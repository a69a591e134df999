//! What blocks make of values alone: texts, comparisons, functions of a number and random numbers (scratch-vm,
//! blocks/scratch3_operators.js).
#![tactic(auto)]

mod equality;
mod functions;
mod list_contents;
mod random_numbers;
mod texts;
mod value_texts;

pub use equality::{is_among, is_equal, place_of};
pub use functions::mathop;
pub use list_contents::contents;
pub use random_numbers::{next_word, pick_random};
pub use texts::{char_count, empty_text, has_text, joined, letter};
pub use value_texts::Written;
