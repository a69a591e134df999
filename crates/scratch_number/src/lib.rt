//! The numbers of the profile: fixed-point numbers in whole millionths with two infinities and
//! not-a-number. Each operation is defined for all arguments; none takes memory and none fails.
#![tactic(auto)]

mod angles;
mod arithmetic;
mod number;
mod number_text;
mod numerals;
mod whole;

pub use angles::{acos, asin, atan, atan2, cos, sin, sqrt, tan};
pub use arithmetic::{add, div, modulo, mul, sub};
pub use number::{Num, Raw, is_less, of_millionths, of_whole, order};
pub use number_text::{NumText, write_text};
pub use numerals::of_text;
pub use whole::{abs, ceiling, floor, round};
