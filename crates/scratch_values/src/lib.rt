//! Values of variables and blocks, and how they count as numbers, truths, texts and places of a list.
#![tactic(auto)]

mod args;
mod argument_values;
mod bound_text;
mod casts;
mod comparison;
mod folding;
mod index;
mod names;
mod params;
mod value;

pub use args::Args;
pub use argument_values::{Arg, Held};
pub use bound_text::{BoundText, LONGEST};
pub use casts::{to_number, to_text, to_truth};
pub use comparison::{compare, contains, numeric};
pub use folding::fold;
pub use index::{Index, list_index};
pub use names::{ResolvedField, VarName, VarRef};
pub use params::Params;
pub use value::{Value, ValueLists, Values};
