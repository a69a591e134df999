//! The hats of a project, found by their target, their opcode and the folded text of their field.
//!
//! `load` builds the index in one pass over the heads. A look-up takes no memory, and looks at no other hat: of each
//! target there is one map from texts for each kind of hat.
#![tactic(auto)]

mod index;
mod keys;
mod kinds;
mod laws;
mod target_hats;
mod text_starts;

pub use index::HatIndex;
pub use laws::{
    a_kind_of_hat_has_one_opcode, a_text_has_one_list_of_folded_characters,
    the_hats_that_fit_are_those_of_their_keys,
};
pub use text_starts::{Start, Starts};
