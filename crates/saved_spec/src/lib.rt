//! Which saved runs are accepted, and why others are refused (docs/formats.md, section 5). The rules are definitions;
//! what stands in Rust is the type of the refusals, and laws of the definitions.
#![tactic(auto)]

mod laws;
mod refusals;

pub use laws::{
    a_legal_thread_is_accepted, a_saved_run_tells_its_world, a_thread_that_is_accepted_is_legal,
    an_accepted_text_is_what_is_written, one_answer_at_most,
};
pub use refusals::SaveRefusal;
