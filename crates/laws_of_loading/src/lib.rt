//! What is accepted as a saved run is the text of a legal world: laws over definitions. There is no code here.
#![tactic(auto)]

mod laws;

pub use laws::{
    an_accepted_saved_run_is_the_text_of_its_world, an_accepted_saved_run_tells_a_legal_world,
};
