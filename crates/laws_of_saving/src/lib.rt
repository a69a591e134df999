//! The legal worlds of a run can be saved, and are told by their texts: laws over definitions. There is no code here.
#![tactic(auto)]

mod bytes;
mod laws;
mod worlds;

pub use bytes::a_digest_has_its_bytes;
pub use laws::{
    every_accepted_file_is_playable, one_text_tells_one_world, the_text_of_a_run_is_accepted,
};
pub use worlds::the_world_of_a_run_is_told;
