//! The devices and the counters of a run: laws over the definitions of the machine. There is no code here.
#![tactic(auto)]

mod laws;

pub use laws::{
    a_line_keeps_devices_legal, a_line_that_is_read_is_good, the_first_world_has_legal_devices,
};
