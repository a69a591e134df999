//! What a call over a shelf and a sink owes, once for all programs: about faults and their causes, what was written and by
//! which writes, what the shelf holds, and how often it was called. The statuses of a program are told apart by their course
//! alone (specs/Course.antt). The calls here are the stages of such a call: a fetch, the write of a text, and a put.
#![tactic(auto)]

mod edges;
mod stages;

pub use edges::{edges_of, tell};
pub use stages::{fetch, put_text, write_text};
