//! The threads of a run as plain data: which there are, how each stands, and the levels that each has open. The levels of all
//! threads stand in one pool.
#![tactic(auto)]

mod entry;
mod indexes;
mod level;
mod level_stacks;
mod levels;
mod parts;
mod slot_index;
mod stops;
mod table;
mod thread;
mod thread_ends;
mod thread_levels;
mod thread_starts;
mod threads;

pub use level::Level;
pub use levels::Levels;
pub use parts::ThreadPart;
pub use stops::PushStop;
pub use thread::Thread;
pub use threads::Threads;
