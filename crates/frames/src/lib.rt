//! A frame of a run (scratch-vm, engine/runtime.js, _step): bubbles whose time has passed end (`bubble_ends`), edge hats are
//! evaluated and started (`edge_values`, `edge_hats`), and passes are made. From the top down: `frame_order` makes these
//! stages in turn; `frame_passes` makes the passes of a frame; `thread_visits` is a pass over the thread list, and
//! `thread_slices` the turn of one thread, executions of the crate below (scratch-vm, engine/sequencer.js, stepThreads and
//! stepThread). `resumption` lets a thread go on whose promise has ended, by `bubble_ends` or by an answer
//! (`question_answers`; scratch-vm, engine/execute.js, handlePromise).
#![tactic(auto)]

mod bubble_ends;
mod edge_hats;
mod edge_values;
mod frame_order;
mod frame_passes;
mod question_answers;
mod resumption;
mod thread_slices;
mod thread_visits;

pub use bubble_ends::end_timers;
pub use edge_hats::pass_edge_hats;
pub use frame_order::frame;
pub use frame_passes::passes;
pub use question_answers::answer;
pub use resumption::resume;
pub use thread_slices::slice;
pub use thread_visits::pass;
