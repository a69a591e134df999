//! The reference machine: definitions, in specs/, of what a run does, and the plain types that they share with the code.
//!
//! specs/ has one subject a file. docs/profile.md tells the same rules in words, and docs/architecture.md has the map.
#![tactic(auto)]

mod boxed;
mod bubble;
mod devices;
mod effects;
mod ids;
mod instance;
mod key_names;
mod laws;
mod limits;
mod lines;
mod records;
mod threads;
mod variables;

pub use boxed::Boxed;
pub use bubble::{Bubble, BubbleText, Say};
pub use devices::{BubbleTimer, BubbleTimers, Key, Keys, Question, Questions};
pub use effects::{Effect, Effects};
pub use ids::{BlockId, InstanceId, Serial, TargetId};
pub use instance::{Edges, Instance, Style};
pub use laws::{
    a_pass_leaves_no_thread_that_is_done, own_controls_move_one_thread, rows_touch_no_thread,
    settling_keeps_what_is_left, slices_are_executions,
};
pub use limits::{LAST_CLOCK, MOST_CLONES, MOST_ITEMS, MOST_LEVELS, MOST_TURNS, SCRIPT_LIMIT};
pub use lines::{Budget, Line, LineRefusal};
pub use records::{
    CostumeNames, ListRecord, ListRecords, TargetRecord, VariableRecord, VariableRecords,
};
pub use threads::{
    Context, Control, Count, Filter, GlideState, Report, Serials, Status, WaitState, Which,
};
pub use variables::{Made, MadeList, Shown, Store, Stores};
