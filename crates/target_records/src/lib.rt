//! The targets and the monitors of a project file, read of its document, and kept as records.
//!
//! Reading is in two steps. `read_targets` and `read_monitors` read what has its shape; texts may be of any length then.
//! `FileRecords::bounded` makes the records of it, where no list and no text of a value is too long. `read` does both, and
//! tests the number of stages and the counts between them.
#![tactic(auto)]

mod costumes;
mod file_lists;
mod file_records;
mod file_targets;
mod file_variables;
mod held_targets;
mod kept_ranges;
mod looks;
mod members;
mod monitors;
mod reader;
mod records;
mod refusal;
mod shown_monitors;
mod targets;
mod text_lengths;

pub use file_records::FileRecords;
pub use file_targets::FileTargets;
pub use kept_ranges::{costume_index, direction_after, size_kept};
pub use machine_spec::{
    InstanceId, ListRecord, ListRecords, Serial, Style, TargetId, TargetRecord, VariableRecord,
    VariableRecords,
};
pub use monitors::{MonitorRecord, Monitors, read_monitors};
pub use reader::read;
pub use records::Records;
pub use refusal::RecordRefusal;
pub use targets::read_targets;
