//! Names of targets, variables and lists.

ghost use Rattle.std.specs.Prelude.{◌≡◌, [], slice_get, unwrap_or};
ghost use Rattle.std.specs.Option.{option_map};
ghost use Rattle.machine_spec.specs.FrameText as machine;
ghost use Rattle.machine_spec.specs.Program.{record_at};
ghost use Rattle.target_records.specs.Records.{records_in};

use machine_spec::{ListRecords, TargetId, VariableRecords};
use target_records::Records;

// The name of a target; empty where there is none.
pub(crate) fn target_name(records: &Records, target: TargetId) -> &str
    ensures { result.now ≡ (record_at target (records_in records.now)).name }
{
    match records.get(target) {
        Some(record) => record.name.as_str(),
        None => "",
    }
}

// The name of a target, unless it is the stage.
pub(crate) fn sprite_name(records: &Records, target: TargetId) -> Option<&str>
    ensures { option_map (λ name. name.now) result ≡ machine.target_name (records_in records.now) target }
{
    match records.get(target) {
        Some(record) => {
            if record.is_stage {
                None
            } else {
                Some(record.name.as_str())
            }
        }
        None => Some(""),
    }
}

// The name of a variable; empty where there is none.
fn variable_at(variables: &VariableRecords, index: u32) -> &str
    ensures { result.now ≡ unwrap_or (option_map (λ r. r.name.name) (slice_get variables.now index)) [] }
{
    match variables.get(index as usize) {
        Some(variable) => variable.name.name.as_str(),
        None => "",
    }
}

// The name of a variable of a target; empty where there is none.
pub(crate) fn variable_name(records: &Records, target: TargetId, index: u32) -> &str
    ensures { result.now ≡ machine.variable_name (records_in records.now) target index }
{
    match records.get(target) {
        Some(record) => variable_at(&record.variables, index),
        None => "",
    }
}

// The name of a list; empty where there is none.
fn list_at(lists: &ListRecords, index: u32) -> &str
    ensures { result.now ≡ unwrap_or (option_map (λ r. r.name.name) (slice_get lists.now index)) [] }
{
    match lists.get(index as usize) {
        Some(list) => list.name.name.as_str(),
        None => "",
    }
}

// The name of a list of a target; empty where there is none.
pub(crate) fn list_name(records: &Records, target: TargetId, index: u32) -> &str
    ensures { result.now ≡ machine.list_name (records_in records.now) target index }
{
    match records.get(target) {
        Some(record) => list_at(&record.lists, index),
        None => "",
    }
}
