//! What reporters read.

ghost use Rattle.std.specs.Prelude.{◌≡◌, ◌≤◌, length, IfOk};
ghost use Rattle.machine_spec.specs.DataRows.{most_items};
ghost use Rattle.machine_spec.specs.Outcome.{Goes, StopIs};
ghost use Rattle.machine_spec.specs.Program as program;
ghost use Rattle.machine_spec.specs.Stores.{items_of, value_of};
ghost use Rattle.machine_spec.specs.Texts.{contents_text, text_value};
ghost use Rattle.target_records.specs.Records.{records_in};

use devices::Devices;
use machine_spec::InstanceId;
use scratch_values::{Params, Value, Values, VarRef};
use script_words::Stop;
use std::alloc::Global;
use target_records::Records;
use targets::Targets;
use variables::Variables;

/// What reporters read: the records of the project, the stores of the run, the instance that evaluates, and the parameters
/// of the procedure that it runs, if it runs one. Contracts see it as the view of the reference machine.
#[derive(Clone, Copy, Drop)]
pub struct Sight<'a> {
    pub records: &'a Records,
    pub targets: &'a Targets,
    pub variables: &'a Variables,
    pub devices: &'a Devices,
    pub here: InstanceId,
    pub params: Option<&'a Params>,
}

// The stage's own instance.
#[inline]
pub(crate) fn stage(records: &Records) -> InstanceId
    ensures { result ≡ program.stage_number (records_in records.now) }
{
    InstanceId(u64::from(records.stage().0))
}

/// The value of a variable of the instance that evaluates, or of the stage; 0 where there is none.
#[inline]
pub fn variable<'a>(sight: &Sight<'a>, named: VarRef) -> &'a Value
    ensures { result.now ≡ value_of named sight.now.here (records_in sight.now.records.now) sight.now.variables.now }
{
    match named {
        VarRef::Own(index) => sight.variables.value(sight.here, index),
        VarRef::Stage(index) => sight.variables.value(stage(sight.records), index),
    }
}

// The items of a list of the instance that evaluates, or of the stage.
#[inline]
pub(crate) fn items<'a>(sight: &Sight<'a>, list: VarRef) -> &'a Values
    ensures items { result.now ≡ items_of list sight.now.here (records_in sight.now.records.now) sight.now.variables.now }
    ensures few { length result.now ≤ most_items }
{
    match list {
        VarRef::Own(index) => sight.variables.items(sight.here, index),
        VarRef::Stage(index) => sight.variables.items(stage(sight.records), index),
    }
}

/// The contents of a list of the instance that evaluates, or of the stage, as a text. `Text` exactly where they are too long
/// for a value; the only other error is want of memory.
pub fn contents(alloc: Global, sight: &Sight<'_>, list: VarRef) -> Result<Value, Stop>
    ensures ok { IfOk result (λ v. text_value (contents_text (items_of list sight.now.here (records_in sight.now.records.now) sight.now.variables.now)) ≡ Goes v) }
    ensures stop { StopIs result (text_value (contents_text (items_of list sight.now.here (records_in sight.now.records.now) sight.now.variables.now))) }
{
    operators::contents(alloc, items(sight, list).as_slice())
}
