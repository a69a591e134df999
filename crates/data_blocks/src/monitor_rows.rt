//! The blocks that show and hide monitors.

ghost use Rattle.std.specs.Prelude.{◌≡◌, codes, OnOk};
ghost use Rattle.machine_spec.specs.declared.variables.Shown.TheVariants as shown;
ghost use Rattle.machine_spec.specs.DataRows.{named as named_by, shown_as};
ghost use Rattle.machine_spec.specs.Monitors.{monitor_set};
ghost use Rattle.target_records.specs.Records.{records_in};
ghost use Rattle.variables.specs.Held.{HasSameShape};

use block_arguments::held_at;
use machine_spec::{InstanceId, Shown};
use scratch_values::Args;
use std::alloc::AllocError;
use target_records::Records;
use targets::Targets;
use variables::Variables;

// `show variable VARIABLE`, and `hide variable VARIABLE`.
pub(crate) fn show_variable(
    args: &Args<'_>,
    here: InstanceId,
    records: &Records,
    targets: &Targets,
    variables: &mut Variables,
    visible: bool,
) -> Result<(), AllocError>
    ensures ok { let v = named_by (codes "VARIABLE") args.entry.now here (records_in records.now) in OnOk result (variables.new ≡ monitor_set (records_in records.now) (shown_as shown.Variable v targets.now) visible variables.old) }
    ensures held { HasSameShape variables.old variables.new }
{
    let variable = held_at(args, "VARIABLE", here, records);
    let what = Shown::Variable(targets.target(variable.of), variable.index);
    variables.show(records, what, visible)
}

// `show list LIST`, and `hide list LIST`.
pub(crate) fn show_list(
    args: &Args<'_>,
    here: InstanceId,
    records: &Records,
    targets: &Targets,
    variables: &mut Variables,
    visible: bool,
) -> Result<(), AllocError>
    ensures ok { let l = named_by (codes "LIST") args.entry.now here (records_in records.now) in OnOk result (variables.new ≡ monitor_set (records_in records.now) (shown_as shown.List l targets.now) visible variables.old) }
    ensures held { HasSameShape variables.old variables.new }
{
    let list = held_at(args, "LIST", here, records);
    let what = Shown::List(targets.target(list.of), list.index);
    variables.show(records, what, visible)
}
