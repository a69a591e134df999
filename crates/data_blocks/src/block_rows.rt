//! A block of data executed.

ghost use Rattle.std.specs.Prelude.{◌≡◌, [], ◌∷◌, OnOk, IfErr, false};
ghost use Rattle.scratch_values.specs.Args.{arguments};
ghost use Rattle.scratch_values.specs.Held.{pair_of};
ghost use Rattle.machine_spec.specs.DataRows.{data_row};
ghost use Rattle.machine_spec.specs.Outcome.{Goes, StopIs};
ghost use Rattle.machine_spec.specs.declared.threads.Context.TheVariants.{Fresh};
ghost use Rattle.machine_spec.specs.declared.threads.Control.TheVariants.{Next};
ghost use Rattle.target_records.specs.Records.{records_in};
ghost use Rattle.variables.specs.Held.{HasSameShape};
ghost use Rattle.data_blocks.specs.Blocks.{parts_of, row};
ghost use Rattle.block_arguments.specs.Stops.{IsOfWordsOrMemory};

use crate::{list_rows, monitor_rows, variable_rows};
use machine_spec::InstanceId;
use opcode_table::Opcode;
use scratch_values::{Arg, Args, ResolvedField};
use script_words::{Counted, Rng, Stop};
use target_records::Records;
use targets::Targets;
use variables::Variables;

// Changes what a block of data changes. A block of another group changes nothing.
fn changed<R: Rng + Drop>(
    op: Opcode,
    args: &Args<'_>,
    here: InstanceId,
    records: &Records,
    targets: &Targets,
    variables: &mut Variables,
    words: &mut Counted<R>,
) -> Result<(), Stop>
    ensures ok { OnOk result (row op args.entry.now here (records_in records.now) targets.now (parts_of R.stream variables.old words.old) ≡ Goes (parts_of R.stream variables.new words.new)) }
    ensures stop { StopIs result (row op args.entry.now here (records_in records.now) targets.now (parts_of R.stream variables.old words.old)) }
    ensures kind { IfErr result IsOfWordsOrMemory }
    ensures held { HasSameShape variables.old variables.new }
{
    match op {
        Opcode::DataSetVariableTo => Ok(variable_rows::set(args, here, records, variables)?),
        Opcode::DataChangeVariableBy => {
            variable_rows::change(args, here, records, variables);
            Ok(())
        }
        Opcode::DataShowVariable => {
            Ok(monitor_rows::show_variable(args, here, records, targets, variables, true)?)
        }
        Opcode::DataHideVariable => {
            Ok(monitor_rows::show_variable(args, here, records, targets, variables, false)?)
        }
        Opcode::DataShowList => {
            Ok(monitor_rows::show_list(args, here, records, targets, variables, true)?)
        }
        Opcode::DataHideList => {
            Ok(monitor_rows::show_list(args, here, records, targets, variables, false)?)
        }
        Opcode::DataAddToList => Ok(list_rows::add(args, here, records, variables)?),
        Opcode::DataDeleteAllOfList => {
            list_rows::delete_all(args, here, records, variables);
            Ok(())
        }
        Opcode::DataDeleteOfList => list_rows::delete(args, here, records, variables, words),
        Opcode::DataInsertAtList => list_rows::insert(args, here, records, variables, words),
        Opcode::DataReplaceItemOfList => list_rows::replace(args, here, records, variables, words),
        _ => Ok(()),
    }
}

/// Executes a block of data of an instance: the row of its opcode (scratch-vm, blocks/scratch3_data.js), behind which the
/// next block always follows and no redraw is requested; a block of another group does nothing. `Stop` is `Counter` of the
/// words exactly where `random` or `any` names a place of a list and 2^62 − 1 words were drawn; the only other one is
/// `NoMemory`.
pub fn apply<R: Rng + Drop>(
    op: Opcode,
    args: &Args<'_>,
    here: InstanceId,
    records: &Records,
    targets: &Targets,
    variables: &mut Variables,
    words: &mut Counted<R>,
) -> Result<(), Stop>
    ensures ok { OnOk result (data_row (records_in records.now) targets.now op args.entry.now here (parts_of R.stream variables.old words.old) ≡ Goes (record { parts = parts_of R.stream variables.new words.new; context = Fresh; control = Next; redraw = false })) }
    ensures stop { StopIs result (data_row (records_in records.now) targets.now op args.entry.now here (parts_of R.stream variables.old words.old)) }
    ensures kind { IfErr result IsOfWordsOrMemory }
    ensures held { HasSameShape variables.old variables.new }
{
    changed(op, args, here, records, targets, variables, words)
}

/// Executes a block of data that has one input: what `apply` does with this argument and the fields.
#[inline]
pub fn apply_one<R: Rng + Drop>(
    op: Opcode,
    fields: &[ResolvedField],
    first: Arg<'_>,
    here: InstanceId,
    records: &Records,
    targets: &Targets,
    variables: &mut Variables,
    words: &mut Counted<R>,
) -> Result<(), Stop>
    ensures ok { OnOk result (data_row (records_in records.now) targets.now op (arguments (pair_of first.entry ∷ []) fields.now) here (parts_of R.stream variables.old words.old) ≡ Goes (record { parts = parts_of R.stream variables.new words.new; context = Fresh; control = Next; redraw = false })) }
    ensures stop { StopIs result (data_row (records_in records.now) targets.now op (arguments (pair_of first.entry ∷ []) fields.now) here (parts_of R.stream variables.old words.old)) }
    ensures kind { IfErr result IsOfWordsOrMemory }
    ensures held { HasSameShape variables.old variables.new }
{
    match op {
        Opcode::DataSetVariableTo => {
            Ok(variable_rows::set_to(fields, first, here, records, variables)?)
        }
        Opcode::DataChangeVariableBy => {
            variable_rows::change_by(fields, &first, here, records, variables);
            Ok(())
        }
        _ => {
            let args = Args::one(fields, first);
            changed(op, &args, here, records, targets, variables, words)
        }
    }
}
