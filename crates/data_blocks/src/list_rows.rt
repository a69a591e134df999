//! The blocks of lists. No row of theirs looks at the instances of a run, so their clauses give it none.

ghost use Rattle.std.specs.Prelude.{◌≡◌, [], codes, OnOk, IfErr};
ghost use Rattle.opcode_table.specs.declared.opcode.Opcode.TheVariants as opcode;
ghost use Rattle.machine_spec.specs.Outcome.{Goes, StopIs};
ghost use Rattle.machine_spec.specs.DataRows.{added, list_set, named as named_by};
ghost use Rattle.machine_spec.specs.Stores.{items_of};
ghost use Rattle.machine_spec.specs.View.{value_at};
ghost use Rattle.target_records.specs.Records.{records_in};
ghost use Rattle.variables.specs.Held.{HasSameShape};
ghost use Rattle.data_blocks.specs.Blocks.{parts_of, row};
ghost use Rattle.block_arguments.specs.Stops.{IsOfWordsOrMemory};

use crate::edits::{deleted_at, inserted_at, replaced_at};
use crate::places::place;
use block_arguments::{held_at, value};
use machine_spec::InstanceId;
use scratch_values::Args;
use script_words::{Counted, Rng, Stop};
use std::alloc::AllocError;
use target_records::Records;
use variables::Variables;

// `add ITEM to LIST`.
#[inline]
pub(crate) fn add(
    args: &Args<'_>,
    here: InstanceId,
    records: &Records,
    variables: &mut Variables,
) -> Result<(), AllocError>
    ensures ok { let l = named_by (codes "LIST") args.entry.now here (records_in records.now) in OnOk result (variables.new ≡ list_set l (added (value_at (codes "ITEM") args.entry.now) (items_of l.ref here (records_in records.now) variables.old)) variables.old) }
    ensures held { HasSameShape variables.old variables.new }
{
    let list = held_at(args, "LIST", here, records);
    let item = value(args, "ITEM")?;
    variables.push(list.of, list.index, item)
}

// `delete all of LIST`.
pub(crate) fn delete_all(
    args: &Args<'_>,
    here: InstanceId,
    records: &Records,
    variables: &mut Variables,
)
    ensures new { variables.new ≡ list_set (named_by (codes "LIST") args.entry.now here (records_in records.now)) [] variables.old }
    ensures held { HasSameShape variables.old variables.new }
{
    let list = held_at(args, "LIST", here, records);
    variables.clear(list.of, list.index);
}

// `delete INDEX of LIST`.
pub(crate) fn delete<R: Rng + Drop>(
    args: &Args<'_>,
    here: InstanceId,
    records: &Records,
    variables: &mut Variables,
    words: &mut Counted<R>,
) -> Result<(), Stop>
    ensures ok { OnOk result (row opcode.DataDeleteOfList args.entry.now here (records_in records.now) [] (parts_of R.stream variables.old words.old) ≡ Goes (parts_of R.stream variables.new words.new)) }
    ensures held { HasSameShape variables.old variables.new }
    ensures stop { StopIs result (row opcode.DataDeleteOfList args.entry.now here (records_in records.now) [] (parts_of R.stream variables.old words.old)) }
    ensures kind { IfErr result IsOfWordsOrMemory }
{
    let list = held_at(args, "LIST", here, records);
    let length = variables.items(list.of, list.index).len() as u32;
    let place = match place(args, length, true, words) {
        Ok(place) => place,
        Err(stop) => return Err(stop),
    };
    deleted_at(list, place, variables);
    Ok(())
}

// `insert ITEM at INDEX of LIST`.
pub(crate) fn insert<R: Rng + Drop>(
    args: &Args<'_>,
    here: InstanceId,
    records: &Records,
    variables: &mut Variables,
    words: &mut Counted<R>,
) -> Result<(), Stop>
    ensures ok { OnOk result (row opcode.DataInsertAtList args.entry.now here (records_in records.now) [] (parts_of R.stream variables.old words.old) ≡ Goes (parts_of R.stream variables.new words.new)) }
    ensures held { HasSameShape variables.old variables.new }
    ensures stop { StopIs result (row opcode.DataInsertAtList args.entry.now here (records_in records.now) [] (parts_of R.stream variables.old words.old)) }
    ensures kind { IfErr result IsOfWordsOrMemory }
{
    let list = held_at(args, "LIST", here, records);
    let length = variables.items(list.of, list.index).len() as u32;
    let place = match place(args, length + 1, false, words) {
        Ok(place) => place,
        Err(stop) => return Err(stop),
    };
    let item = value(args, "ITEM")?;
    inserted_at(list, place, item, variables)?;
    Ok(())
}

// `replace item INDEX of LIST with ITEM`.
pub(crate) fn replace<R: Rng + Drop>(
    args: &Args<'_>,
    here: InstanceId,
    records: &Records,
    variables: &mut Variables,
    words: &mut Counted<R>,
) -> Result<(), Stop>
    ensures ok { OnOk result (row opcode.DataReplaceItemOfList args.entry.now here (records_in records.now) [] (parts_of R.stream variables.old words.old) ≡ Goes (parts_of R.stream variables.new words.new)) }
    ensures held { HasSameShape variables.old variables.new }
    ensures stop { StopIs result (row opcode.DataReplaceItemOfList args.entry.now here (records_in records.now) [] (parts_of R.stream variables.old words.old)) }
    ensures kind { IfErr result IsOfWordsOrMemory }
{
    let list = held_at(args, "LIST", here, records);
    let length = variables.items(list.of, list.index).len() as u32;
    let place = match place(args, length, false, words) {
        Ok(place) => place,
        Err(stop) => return Err(stop),
    };
    let item = value(args, "ITEM")?;
    replaced_at(list, place, item, variables);
    Ok(())
}
