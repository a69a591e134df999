//! The blocks that change variables.

ghost use Rattle.std.specs.Prelude.{◌≡◌, [], ◌∷◌, codes, IfOk, OnOk};
ghost use Rattle.scratch_number.specs.Arithmetic.{add as sum_of};
ghost use Rattle.scratch_values.specs.Args.{arguments};
ghost use Rattle.scratch_values.specs.Casts.{number as number_in};
ghost use Rattle.scratch_values.specs.Held.{pair_of};
ghost use Rattle.scratch_values.specs.declared.value.Value.TheVariants.{Number};
ghost use Rattle.machine_spec.specs.DataRows.{named as named_by, variable_set};
ghost use Rattle.machine_spec.specs.Stores.{index_of, owner_of, value_of};
ghost use Rattle.machine_spec.specs.View.{number_at, value_at, variable_at};
ghost use Rattle.target_records.specs.Records.{records_in};
ghost use Rattle.variables.specs.Held.{HasSameShape};

use block_arguments::{Place, held_at, number, value};
use machine_spec::InstanceId;
use scratch_number::{Num, of_whole};
use scratch_values::{Arg, Args, Held, ResolvedField, Value, to_number};
use std::alloc::AllocError;
use target_records::Records;
use variables::Variables;

// `set VARIABLE to VALUE`.
#[inline]
pub(crate) fn set(
    args: &Args<'_>,
    here: InstanceId,
    records: &Records,
    variables: &mut Variables,
) -> Result<(), AllocError>
    ensures ok { OnOk result (variables.new ≡ variable_set (named_by (codes "VARIABLE") args.entry.now here (records_in records.now)) (value_at (codes "VALUE") args.entry.now) variables.old) }
    ensures held { HasSameShape variables.old variables.new }
{
    let variable = held_at(args, "VARIABLE", here, records);
    let value = value(args, "VALUE")?;
    variables.set(variable.of, variable.index, value);
    Ok(())
}

// `change VARIABLE by VALUE`.
#[inline]
pub(crate) fn change(
    args: &Args<'_>,
    here: InstanceId,
    records: &Records,
    variables: &mut Variables,
)
    ensures new { let v = named_by (codes "VARIABLE") args.entry.now here (records_in records.now) in variables.new ≡ variable_set v (Number (sum_of (number_in (value_of v.ref here (records_in records.now) variables.old)) (number_at (codes "VALUE") args.entry.now))) variables.old }
    ensures held { HasSameShape variables.old variables.new }
{
    let variable = held_at(args, "VARIABLE", here, records);
    variables.change(variable.of, variable.index, number(args, "VALUE"));
}

// The place of the variable that the field of a block names.
#[inline]
fn place_of(fields: &[ResolvedField], here: InstanceId, records: &Records) -> Place
    ensures of { result.of ≡ owner_of (variable_at (codes "VARIABLE") (arguments [] fields.now)) here (records_in records.now) }
    ensures index { result.index ≡ index_of (variable_at (codes "VARIABLE") (arguments [] fields.now)) }
{
    held_at(&Args::none(fields), "VARIABLE", here, records)
}

// The number of an argument, where it is that of the value.
#[inline]
fn number_of(first: &Arg<'_>) -> Num
    ensures { result ≡ number_at (codes "VALUE") (arguments (pair_of first.now ∷ []) []) }
{
    if first.name.as_str() == "VALUE" {
        to_number(first.value.get())
    } else {
        of_whole(0)
    }
}

// `change VARIABLE by VALUE`, with one argument.
#[inline]
pub(crate) fn change_by(
    fields: &[ResolvedField],
    first: &Arg<'_>,
    here: InstanceId,
    records: &Records,
    variables: &mut Variables,
)
    ensures new { let a = arguments (pair_of first.now ∷ []) fields.now in let v = named_by (codes "VARIABLE") a here (records_in records.now) in variables.new ≡ variable_set v (Number (sum_of (number_in (value_of v.ref here (records_in records.now) variables.old)) (number_at (codes "VALUE") a))) variables.old }
    ensures held { HasSameShape variables.old variables.new }
{
    let variable = place_of(fields, here, records);
    variables.change(variable.of, variable.index, number_of(first));
}

// The value of an argument, where it is that of the value.
#[inline]
fn value_in(first: Arg<'_>) -> Result<Value, AllocError>
    ensures { IfOk result (λ v. v ≡ value_at (codes "VALUE") (arguments (pair_of first.entry ∷ []) [])) }
{
    if first.name.as_str() != "VALUE" {
        return Ok(Value::Number(of_whole(0)));
    }
    match first.value {
        Held::Lent(value) => Ok(value.clone()?),
        Held::Own(value) => Ok(value),
    }
}

// `set VARIABLE to VALUE`, with one argument.
#[inline]
pub(crate) fn set_to(
    fields: &[ResolvedField],
    first: Arg<'_>,
    here: InstanceId,
    records: &Records,
    variables: &mut Variables,
) -> Result<(), AllocError>
    ensures ok { let a = arguments (pair_of first.entry ∷ []) fields.now in OnOk result (variables.new ≡ variable_set (named_by (codes "VARIABLE") a here (records_in records.now)) (value_at (codes "VALUE") a) variables.old) }
    ensures held { HasSameShape variables.old variables.new }
{
    let variable = place_of(fields, here, records);
    let value = value_in(first)?;
    variables.set(variable.of, variable.index, value);
    Ok(())
}
