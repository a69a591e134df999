//! What is told of an instance and of its target.

ghost use Rattle.std.specs.Prelude.{◌≡◌, ◌+◌, [], slice_index_or, unwrap_or, pos, IfOk};
ghost use Rattle.std.specs.Option.{option_map};
ghost use Rattle.scratch_values.specs.declared.value.Value.TheVariants as values;
ghost use Rattle.machine_spec.specs.Numbers.{whole};
ghost use Rattle.machine_spec.specs.Program.{record_at};
ghost use Rattle.machine_spec.specs.Sensing as machine;
ghost use Rattle.machine_spec.specs.Stores.{live, no_instance};
ghost use Rattle.target_records.specs.Records.{records_in};
ghost use Rattle.reporters.specs.Sight.{seen};

use crate::sight::{Sight, stage};
use machine_spec::{CostumeNames, Instance, TargetId};
use operators::empty_text;
use scratch_number::{Num, of_whole};
use scratch_values::Value;
use std::alloc::{AllocError, Global};
use target_records::Records;
use targets::{costume_of, target_of};

// The instance that evaluates.
#[inline]
pub(crate) fn own<'a>(sight: &Sight<'a>) -> Option<&'a Instance>
    ensures { option_map (λ i. i.now) result ≡ live sight.now.here sight.now.targets.now }
{
    sight.targets.get(sight.here)
}

// The stage.
pub(crate) fn stage_of<'a>(sight: &Sight<'a>) -> Option<&'a Instance>
    ensures { unwrap_or (option_map (λ i. i.now) result) no_instance ≡ machine.stage_of (seen sight.now) }
{
    sight.targets.get(stage(sight.records))
}

// The original of the first sprite with a name.
pub(crate) fn sprite<'a>(sight: &Sight<'a>, name: &str) -> Option<&'a Instance>
    ensures { option_map (λ i. i.now) result ≡ machine.sprite name.now (records_in sight.now.records.now) sight.now.targets.now }
{
    match sight.targets.sprite_named(sight.records, name) {
        Some(number) => sight.targets.get(number),
        None => None,
    }
}

// The place from left to right of an instance, and 0 where there is none.
#[inline]
pub(crate) fn x(instance: Option<&Instance>) -> Num
    ensures { result ≡ (unwrap_or (option_map (λ i. i.now) instance.entry) no_instance).x }
{
    match instance {
        Some(instance) => instance.x,
        None => of_whole(0),
    }
}

// The place from bottom to top of an instance, and 0 where there is none.
#[inline]
pub(crate) fn y(instance: Option<&Instance>) -> Num
    ensures { result ≡ (unwrap_or (option_map (λ i. i.now) instance.entry) no_instance).y }
{
    match instance {
        Some(instance) => instance.y,
        None => of_whole(0),
    }
}

// The direction of an instance, and 0 where there is none.
#[inline]
pub(crate) fn direction(instance: Option<&Instance>) -> Num
    ensures { result ≡ (unwrap_or (option_map (λ i. i.now) instance.entry) no_instance).direction }
{
    match instance {
        Some(instance) => instance.direction,
        None => of_whole(0),
    }
}

// The size of an instance, and 0 where there is none.
#[inline]
pub(crate) fn size(instance: Option<&Instance>) -> Num
    ensures { result ≡ (unwrap_or (option_map (λ i. i.now) instance.entry) no_instance).size }
{
    match instance {
        Some(instance) => instance.size,
        None => of_whole(0),
    }
}

// Whether a target is the stage.
pub(crate) fn is_stage(records: &Records, target: TargetId) -> bool
    ensures { result ≡ (record_at target (records_in records.now)).is_stage }
{
    match records.get(target) {
        Some(record) => record.is_stage,
        None => false,
    }
}

// The volume of a target.
pub(crate) fn volume(records: &Records, target: TargetId) -> Num
    ensures { result ≡ (record_at target (records_in records.now)).volume }
{
    match records.get(target) {
        Some(record) => record.volume,
        None => of_whole(0),
    }
}

// A name of costumes; empty where there is none at the place. The only error is want of memory.
fn costume_at(alloc: Global, names: &CostumeNames, place: u32) -> Result<Value, AllocError>
    ensures { IfOk result (λ v. v ≡ values.Text (slice_index_or names.now place [])) }
{
    match names.get(place as usize) {
        Some(name) => Ok(Value::Text(name.clone()?)),
        None => empty_text(alloc),
    }
}

// The name of a costume of a target; empty where there is none. The only error is want of memory.
fn name_of_costume(
    alloc: Global,
    records: &Records,
    target: TargetId,
    costume: u32,
) -> Result<Value, AllocError>
    ensures { IfOk result (λ v. v ≡ values.Text (slice_index_or (record_at target (records_in records.now)).costumes costume [])) }
{
    match records.get(target) {
        Some(record) => costume_at(alloc, &record.costumes, costume),
        None => empty_text(alloc),
    }
}

// The number of the present costume, from 1.
pub(crate) fn costume_number(instance: Option<&Instance>) -> Num
    ensures { result ≡ whole (pos ((unwrap_or (option_map (λ i. i.now) instance.entry) no_instance).costume + 1)) }
{
    of_whole(i64::from(costume_of(instance)) + 1)
}

// The name of the present costume. The only error is want of memory.
pub(crate) fn costume_name(
    alloc: Global,
    records: &Records,
    instance: Option<&Instance>,
) -> Result<Value, AllocError>
    ensures { IfOk result (λ v. v ≡ values.Text (machine.costume_name (records_in records.now) (unwrap_or (option_map (λ i. i.now) instance.entry) no_instance))) }
{
    name_of_costume(alloc, records, target_of(instance), costume_of(instance))
}

// The number of the present costume, from 1, or its name. The only error is want of memory.
pub(crate) fn number_or_name(
    alloc: Global,
    by_number: bool,
    records: &Records,
    instance: Option<&Instance>,
) -> Result<Value, AllocError>
    ensures { IfOk result (λ v. v ≡ machine.number_or_name by_number (records_in records.now) (unwrap_or (option_map (λ i. i.now) instance.entry) no_instance)) }
{
    if by_number {
        return Ok(Value::Number(costume_number(instance)));
    }
    costume_name(alloc, records, instance)
}
