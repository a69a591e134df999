//! Properties of sprites and of the stage.

ghost use Rattle.std.specs.Prelude.{◌≡◌, ◌<◌, bytes_eq, position, slice_index_or, unwrap_or, IfOk, IfSome, length};
ghost use Rattle.std.specs.Option.{option_map};
ghost use Rattle.scratch_values.specs.Casts.{zero_number};
ghost use Rattle.scratch_values.specs.declared.value.Value.TheVariants as values;
ghost use Rattle.machine_spec.specs.Sensing as machine;
ghost use Rattle.machine_spec.specs.Stores.{no_instance, store_at};
ghost use Rattle.machine_spec.specs.Program.{record_at};
ghost use Rattle.target_records.specs.Records.{records_in};
ghost use Rattle.scratch_number.specs.Arithmetic.{sub};
ghost use Rattle.reporters.specs.Sight.{seen};

use crate::instances::{
    costume_name, costume_number, is_stage, own, sprite, stage_of, volume, x, y,
};
use crate::sight::Sight;
use machine_spec::{Instance, InstanceId, TargetId, VariableRecord};
use scratch_number::{Num, add, mul, of_whole, sqrt, sub};
use scratch_values::Value;
use std::alloc::{AllocError, Global};
use target_records::Records;
use targets::target_of;
use variables::Variables;

// How far two places are apart, by their distances from left to right and from bottom to top.
fn distance(dx: Num, dy: Num) -> Num
    ensures { result ≡ machine.distance dx dy }
{
    let (x, y) = (dx, dy);
    sqrt(add(mul(dx, x), mul(dy, y)))
}

// The distance of an instance from the place of another.
fn distance_to_place(from: Option<&Instance>, at_x: Num, at_y: Num) -> Num
    ensures { result ≡ machine.distance (sub at_x (unwrap_or (option_map (λ i. i.now) from.entry) no_instance).x) (sub at_y (unwrap_or (option_map (λ i. i.now) from.entry) no_instance).y) }
{
    distance(sub(at_x, x(from)), sub(at_y, y(from)))
}

// The distance of an instance from a sprite; 10000 where there is none.
fn distance_to_sprite(sprite: Option<&Instance>, from: Option<&Instance>) -> Num
    ensures { result ≡ machine.distance_to_sprite (option_map (λ i. i.now) sprite.entry) (unwrap_or (option_map (λ i. i.now) from.entry) no_instance) }
{
    match sprite {
        Some(sprite) => distance_to_place(from, sprite.x, sprite.y),
        None => of_whole(10_000),
    }
}

// The distance from the mouse or from the sprite of a name; 10000 from the stage or to no sprite.
pub(crate) fn distance_to(name: &str, sight: &Sight<'_>) -> Num
    ensures { result ≡ machine.distance_to name.now (seen sight.now) }
{
    let from = own(sight);
    if is_stage(sight.records, target_of(from)) {
        return of_whole(10_000);
    }
    if name == "_mouse_" {
        let mouse_x = of_whole(i64::from(sight.devices.mouse_x()));
        let mouse_y = of_whole(i64::from(sight.devices.mouse_y()));
        return distance_to_place(from, mouse_x, mouse_y);
    }
    distance_to_sprite(sprite(sight, name), from)
}

// The place of the first variable with a name.
fn place_of(variables: &[VariableRecord], name: &str) -> Option<usize>
    ensures place { result ≡ position (λ r. bytes_eq r.name.name name.now) variables.now }
    ensures within { IfSome result (λ k. k < length variables.now) }
{
    variables
        .iter()
        .position(|variable| variable.name.name.as_str() == name)
}

// The place of a variable of a target by its name.
fn variable_named(records: &Records, target: TargetId, name: &str) -> Option<u32>
    ensures { result ≡ position (λ r. bytes_eq r.name.name name.now) (record_at target (records_in records.now)).variables }
{
    match records.get(target) {
        Some(record) => match place_of(record.variables.as_slice(), name) {
            Some(place) => Some(place as u32),
            None => None,
        },
        None => None,
    }
}

// The number of an instance; 0 where it is not live.
fn number(instance: Option<&Instance>) -> InstanceId
    ensures { result ≡ (unwrap_or (option_map (λ i. i.now) instance.entry) no_instance).number }
{
    match instance {
        Some(instance) => instance.number,
        None => InstanceId(0),
    }
}

// The value of a variable of an instance by its number; 0 where there is none.
fn value_at(variables: &Variables, of: InstanceId, index: u32) -> &Value
    ensures { result.now ≡ slice_index_or (store_at of variables.now.stores).values index (values.Number zero_number) }
{
    variables.value(of, index)
}

// The value of an instance's own variable by its number; 0 where there is none. The only error is want of memory.
fn variable_at(
    variables: &Variables,
    instance: Option<&Instance>,
    index: Option<u32>,
) -> Result<Value, AllocError>
    ensures { IfOk result (λ v. v ≡ machine.variable_at_some index (store_at (unwrap_or (option_map (λ i. i.now) instance.entry) no_instance).number variables.now.stores).values) }
{
    match index {
        Some(index) => value_at(variables, number(instance), index).clone(),
        None => Ok(Value::Number(of_whole(0))),
    }
}

// What the stage and sprites alike tell: the volume, else the first variable of their own with that name, else 0. The
// only error is want of memory.
fn common_property(
    name: &str,
    instance: Option<&Instance>,
    sight: &Sight<'_>,
) -> Result<Value, AllocError>
    ensures { IfOk result (λ v. v ≡ machine.common_property name.now (unwrap_or (option_map (λ i. i.now) instance.entry) no_instance) (seen sight.entry.now)) }
{
    let target = target_of(instance);
    if name == "volume" {
        return Ok(Value::Number(volume(sight.records, target)));
    }
    let index = variable_named(sight.records, target, name);
    variable_at(sight.variables, instance, index)
}

// What the stage tells. The only error is want of memory.
fn stage_property(
    alloc: Global,
    name: &str,
    stage: Option<&Instance>,
    sight: &Sight<'_>,
) -> Result<Value, AllocError>
    ensures { IfOk result (λ v. v ≡ machine.stage_property name.now (unwrap_or (option_map (λ i. i.now) stage.entry) no_instance) (seen sight.entry.now)) }
{
    match name {
        "background #" => Ok(Value::Number(costume_number(stage))),
        "backdrop #" => Ok(Value::Number(costume_number(stage))),
        "backdrop name" => costume_name(alloc, sight.records, stage),
        _ => common_property(name, stage, sight),
    }
}

// What a sprite tells. The only error is want of memory.
fn sprite_property(
    alloc: Global,
    name: &str,
    sprite: &Instance,
    sight: &Sight<'_>,
) -> Result<Value, AllocError>
    ensures { IfOk result (λ v. v ≡ machine.sprite_property name.now sprite.now (seen sight.entry.now)) }
{
    match name {
        "x position" => Ok(Value::Number(sprite.x)),
        "y position" => Ok(Value::Number(sprite.y)),
        "direction" => Ok(Value::Number(sprite.direction)),
        "costume #" => Ok(Value::Number(costume_number(Some(sprite)))),
        "costume name" => costume_name(alloc, sight.records, Some(sprite)),
        "size" => Ok(Value::Number(sprite.size)),
        _ => common_property(name, Some(sprite), sight),
    }
}

// A property of `_stage_` or of the sprite of a name; 0 where there is none. The only error is want of memory.
pub(crate) fn property_of(
    alloc: Global,
    name: &str,
    object: &str,
    sight: &Sight<'_>,
) -> Result<Value, AllocError>
    ensures { IfOk result (λ v. v ≡ machine.property_of name.now object.now (seen sight.entry.now)) }
{
    if object == "_stage_" {
        return stage_property(alloc, name, stage_of(sight), sight);
    }
    match sprite(sight, object) {
        Some(sprite) => sprite_property(alloc, name, sprite, sight),
        None => Ok(Value::Number(of_whole(0))),
    }
}
