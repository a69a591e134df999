//! Graphic effects. Each block tells whether a redraw is requested.

ghost use Rattle.std.specs.Prelude.{◌≡◌, codes, option_map, position, bytes_eq, slice_index_or, IfOk};
ghost use Rattle.scratch_number.specs.Arithmetic.{add as sum};
ghost use Rattle.scratch_values.specs.Casts.{zero_number};
ghost use Rattle.machine_spec.specs.Effects.{effect_names, effect_place};
ghost use Rattle.machine_spec.specs.Looks.{effect_named, effect_set, goes_on, with_effect};
ghost use Rattle.machine_spec.specs.Stores.{Devices, instance_at, on_instance};
ghost use Rattle.machine_spec.specs.View.{field_at, number_at};
ghost use Rattle.machine_spec.specs.Words.{Words};
ghost use Rattle.targets.specs.Live.{IsSameCast};
ghost use Rattle.looks_blocks.specs.Blocks.{parts};

use block_arguments::{field, number};
use machine_spec::{Effect, InstanceId};
use scratch_number::{Num, add, of_whole};
use scratch_values::{Args, fold};
use std::alloc::{AllocError, Global};
use targets::Targets;

// The effect of a folded name.
fn named(name: &str) -> Option<Effect>
    ensures { option_map effect_place result ≡ position (bytes_eq name.now) effect_names }
{
    match name {
        "color" => Some(Effect::Color),
        "fisheye" => Some(Effect::Fisheye),
        "whirl" => Some(Effect::Whirl),
        "pixelate" => Some(Effect::Pixelate),
        "mosaic" => Some(Effect::Mosaic),
        "brightness" => Some(Effect::Brightness),
        "ghost" => Some(Effect::Ghost),
        _ => None,
    }
}

// The effect that the field names, without case. The only error is want of memory.
fn effect(alloc: Global, args: &Args<'_>) -> Result<Option<Effect>, AllocError>
    ensures { IfOk result (λ e. option_map effect_place e ≡ effect_named (field_at (codes "EFFECT") args.entry.now)) }
{
    let name = fold(alloc, field(args, "EFFECT"))?;
    Ok(named(name.as_str()))
}

// The number of an effect of an instance.
fn number_of(effect: Effect, here: InstanceId, targets: &Targets) -> Num
    ensures { result ≡ slice_index_or (instance_at here targets.now).effects (effect_place effect) zero_number }
{
    match targets.get(here) {
        Some(own) => own.effects.get(effect),
        None => of_whole(0),
    }
}

// Adds to an effect.
#[tactic(auto, using(crate::proofs::Instances::on_instance_same))]
fn add_one(effect: Effect, change: Num, here: InstanceId, targets: &mut Targets) -> bool
    ensures redraw { result ≡ (instance_at here targets.old).visible }
    ensures new { targets.new ≡ on_instance here (λ i. with_effect (effect_place effect) (sum (slice_index_or i.effects (effect_place effect) zero_number) change) i) targets.old }
    ensures cast { IsSameCast targets.old targets.new }
{
    let number = add(number_of(effect, here, targets), change);
    targets.set_effect(here, effect, number)
}

// Adds to an effect, if there is one.
fn add_to(effect: Option<Effect>, change: Num, here: InstanceId, targets: &mut Targets) -> bool
    ensures row { (d : Devices) (w : Words) → effect_set (option_map effect_place effect) (λ k i. sum (slice_index_or i.effects k zero_number) change) here (parts targets.old d w) ≡ goes_on result (parts targets.new d w) }
    ensures cast { IsSameCast targets.old targets.new }
{
    match effect {
        Some(effect) => add_one(effect, change, here, targets),
        None => false,
    }
}

// `change EFFECT effect by CHANGE`. The only error is want of memory.
pub(crate) fn change_effect(
    alloc: Global,
    args: &Args<'_>,
    here: InstanceId,
    targets: &mut Targets,
) -> Result<bool, AllocError>
    ensures ok { IfOk result (λ redraw. (d : Devices) (w : Words) → effect_set (effect_named (field_at (codes "EFFECT") args.entry.now)) (λ k i. sum (slice_index_or i.effects k zero_number) (number_at (codes "CHANGE") args.entry.now)) here (parts targets.old d w) ≡ goes_on redraw (parts targets.new d w)) }
    ensures cast { IsSameCast targets.old targets.new }
{
    let effect = effect(alloc, args)?;
    Ok(add_to(effect, number(args, "CHANGE"), here, targets))
}

// Sets an effect, if there is one.
fn set(effect: Option<Effect>, number: Num, here: InstanceId, targets: &mut Targets) -> bool
    ensures row { (d : Devices) (w : Words) → effect_set (option_map effect_place effect) (λ k i. number) here (parts targets.old d w) ≡ goes_on result (parts targets.new d w) }
    ensures cast { IsSameCast targets.old targets.new }
{
    match effect {
        Some(effect) => targets.set_effect(here, effect, number),
        None => false,
    }
}

// `set EFFECT effect to VALUE`. The only error is want of memory.
pub(crate) fn set_effect(
    alloc: Global,
    args: &Args<'_>,
    here: InstanceId,
    targets: &mut Targets,
) -> Result<bool, AllocError>
    ensures ok { IfOk result (λ redraw. (d : Devices) (w : Words) → effect_set (effect_named (field_at (codes "EFFECT") args.entry.now)) (λ k i. number_at (codes "VALUE") args.entry.now) here (parts targets.old d w) ≡ goes_on redraw (parts targets.new d w)) }
    ensures cast { IsSameCast targets.old targets.new }
{
    let effect = effect(alloc, args)?;
    Ok(set(effect, number(args, "VALUE"), here, targets))
}
