//! Numbers that are in a range.

ghost use Rattle.std.specs.Prelude.{◌≡◌, ◌&&◌, false, pos, negsuc, slice_get};
ghost use Rattle.std.specs.List.{list_all};
ghost use Rattle.std.specs.Option.{option_map_or};
ghost use Rattle.machine_spec.specs.Effects.{effect_place};
ghost use Rattle.machine_spec.specs.declared.effects.Effect.TheVariants.{Brightness, Ghost};
ghost use Rattle.saved_spec.specs.Rules as rules;

use machine_spec::{BubbleTimer, Effect};
use saved_parts::ToldInstance;
use scratch_number::Num;

const UNIT: i64 = 1_000_000;

// Whether a number is finite, with millionths from one number to another.
pub(crate) fn is_between(low: i64, high: i64, number: Num) -> bool
    ensures { result ≡ rules.is_between low high number }
{
    match number {
        Num::Fixed(raw) => {
            let millionths = raw.get();
            low <= millionths && millionths <= high
        }
        Num::Inf => false,
        Num::NegInf => false,
        Num::Nan => false,
    }
}

// Whether a time may come, or never comes.
fn is_due_time(due: Num) -> bool
    ensures { result ≡ rules.is_due_time due }
{
    match due {
        Num::Fixed(raw) => 0 <= raw.get(),
        Num::Inf => true,
        Num::NegInf => false,
        Num::Nan => false,
    }
}

// Whether every size is from 0 to 10000.
pub(crate) fn are_sized(instances: &[ToldInstance]) -> bool
    ensures { result ≡ list_all (λ i. rules.is_between (pos 0) (pos 10000000000) i.size) instances.now }
{
    instances
        .iter()
        .all(|instance| is_between(0, 10_000 * UNIT, instance.size))
}

// Whether every direction is from -179 to below 181.
pub(crate) fn are_directed(instances: &[ToldInstance]) -> bool
    ensures { result ≡ list_all (λ i. rules.is_between (negsuc 178999999) (pos 180999999) i.direction) instances.now }
{
    instances.iter().all(|instance| is_between(-179 * UNIT, 181 * UNIT - 1, instance.direction))
}

// Whether the brightness and the ghost of an instance are in their ranges.
fn has_effects(instance: &ToldInstance) -> bool
    ensures { result ≡ (option_map_or (rules.is_between (negsuc 99999999) (pos 100000000)) (slice_get instance.now.effects (effect_place Brightness)) false
        && option_map_or (rules.is_between (pos 0) (pos 100000000)) (slice_get instance.now.effects (effect_place Ghost)) false) }
{
    is_between(
        -100 * UNIT,
        100 * UNIT,
        instance.effects.get(Effect::Brightness),
    ) && is_between(0, 100 * UNIT, instance.effects.get(Effect::Ghost))
}

// Whether every ghost is from 0 to 100, every brightness from -100 to 100.
pub(crate) fn have_effects(instances: &[ToldInstance]) -> bool
    ensures { result ≡ list_all (λ i. option_map_or (rules.is_between (negsuc 99999999) (pos 100000000)) (slice_get i.effects (effect_place Brightness)) false
        && option_map_or (rules.is_between (pos 0) (pos 100000000)) (slice_get i.effects (effect_place Ghost)) false) instances.now }
{
    instances.iter().all(|instance| has_effects(instance))
}

// Whether an instance stands at 0, 0 in size 100 and direction 90, and is visible.
pub(crate) fn is_as_the_stage(instance: &ToldInstance) -> bool
    ensures { result ≡ (rules.is_between (pos 0) (pos 0) instance.now.x && rules.is_between (pos 0) (pos 0) instance.now.y && rules.is_between (pos 100000000) (pos 100000000) instance.now.size
        && rules.is_between (pos 90000000) (pos 90000000) instance.now.direction && instance.now.visible) }
{
    is_between(0, 0, instance.x)
        && is_between(0, 0, instance.y)
        && is_between(100 * UNIT, 100 * UNIT, instance.size)
        && is_between(90 * UNIT, 90 * UNIT, instance.direction)
        && instance.visible
}

// Whether every timer may come, or never comes.
pub(crate) fn are_due(timers: &[BubbleTimer]) -> bool
    ensures { result ≡ list_all (λ x. rules.is_due_time x.due) timers.now }
{
    timers.iter().all(|timer| is_due_time(timer.due))
}
