//! Changes of one instance.

ghost use Rattle.std.specs.Prelude.{◌≡◌, map, IfOk};
ghost use Rattle.machine_spec.specs.Effects.{effect_place};
ghost use Rattle.machine_spec.specs.Looks.{effect_kept as kept_effect};
ghost use Rattle.machine_spec.specs.Numbers.{kept_in};
ghost use Rattle.machine_spec.specs.Stopping.{cleared, copied as copy_of};
ghost use Rattle.machine_spec.specs.Line.{without_edges};
ghost use Rattle.targets.specs.Changes.{changed_by};

use machine_spec::{Bubble, BubbleText, Edges, Effect, Effects, Instance, InstanceId, Say, Style};
use scratch_number::{Num, is_less, of_whole};
use std::alloc::{AllocError, Global};
use std::mem;
use target_records::{costume_index, direction_after, size_kept};

// What is changed of an instance.
#[derive(Clone, Copy, Debug)]
pub(crate) enum Change {
    Place { x: Num, y: Num },
    Direction(Num),
    Size(Num),
    Costume { index: Num, costumes: u32 },
    Effect(Effect, Num),
    NoEffects,
    Visible(bool),
    Style(Style),
}

// Makes a change, and tells whether the instance was visible.
pub(crate) fn make(instance: &mut Instance, change: Change) -> bool
    ensures visible { result ≡ instance.old.visible }
    ensures new { instance.new ≡ changed_by change instance.old }
{
    let visible = instance.visible;
    match change {
        Change::Place { x, y } => {
            instance.x = x;
            instance.y = y;
        }
        Change::Direction(direction) => {
            instance.direction = direction_after(direction, instance.direction);
        }
        Change::Size(size) => instance.size = size_kept(size),
        Change::Costume { index, costumes } => instance.costume = costume_index(costumes, index),
        Change::Effect(effect, number) => instance.effects.set(effect, effect_kept(effect, number)),
        Change::NoEffects => instance.effects = Effects::none(),
        Change::Visible(visible) => instance.visible = visible,
        Change::Style(style) => instance.style = style,
    }
    visible
}

// The number of an effect in its range: ghost from 0 to 100, brightness from -100 to 100.
fn effect_kept(effect: Effect, number: Num) -> Num
    ensures { result ≡ kept_effect (effect_place effect) number }
{
    match effect {
        Effect::Ghost => between(of_whole(0), of_whole(100), number),
        Effect::Brightness => between(of_whole(-100), of_whole(100), number),
        Effect::Color => number,
        Effect::Fisheye => number,
        Effect::Whirl => number,
        Effect::Pixelate => number,
        Effect::Mosaic => number,
    }
}

// A number kept between two others.
fn between(low: Num, high: Num, number: Num) -> Num
    ensures { result ≡ kept_in low high number }
{
    let wanted = number;
    let least = low;
    if is_less(wanted, least) {
        return low;
    }
    let wanted = number;
    let most = high;
    if is_less(most, wanted) {
        return high;
    }
    number
}

// Takes the effects and the text of the bubble away.
pub(crate) fn clear(instance: &mut Instance, alloc: Global)
    ensures { instance.new ≡ cleared instance.old }
{
    instance.effects = Effects::none();
    instance.bubble.text = BubbleText::new(alloc);
}

// Sets the bubble, and tells whether the instance is visible.
pub(crate) fn say(instance: &mut Instance, bubble: Bubble) -> bool
    ensures visible { result ≡ instance.old.visible }
    ensures new { instance.new ≡ record instance.old { bubble = bubble } }
{
    instance.bubble = bubble;
    instance.visible
}

// Puts recorded values in place of those of an instance, and gives these.
pub(crate) fn exchange(instance: &mut Instance, edges: Edges) -> Edges
    ensures old { result ≡ instance.old.edges }
    ensures new { instance.new ≡ record instance.old { edges = edges } }
{
    mem::replace(&mut instance.edges, edges)
}

// Forgets the recorded values.
fn forget(instance: &mut Instance, alloc: Global)
    ensures { instance.new ≡ without_edges instance.old }
{
    instance.edges = Edges::new(alloc);
}

// Forgets the recorded values of all instances.
pub(crate) fn forget_all(instances: &mut [Instance], alloc: Global)
    ensures { instances.new ≡ map without_edges instances.old }
{
    for place in 0..instances.len() {
        forget(&mut instances[place], alloc);
    }
}

// Takes the effects and the texts of the bubbles of all instances away.
pub(crate) fn clear_all(instances: &mut [Instance], alloc: Global)
    ensures { instances.new ≡ map cleared instances.old }
{
    for place in 0..instances.len() {
        clear(&mut instances[place], alloc);
    }
}

// A copy of an instance under another number, with a bubble that has said nothing. The only error is want of memory.
pub(crate) fn copied(
    instance: &Instance,
    number: InstanceId,
    alloc: Global,
) -> Result<Instance, AllocError>
    ensures { IfOk result (λ copy. copy ≡ copy_of number instance.now) }
{
    let edges = instance.edges.clone()?;
    Ok(Instance {
        number,
        of: instance.of,
        x: instance.x,
        y: instance.y,
        direction: instance.direction,
        size: instance.size,
        visible: instance.visible,
        costume: instance.costume,
        style: instance.style,
        effects: instance.effects,
        bubble: Bubble {
            kind: Say::Say,
            text: BubbleText::new(alloc),
            usage: 0,
        },
        edges,
    })
}
