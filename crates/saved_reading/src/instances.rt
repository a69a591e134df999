//! Instances with their variables and lists.

ghost use Rattle.std.specs.Prelude.{ℕ, Bool, List, ◌≡◌, map, length};
ghost use Rattle.saved_parts.specs.Telling.{bubble_of, standing_of};
ghost use Rattle.saved_spec.specs.InstanceShapes as shape;
ghost use Rattle.saved_spec.specs.InstanceShapes.{Standing, rises, rises_above, style_numbered};
ghost use Rattle.saved_spec.specs.Shapes as parts;
ghost use Rattle.scratch_values.specs.Named.{item_named};
ghost use Rattle.saved_reading.specs.Words.{say_words};

use crate::parts::{Shaped, each_item, found, member, part, row, table};
use json_shapes::{Fault, Place};
use lists::ListOf;
use machine_spec::{Effect, Effects, Say, Style};
use saved_parts::{ToldBubble, ToldEdges, ToldInstance};
use scratch_number::Num;
use serde_json::Value;
use std::alloc::Global;

// A kind of bubble, by its word.
fn say_named(word: &str) -> Option<Say>
    ensures { result ≡ item_named word.now say_words }
{
    match word {
        "say" => Some(Say::Say),
        "think" => Some(Say::Think),
        _ => None,
    }
}

impl Shaped for Say {
    ghost use Rattle.machine_spec.specs.declared.bubble.Say.{Say};

    ghost Seen = { Say };

    ghost seen = { λ k. k };

    ghost shape = { shape.say };

    fn read(alloc: Global, place: &Place, value: &Value) -> Result<Say, Fault> {
        found(alloc, place, value.as_str().and_then(say_named))
    }
}

impl Shaped for ToldBubble {
    ghost use Rattle.machine_spec.specs.declared.bubble.Bubble.{Bubble};

    ghost Seen = { Bubble };

    ghost seen = { bubble_of };

    ghost shape = { shape.bubble };

    fn read(alloc: Global, place: &Place, value: &Value) -> Result<ToldBubble, Fault> {
        let items = row(alloc, place, value, 3)?;
        let kind = part(alloc, place, items, 0)?;
        let text = part(alloc, place, items, 1)?;
        let usage = part(alloc, place, items, 2)?;
        Ok(ToldBubble { kind, text, usage })
    }
}

impl Shaped for (u64, bool) {
    ghost Seen = { ℕ × Bool };

    ghost seen = { λ e. e };

    ghost shape = { shape.edge };

    fn read(alloc: Global, place: &Place, value: &Value) -> Result<(u64, bool), Fault> {
        let items = row(alloc, place, value, 2)?;
        let block = part(alloc, place, items, 0)?;
        let was = part(alloc, place, items, 1)?;
        Ok((block, was))
    }
}

// Each block is above the one before it, and the first above this number.
fn rises_above(above: u64, edges: &[(u64, bool)]) -> bool
    ensures { result ≡ rises_above above (map (λ e. e.0) edges.now) }
{
    let mut last = above;
    for edge in edges {
        if edge.0 <= last {
            return false;
        }
        last = edge.0;
    }
    true
}

// Each block is above the one before it.
fn rises(edges: &[(u64, bool)]) -> bool
    ensures { result ≡ rises (map (λ e. e.0) edges.now) }
{
    match edges {
        [first, rest @ ..] => rises_above(first.0, rest),
        [] => true,
    }
}

// Edges whose blocks rise.
#[derive(Drop)]
struct Rising(ToldEdges);

impl Shaped for Rising {
    ghost Seen = { List (ℕ × Bool) };

    ghost seen = { λ r. r.0 };

    ghost shape = { shape.edges };

    fn read(alloc: Global, place: &Place, value: &Value) -> Result<Rising, Fault> {
        let edges: ToldEdges = ListOf::read(alloc, place, value)?;
        if rises(edges.as_slice()) {
            Ok(Rising(edges))
        } else {
            Err(place.fault(alloc))
        }
    }
}

fn style_numbered(number: u64) -> Option<Style>
    ensures { result ≡ style_numbered number }
{
    match number {
        0 => Some(Style::AllAround),
        1 => Some(Style::LeftRight),
        2 => Some(Style::DontRotate),
        _ => None,
    }
}

impl Shaped for Style {
    ghost use Rattle.machine_spec.specs.declared.instance.Style.{Style};

    ghost Seen = { Style };

    ghost seen = { λ s. s };

    ghost shape = { shape.style };

    fn read(alloc: Global, place: &Place, value: &Value) -> Result<Style, Fault> {
        found(alloc, place, value.as_u64().and_then(style_numbered))
    }
}

// The effects that have these seven numbers.
fn effects_of(numbers: &[Num]) -> Effects
    requires { length numbers.now ≡ 7 }
    ensures { result ≡ numbers.now }
{
    let mut effects = Effects::none();
    effects.set(Effect::Color, numbers[0]);
    effects.set(Effect::Fisheye, numbers[1]);
    effects.set(Effect::Whirl, numbers[2]);
    effects.set(Effect::Pixelate, numbers[3]);
    effects.set(Effect::Mosaic, numbers[4]);
    effects.set(Effect::Brightness, numbers[5]);
    effects.set(Effect::Ghost, numbers[6]);
    effects
}

impl Shaped for Effects {
    ghost use Rattle.scratch_number.specs.declared.number.Num.{Num};

    ghost Seen = { List Num };

    ghost seen = { λ e. e };

    ghost shape = { shape.effects };

    fn read(alloc: Global, place: &Place, value: &Value) -> Result<Effects, Fault> {
        let items = row(alloc, place, value, 7)?;
        let numbers = each_item(alloc, place, items)?;
        Ok(effects_of(numbers.as_slice()))
    }
}

impl Shaped for ToldInstance {
    ghost Seen = { Standing };

    ghost seen = { standing_of };

    ghost shape = { shape.instance };

    fn read(alloc: Global, place: &Place, value: &Value) -> Result<ToldInstance, Fault> {
        table(alloc, place, value)?;
        let bubble = member(alloc, place, value, "bubble")?;
        let costume = member(alloc, place, value, "costume")?;
        let direction = member(alloc, place, value, "direction")?;
        let size = member(alloc, place, value, "size")?;
        let x = member(alloc, place, value, "x")?;
        let y = member(alloc, place, value, "y")?;
        let Rising(edges) = member(alloc, place, value, "edges")?;
        let effects = member(alloc, place, value, "effects")?;
        let lists = member(alloc, place, value, "lists")?;
        let number = member(alloc, place, value, "number")?;
        let of = member(alloc, place, value, "of")?;
        let style = member(alloc, place, value, "style")?;
        let values = member(alloc, place, value, "variables")?;
        let visible = member(alloc, place, value, "visible")?;
        Ok(ToldInstance {
            number,
            of,
            x,
            y,
            direction,
            size,
            visible,
            costume,
            style,
            effects,
            bubble,
            edges,
            values,
            lists,
        })
    }
}
