//! Numbers, truths and texts.

ghost use Rattle.std.specs.Prelude.{ℕ, ℤ, Bool, List, ◌≡◌};
ghost use Rattle.saved_spec.specs.Shapes as shape;
ghost use Rattle.saved_spec.specs.Shapes.{millionths, num_words};
ghost use Rattle.scratch_values.specs.Named.{item_named};

use crate::parts::{Shaped, found};
use json_shapes::{Fault, Place};
use project_json::Text;
use scratch_number::{Num, Raw};
use serde_json::Value;
use std::alloc::Global;

impl Shaped for u64 {
    ghost Seen = { ℕ };

    ghost seen = { λ n. n };

    ghost shape = { shape.whole };

    fn read(alloc: Global, place: &Place, value: &Value) -> Result<u64, Fault> {
        found(alloc, place, value.as_u64())
    }
}

impl Shaped for i64 {
    ghost Seen = { ℤ };

    ghost seen = { λ z. z };

    ghost shape = { shape.signed };

    fn read(alloc: Global, place: &Place, value: &Value) -> Result<i64, Fault> {
        found(alloc, place, value.as_i64())
    }
}

impl Shaped for bool {
    ghost Seen = { Bool };

    ghost seen = { λ b. b };

    ghost shape = { shape.truth };

    fn read(alloc: Global, place: &Place, value: &Value) -> Result<bool, Fault> {
        found(alloc, place, value.as_bool())
    }
}

impl Shaped for Text {
    ghost Seen = { List ℕ };

    ghost seen = { λ t. t };

    ghost shape = { shape.text };

    fn read(alloc: Global, place: &Place, value: &Value) -> Result<Text, Fault> {
        match value.as_str() {
            Some(text) => Ok(Text::from_str(alloc, text)?),
            None => Err(place.fault(alloc)),
        }
    }
}

// What is not finite, by its word.
fn num_named(word: &str) -> Option<Num>
    ensures { result ≡ item_named word.now num_words }
{
    match word {
        "inf" => Some(Num::Inf),
        "-inf" => Some(Num::NegInf),
        "nan" => Some(Num::Nan),
        _ => None,
    }
}

// A finite number.
fn finite(size: i64) -> Option<Num>
    ensures { result ≡ millionths size }
{
    match Raw::new(size) {
        Some(raw) => Some(Num::Fixed(raw)),
        None => None,
    }
}

impl Shaped for Num {
    ghost use Rattle.scratch_number.specs.declared.number.Num.{Num};

    ghost Seen = { Num };

    ghost seen = { λ n. n };

    ghost shape = { shape.num };

    fn read(alloc: Global, place: &Place, value: &Value) -> Result<Num, Fault> {
        let not_finite = value.as_str().and_then(num_named);
        let number = not_finite.or(value.as_i64().and_then(finite));
        found(alloc, place, number)
    }
}
