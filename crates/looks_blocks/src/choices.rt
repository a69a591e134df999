//! The costume rule: what a value asks for (scratch-vm, blocks/scratch3_looks.js, _setCostume, _setBackdrop).

ghost use Rattle.std.specs.Prelude.{◌≡◌, ◌<◌, true, false, bytes_eq, length, pos, position, IfSome, ◌^◌};
ghost use Rattle.scratch_values.specs.Comparison.{numeric};
ghost use Rattle.scratch_values.specs.Value.{text_of};
ghost use Rattle.machine_spec.specs.Costume as machine;
ghost use Rattle.looks_blocks.specs.Choices.{choice_in};

use crate::costume_choice::{index, index_behind};
use operators::Written;
use scratch_number::{Num, of_whole, sub};
use scratch_values::{BoundText, Value, numeric};

// What a value asks for: nothing, an index that is still to be rounded and wrapped, or another one that a word picks.
#[derive(Clone, Copy, Debug)]
pub(crate) enum Choice {
    Stays,
    To(Num),
    Another,
}

// The index of a number, which counts from 1.
fn by_number(number: Option<Num>) -> Choice
    ensures { choice_in result ≡ machine.by_number number }
{
    match number {
        Some(number) => Choice::To(sub(number, of_whole(1))),
        None => Choice::Stays,
    }
}

// The words of the costume rule, and else a number.
fn by_costume_words(text: &str, now: u32, value: &Value) -> Choice
    ensures { choice_in result ≡ machine.by_words false text.now now (machine.by_number (numeric value.now)) }
{
    match text {
        "next costume" => Choice::To(index_behind(now)),
        "previous costume" => Choice::To(of_whole(i64::from(now) - 1)),
        _ => by_number(numeric(value)),
    }
}

// The words of the backdrop rule, and else a number.
fn by_backdrop_words(text: &str, now: u32, value: &Value) -> Choice
    ensures { choice_in result ≡ machine.by_words true text.now now (machine.by_number (numeric value.now)) }
{
    match text {
        "next backdrop" => Choice::To(index_behind(now)),
        "previous backdrop" => Choice::To(of_whole(i64::from(now) - 1)),
        "random backdrop" => Choice::Another,
        _ => by_number(numeric(value)),
    }
}

// The words of one of the two rules, and else a number.
fn by_words(is_backdrop: bool, text: &str, now: u32, value: &Value) -> Choice
    ensures { choice_in result ≡ machine.by_words is_backdrop text.now now (machine.by_number (numeric value.now)) }
{
    if is_backdrop {
        by_backdrop_words(text, now, value)
    } else {
        by_costume_words(text, now, value)
    }
}

// The place of the first costume with a name.
fn place_of(text: &str, names: &[BoundText]) -> Option<usize>
    ensures place { result ≡ position (λ name. bytes_eq name text.now) names.now }
    ensures within { IfSome result (λ place. place < length names.now) }
{
    names.iter().position(|name| name.as_str() == text)
}

// The number of the first costume with a name, from 0.
fn named(text: &str, names: &[BoundText]) -> Option<u32>
    requires { length names.now < 2 ^ 32 }
    ensures { result ≡ position (λ name. bytes_eq name text.now) names.now }
{
    match place_of(text, names) {
        Some(place) => Some(place as u32),
        None => None,
    }
}

// What a text or a truth asks for: a name counts before the words, and these before its number.
fn by_text(is_backdrop: bool, names: &[BoundText], now: u32, value: &Value) -> Choice
    requires { length names.now < 2 ^ 32 }
    ensures { choice_in result ≡ machine.by_name (position (λ name. bytes_eq name (text_of value.now)) names.now) (machine.by_words is_backdrop (text_of value.now) now (machine.by_number (numeric value.now))) }
{
    let text = Written::of(value);
    match named(text.as_str(), names) {
        Some(place) => Choice::To(index(place)),
        None => by_words(is_backdrop, text.as_str(), now, value),
    }
}

// What a value asks for where the costume is `now`: of a text or a truth the first rule that fits.
pub(crate) fn choice_of(is_backdrop: bool, names: &[BoundText], now: u32, value: &Value) -> Choice
    requires { length names.now < 2 ^ 32 }
    ensures { choice_in result ≡ machine.choice is_backdrop names.now now value.now }
{
    match value {
        Value::Number(number) => by_number(Some(*number)),
        Value::Truth(_) => by_text(is_backdrop, names, now, value),
        Value::Text(_) => by_text(is_backdrop, names, now, value),
    }
}
