//! Texts that operators make, and their characters.

ghost use Rattle.std.specs.Prelude.{◌≡◌, ◌==◌, ◌++◌, ◌<◌, [], ◌^◌, IfOk, length, chars, pos, slice_get};
ghost use Rattle.scratch_number.specs.Number.{floor_by};
ghost use Rattle.scratch_values.specs.Index.{place_of, whole_place};
ghost use Rattle.scratch_values.specs.Comparison.{folded_of};
ghost use Rattle.scratch_values.specs.Value.{text_of};
ghost use Rattle.machine_spec.specs.Numbers.{whole};
ghost use Rattle.machine_spec.specs.Outcome.{Goes, StopIs};
ghost use Rattle.machine_spec.specs.Reporters as machine;
ghost use Rattle.machine_spec.specs.Texts.{char_text, has_part, letter_at, text_value};
ghost use Rattle.scratch_values.specs.declared.value.Value.TheVariants as values;

use crate::value_texts::Written;
use project_json::Text;
use scratch_number::{Num, of_whole};
use scratch_values::{BoundText, LONGEST, Value, contains};
use script_words::Stop;
use std::alloc::{AllocError, Global};

/// The texts of two values joined. `Text` exactly where they are too long for a value; the only other error is want of memory.
pub fn joined(alloc: Global, a: &Value, b: &Value) -> Result<Value, Stop>
    ensures ok { IfOk result (λ v. text_value (text_of a.now ++ text_of b.now) ≡ Goes v) }
    ensures stop { StopIs result (text_value (text_of a.now ++ text_of b.now)) }
{
    let first = Written::of(a);
    let second = Written::of(b);
    both(alloc, first.as_str(), second.as_str())
}

// A text and another one.
fn both(alloc: Global, first: &str, second: &str) -> Result<Value, Stop>
    ensures ok { IfOk result (λ v. text_value (first.now ++ second.now) ≡ Goes v) }
    ensures stop { StopIs result (text_value (first.now ++ second.now)) }
{
    let length = first.len() + second.len();
    if length > LONGEST {
        return Err(Stop::Text {
            length: length as u64,
        });
    }
    let mut text = String::with_capacity(alloc, length)?;
    text.push_str(first)?;
    text.push_str(second)?;
    let text = BoundText::from_short(alloc, Text::from_string(text))?;
    Ok(Value::Text(text))
}

// How many characters a text has.
fn count(text: &str) -> usize
    ensures count { result ≡ length (chars text.now) }
    ensures small { result < 2 ^ 63 }
{
    text.chars().count()
}

// Whether a text has one character.
pub(crate) fn has_one_char(text: &str) -> bool
    ensures { result ≡ (length (chars text.now) == 1) }
{
    count(text) == 1
}

/// How many characters a value's text has. It takes no memory.
pub fn char_count(value: &Value) -> Num
    ensures { result ≡ whole (pos (length (chars (text_of value.now)))) }
{
    let text = Written::of(value);
    of_whole(count(text.as_str()) as i64)
}

// The character of a text behind so many others; `None` where it has not so many.
fn char_behind(text: &str, others: usize) -> Option<char>
    ensures { result ≡ slice_get (chars text.now) others }
{
    text.chars().nth(others)
}

// The character of a text at a place in millionths, from 1; `None` at no place.
fn char_at_millionths(text: &str, millionths: i64) -> Option<char>
    ensures { char_text result ≡ letter_at (whole_place (floor_by millionths 1000000) (length (chars text.now))) text.now }
{
    if millionths < 1_000_000 {
        return None;
    }
    char_behind(text, (millionths as u64 / 1_000_000 - 1) as usize)
}

// The character of a text at a place, from 1, without its fraction; `None` at no place.
fn char_at(text: &str, place: Num) -> Option<char>
    ensures { char_text result ≡ letter_at (place_of place (length (chars text.now))) text.now }
{
    match place {
        Num::Fixed(raw) => char_at_millionths(text, raw.get()),
        Num::Inf => None,
        Num::NegInf => None,
        Num::Nan => None,
    }
}

/// The empty text as a value. The only error is want of memory.
pub fn empty_text(alloc: Global) -> Result<Value, AllocError>
    ensures { IfOk result (λ v. v ≡ values.Text []) }
{
    let text = BoundText::from_short(alloc, Text::new(alloc))?;
    Ok(Value::Text(text))
}

// The text of a character, and the empty text of none. The only error is want of memory.
fn char_value(alloc: Global, letter: Option<char>) -> Result<Value, AllocError>
    ensures { IfOk result (λ v. v ≡ values.Text (char_text letter)) }
{
    let mut text = String::new(alloc);
    match letter {
        Some(letter) => text.push(letter)?,
        None => {}
    }
    let text = BoundText::from_short(alloc, Text::from_string(text))?;
    Ok(Value::Text(text))
}

/// The character of a value's text at a place, counted from 1, without the place's fraction; the empty text at no place. The
/// only error is want of memory.
pub fn letter(alloc: Global, value: &Value, place: Num) -> Result<Value, AllocError>
    ensures { IfOk result (λ v. v ≡ machine.letter (text_of value.now) place) }
{
    let text = Written::of(value);
    char_value(alloc, char_at(text.as_str(), place))
}

/// Whether the text of b stands within the text of a, both without case. The only error is want of memory.
pub fn has_text(alloc: Global, a: &Value, b: &Value) -> Result<bool, AllocError>
    ensures { IfOk result (λ found. found ≡ has_part (folded_of a.now) (folded_of b.now)) }
{
    contains(alloc, a, b)
}
