//! The contents of a list as a text.

ghost use Rattle.std.specs.Prelude.{◌≡◌, ◌≤◌, ◌*◌, ◌∷◌, ◌++◌, IfOk, OnOk, flat_map, length, map, string_bytes};
ghost use Rattle.std.specs.List.{concat, join_with_byte, list_all, sum_by};
ghost use Rattle.scratch_values.specs.Value.{text_of};
ghost use Rattle.machine_spec.specs.DataRows.{most_items};
ghost use Rattle.machine_spec.specs.Outcome.{Goes, StopIs};
ghost use Rattle.machine_spec.specs.Texts as machine;
ghost use Rattle.operators.specs.Pieces.{piece};

use crate::texts::has_one_char;
use crate::value_texts::Written;
use project_json::Text;
use scratch_values::{BoundText, LONGEST, Value};
use script_words::Stop;
use std::alloc::{AllocError, Global};

// Whether a value is a text of one character.
fn is_letter(value: &Value) -> bool
    ensures { result ≡ machine.is_letter value.now }
{
    match value {
        Value::Number(_) => false,
        Value::Truth(_) => false,
        Value::Text(text) => has_one_char(text.as_str()),
    }
}

// Whether each item is a text of one character.
fn are_letters(items: &[Value]) -> bool
    ensures { result ≡ list_all machine.is_letter items.now }
{
    items.iter().all(|item| is_letter(item))
}

// How long the text of an item is, with a space in front or not.
fn item_length(item: &Value, spaced: bool) -> u64
    ensures value { result ≡ length (piece spaced item.now) }
    ensures small { result ≤ 1048577 }
{
    let text = Written::of(item);
    let length = text.as_str().len() as u64;
    if spaced { length + 1 } else { length }
}

// How long the texts of items are, each with a space in front or not.
fn items_length(items: &[Value], spaced: bool) -> u64
    requires { length items.now ≤ most_items }
    ensures value { result ≡ sum_by (λ v. length (piece spaced v)) items.now }
    ensures small { result ≤ 200000 * 1048577 }
{
    let mut total = 0;
    for item in items {
        total += item_length(item, spaced);
    }
    total
}

// Appends the text of an item, with a space in front or not. The only error is want of memory.
fn push_item(text: &mut String, item: &Value, spaced: bool) -> Result<(), AllocError>
    ensures { OnOk result (string_bytes text.new ≡ string_bytes text.old ++ piece spaced item.now) }
{
    let written = Written::of(item);
    if spaced {
        text.push(' ')?;
    }
    text.push_str(written.as_str())
}

// Appends the texts of items, each with a space in front or not. The only error is want of memory.
fn push_items(text: &mut String, items: &[Value], spaced: bool) -> Result<(), AllocError>
    ensures { OnOk result (string_bytes text.new ≡ string_bytes text.old ++ flat_map (piece spaced) items.now) }
{
    for item in items {
        push_item(text, item, spaced)?;
    }
    Ok(())
}

// A text, and behind it those of items, each with a space in front or not. `Text` exactly where that is too long for a
// value; the only other error is want of memory.
fn followed(alloc: Global, first: &str, items: &[Value], spaced: bool) -> Result<Value, Stop>
    requires { length items.now ≤ most_items }
    ensures ok { IfOk result (λ v. machine.text_value (first.now ++ flat_map (piece spaced) items.now) ≡ Goes v) }
    ensures stop { StopIs result (machine.text_value (first.now ++ flat_map (piece spaced) items.now)) }
{
    let length = first.len() as u64 + items_length(items, spaced);
    if length > LONGEST as u64 {
        return Err(Stop::Text { length });
    }
    let mut text = String::with_capacity(alloc, length as usize)?;
    text.push_str(first)?;
    push_items(&mut text, items, spaced)?;
    let text = BoundText::from_short(alloc, Text::from_string(text))?;
    Ok(Value::Text(text))
}

// A value and items behind it, with a space between each two. `Text` exactly where that is too long for a value; the only
// other error is want of memory.
fn first_and_rest(alloc: Global, first: &Value, rest: &[Value]) -> Result<Value, Stop>
    requires { length rest.now ≤ most_items }
    ensures ok { IfOk result (λ v. machine.text_value (join_with_byte 32 (map text_of (first.now ∷ rest.now))) ≡ Goes v) }
    ensures stop { StopIs result (machine.text_value (join_with_byte 32 (map text_of (first.now ∷ rest.now)))) }
{
    let first = Written::of(first);
    followed(alloc, first.as_str(), rest, true)
}

// The items with a space between each two. `Text` exactly where that is too long for a value; the only other error is want
// of memory.
fn apart(alloc: Global, items: &[Value]) -> Result<Value, Stop>
    requires { length items.now ≤ most_items }
    ensures ok { IfOk result (λ v. machine.text_value (join_with_byte 32 (map text_of items.now)) ≡ Goes v) }
    ensures stop { StopIs result (machine.text_value (join_with_byte 32 (map text_of items.now))) }
{
    match items {
        [] => followed(alloc, "", items, true),
        [first, rest @ ..] => first_and_rest(alloc, first, rest),
    }
}

// The items side by side. `Text` exactly where that is too long for a value; the only other error is want of memory.
fn together(alloc: Global, items: &[Value]) -> Result<Value, Stop>
    requires { length items.now ≤ most_items }
    ensures ok { IfOk result (λ v. machine.text_value (concat (map text_of items.now)) ≡ Goes v) }
    ensures stop { StopIs result (machine.text_value (concat (map text_of items.now))) }
{
    followed(alloc, "", items, false)
}

/// The contents of a list: the items side by side where each is a text of one character, else with a space between each two
/// (scratch-vm, blocks/scratch3_data.js, getListContents). `Text` exactly where that is too long for a value; the only other
/// error is want of memory.
pub fn contents(alloc: Global, items: &[Value]) -> Result<Value, Stop>
    requires { length items.now ≤ most_items }
    ensures ok { IfOk result (λ v. machine.text_value (machine.contents_text items.now) ≡ Goes v) }
    ensures stop { StopIs result (machine.text_value (machine.contents_text items.now)) }
{
    if are_letters(items) {
        together(alloc, items)
    } else {
        apart(alloc, items)
    }
}
