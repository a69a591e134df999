//! Whether two values are equal, without memory.

ghost use Rattle.std.specs.Prelude.{◌≡◌, position, IfSome, ◌<◌, length};
ghost use Rattle.std.specs.Cmp.Lexicographic.{slice_cmp};
ghost use Rattle.std.specs.List.{list_any};
ghost use Rattle.std.specs.Ordering.{is_eq, nat_cmp};
ghost use Rattle.scratch_values.specs.Comparison as comparison;
ghost use Rattle.scratch_values.specs.Folding.{folded_chars};
ghost use Rattle.machine_spec.specs.Reporters as machine;

use crate::value_texts::Written;
use caseless::default_caseless_match_str;
use scratch_number::{Num, order};
use scratch_values::{Value, numeric};
use std::cmp::Ordering;

// Whether two texts are the same without case.
fn is_same_text(a: &str, b: &str) -> bool
    ensures { result ≡ is_eq (slice_cmp nat_cmp (folded_chars a.now) (folded_chars b.now)) }
{
    default_caseless_match_str(a, b)
}

// Whether the texts of two values are the same without case.
fn has_same_text(a: &Value, b: &Value) -> bool
    ensures { result ≡ is_eq (comparison.text_order a.now b.now) }
{
    let a = Written::of(a);
    let b = Written::of(b);
    is_same_text(a.as_str(), b.as_str())
}

// Whether two numbers are the same.
fn is_same_number(a: Num, b: Num) -> bool
    ensures { result ≡ is_eq (comparison.number_order a b) }
{
    match order(a, b) {
        Some(order) => matches!(order, Ordering::Equal),
        None => true,
    }
}

// Whether a value is equal to another one, whose number in a comparison is at hand.
fn is_equal_to(a: &Value, b: &Value, number: Option<Num>) -> bool
    requires { number ≡ comparison.numeric b.now }
    ensures { result ≡ machine.is_equal a.now b.now }
{
    match numeric(a).zip(number) {
        Some((x, y)) => is_same_number(x, y),
        None => has_same_text(a, b),
    }
}

/// Whether two values are equal: as numbers where both sides have one, else their texts without case. It takes no memory.
pub fn is_equal(a: &Value, b: &Value) -> bool
    ensures { result ≡ machine.is_equal a.now b.now }
{
    is_equal_to(a, b, numeric(b))
}

/// The first place of an item that is equal to a value, counted from 0; `None` where no item is. It takes no memory.
pub fn place_of(value: &Value, items: &[Value]) -> Option<usize>
    ensures place { result ≡ position (λ i. machine.is_equal i value.now) items.now }
    ensures within { IfSome result (λ k. k < length items.now) }
{
    let number = numeric(value);
    items
        .iter()
        .position(|item| is_equal_to(item, value, number))
}

/// Whether an item is equal to a value. It takes no memory.
pub fn is_among(value: &Value, items: &[Value]) -> bool
    ensures { result ≡ list_any (λ i. machine.is_equal i value.now) items.now }
{
    let number = numeric(value);
    items.iter().any(|item| is_equal_to(item, value, number))
}
