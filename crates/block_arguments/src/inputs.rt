//! The inputs of a block.

ghost use Rattle.std.specs.Prelude.{◌≡◌, unwrap_or, IfOk};
ghost use Rattle.scratch_values.specs.Named.{item_named};
ghost use Rattle.machine_spec.specs.Stores.{from_zero};
ghost use Rattle.machine_spec.specs.View.{number_at, text_at, truth_at, value_at};

use scratch_number::{Num, is_less, of_whole};
use scratch_values::{Args, BoundText, Value, to_number, to_text, to_truth};
use std::alloc::{AllocError, Global};

/// The number of an input; 0 where there is no such input.
#[inline]
pub fn number(args: &Args<'_>, input: &str) -> Num
    ensures { result ≡ number_at input.now args.now }
{
    match args.value(input) {
        Some(value) => to_number(value),
        None => of_whole(0),
    }
}

/// Whether an input holds; it does not where there is no such input.
#[inline]
pub fn truth(args: &Args<'_>, input: &str) -> bool
    ensures { result ≡ truth_at input.now args.now }
{
    match args.value(input) {
        Some(value) => to_truth(value),
        None => false,
    }
}

/// The value of an input; 0 where there is no such input. The only error is want of memory.
#[inline]
pub fn value(args: &Args<'_>, input: &str) -> Result<Value, AllocError>
    ensures { IfOk result (λ v. v ≡ value_at input.now args.now) }
{
    match args.value(input) {
        Some(value) => Ok(value.clone()?),
        None => Ok(Value::Number(of_whole(0))),
    }
}

/// The text of an input; `0` where there is no such input. The only error is want of memory.
pub fn text(alloc: Global, args: &Args<'_>, input: &str) -> Result<BoundText, AllocError>
    ensures { IfOk result (λ t. t ≡ text_at input.now args.now) }
{
    match args.value(input) {
        Some(value) => to_text(alloc, value),
        None => to_text(alloc, &Value::Number(of_whole(0))),
    }
}

/// The value of an input, or what stands for one that is absent.
#[inline]
pub fn given<'v>(args: &'v Args<'_>, input: &str, absent: &'v Value) -> &'v Value
    ensures { result.now ≡ unwrap_or (item_named input.now args.now.values) absent.now }
{
    match args.value(input) {
        Some(value) => value,
        None => absent,
    }
}

/// The larger of 0 and a number; 0 where it is not a number.
pub fn from_zero(n: Num) -> Num
    ensures { result ≡ from_zero n }
{
    let above = n;
    if is_less(of_whole(0), above) {
        n
    } else {
        of_whole(0)
    }
}
