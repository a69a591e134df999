//! What operators make of values that are held.

ghost use Rattle.std.specs.Prelude.{◌≡◌, ◌++◌, IfOk};
ghost use Rattle.scratch_values.specs.Casts as casts;
ghost use Rattle.scratch_values.specs.declared.value.Value.TheVariants as values;
ghost use Rattle.scratch_values.specs.Held.{held};
ghost use Rattle.scratch_values.specs.Value.{text_of};
ghost use Rattle.machine_spec.specs.Outcome.{Goes, StopIs};
ghost use Rattle.machine_spec.specs.Texts.{text_value};
ghost use Rattle.evaluate.specs.Ways as ways;

use crate::ways::{Comparison, compared};
use operators::joined;
use scratch_number::Num;
use scratch_values::{Held, Value, to_number, to_truth};
use script_words::Stop;
use std::alloc::{AllocError, Global};

/// What a value counts in a sum.
#[inline(always)]
pub(crate) fn number_in(value: Value) -> Num
    ensures { result ≡ casts.number value }
{
    to_number(&value)
}

/// What the number that an operator makes counts in a sum.
#[inline(always)]
pub(crate) fn counted(number: Num) -> Num
    ensures { result ≡ casts.number (values.Number number) }
{
    to_number(&Value::Number(number))
}

/// Whether a value holds.
#[inline(always)]
pub(crate) fn truth_in(value: Value) -> bool
    ensures { result ≡ casts.truth value }
{
    to_truth(&value)
}

/// Whether a comparison holds. The only error is want of memory.
#[inline(always)]
pub(crate) fn held_compared(
    alloc: Global,
    comparison: Comparison,
    a: Held<'_>,
    b: Held<'_>,
) -> Result<bool, AllocError>
    ensures { IfOk result (λ holds. holds ≡ ways.compared comparison (held a.entry) (held b.entry)) }
{
    compared(alloc, comparison, a.get(), b.get())
}

/// The texts of two values joined. `Text` exactly where they are too long for a value; the only other error is want of
/// memory.
#[inline(always)]
pub(crate) fn held_joined(alloc: Global, a: Held<'_>, b: Held<'_>) -> Result<Value, Stop>
    ensures ok { IfOk result (λ v. text_value (text_of (held a.entry) ++ text_of (held b.entry)) ≡ Goes v) }
    ensures stop { StopIs result (text_value (text_of (held a.entry) ++ text_of (held b.entry))) }
{
    joined(alloc, a.get(), b.get())
}
