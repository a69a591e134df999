//! The texts of bubbles.

ghost use Rattle.std.specs.Prelude.{◌≡◌, ◌≤◌, ◌++◌, ◌==◌, ◌%◌, ◌&&◌, nat_le, not, unsigned_abs, pos, string_bytes, IfOk, IsTrue};
ghost use Rattle.scratch_number.specs.Number.{limit, near, near_size};
ghost use Rattle.scratch_values.specs.declared.value.Value.TheVariants as values;
ghost use Rattle.machine_spec.specs.Texts as machine;

use machine_spec::BubbleText;
use operators::Written;
use scratch_number::{Num, NumText, Raw, write_text};
use scratch_values::Value;
use std::alloc::{AllocError, Global};

// Whether so many millionths have a fraction and are at least 0.01 in size.
fn is_shortened(millionths: i64) -> bool
    ensures value { result ≡ (nat_le 10000 (unsigned_abs millionths) && not (unsigned_abs millionths % 1000000 == 0)) }
    ensures size { IsTrue result → 10000 ≤ unsigned_abs millionths }
{
    let size = millionths.unsigned_abs();
    size >= 10_000 && size % 1_000_000 != 0
}

// So many millionths in hundredths, halves up.
fn hundredths(millionths: u64) -> u64
    requires { millionths ≤ limit }
    ensures { result ≡ near_size millionths 10000 }
{
    (2 * millionths + 10_000) / 20_000
}

// So many hundredths behind a sign, with two digits behind the point.
fn written(alloc: Global, sign: &str, n: u64) -> Result<String, AllocError>
    ensures { IfOk result (λ t. string_bytes t ≡ sign.now ++ machine.hundredths n) }
{
    format!(in alloc; "{sign}{}.{}{}", n / 100, n % 100 / 10, n % 10)
}

// The text of so many millionths with two decimals, halves away from zero.
fn shortened(alloc: Global, millionths: i64) -> Result<String, AllocError>
    requires low { 10000 ≤ unsigned_abs millionths }
    requires high { unsigned_abs millionths ≤ limit }
    ensures { IfOk result (λ t. string_bytes t ≡ machine.signed_hundredths (near millionths (pos 10000))) }
{
    let n = hundredths(millionths.unsigned_abs());
    if millionths < 0 {
        written(alloc, "-", n)
    } else {
        written(alloc, "", n)
    }
}

// The text of a finite number in a bubble: with two decimals where it has a fraction and is at least 0.01 in size.
fn finite(alloc: Global, raw: Raw) -> Result<BubbleText, AllocError>
    ensures { IfOk result (λ t. t ≡ machine.bubble_text (values.Number (Num.Fixed raw))) }
{
    let millionths = raw.get();
    if is_shortened(millionths) {
        let text = shortened(alloc, millionths)?;
        return BubbleText::cut(alloc, text.as_str());
    }
    let mut text = NumText::new();
    write_text(Num::Fixed(raw), &mut text);
    BubbleText::cut(alloc, text.as_str())
}

// The text of a number in a bubble. The only error is want of memory.
fn of_number(alloc: Global, number: Num) -> Result<BubbleText, AllocError>
    ensures { IfOk result (λ t. t ≡ machine.bubble_text (values.Number number)) }
{
    match number {
        Num::Fixed(raw) => finite(alloc, raw),
        Num::Inf => BubbleText::cut(alloc, "Infinity"),
        Num::NegInf => BubbleText::cut(alloc, "-Infinity"),
        Num::Nan => BubbleText::cut(alloc, "NaN"),
    }
}

// What a bubble shows of a value (scratch-vm, blocks/scratch3_looks.js, _formatBubbleText). The only error is want of
// memory.
pub(crate) fn bubble_text(alloc: Global, value: &Value) -> Result<BubbleText, AllocError>
    ensures { IfOk result (λ t. t ≡ machine.bubble_text value.now) }
{
    match value {
        Value::Number(number) => of_number(alloc, *number),
        Value::Truth(_) => BubbleText::cut(alloc, Written::of(value).as_str()),
        Value::Text(text) => BubbleText::cut(alloc, text.as_str()),
    }
}
