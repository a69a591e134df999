ghost use Rattle.std.specs.Prelude.{◌≡◌, ◌≤◌, ◌<◌, ◌+◌, ◌^◌, [], ◌∷◌, ◌++◌, length, EachIndex, slice_index};
ghost use Rattle.std.specs.Fmt.{decimal};
ghost use Rattle.scratch_number.specs.declared.number.Num.{Num};
ghost use Rattle.scratch_number.specs.Number.{IsWithin, limit};
ghost use Rattle.scratch_number.specs.Reading.{number_of};
ghost use Rattle.scratch_number.specs.Text.{fraction_digits, fraction_text, size_text, text_of};

use crate::number::{Num, Raw};
use std::marker::Model;

/// A short text of ASCII characters in a buffer of its own, of at most 24 bytes.
#[derive(Drop)]
pub struct NumText {
    bytes: [u8; 24],
    len: usize,
}

impl Model for NumText {
    ghost use Rattle.std.specs.Prelude.{◌≤◌, ℕ, List, take};
    ghost use Rattle.std.specs.Str.{IsAscii};

    ghost Value = { List ℕ };

    ghost view = { λ t. take t.len t.bytes };

    ghost invariant = { λ t. (t.len ≤ 24) × IsAscii (take t.len t.bytes) };
}

impl NumText {
    /// The empty text.
    pub fn new() -> NumText
        ensures { result ≡ [] }
    {
        NumText {
            bytes: [0; 24],
            len: 0,
        }
    }

    /// The text.
    pub fn as_str(&self) -> &str
        ensures { result.now ≡ self.now }
    {
        match str::from_utf8(&self.bytes[..self.len]) {
            Ok(text) => text,
            Err(_) => unreachable!(),
        }
    }

    // Empties the text.
    fn clear(&mut self)
        ensures { self.new ≡ [] }
    {
        self.len = 0;
    }

    // Appends an ASCII character.
    fn push(&mut self, byte: u8)
        requires room { length self.old < 24 }
        requires ascii { byte < 128 }
        ensures { self.new ≡ self.old ++ byte ∷ [] }
    {
        self.bytes[self.len] = byte;
        self.len += 1;
    }
}

/// Writes the number's text: a `-` where it is negative, the whole part and, where there is a
/// fraction, a point and its digits without zeros at the end, never with an exponent; or
/// `Infinity`, `-Infinity` or `NaN`. What the buffer held before is gone. The text reads as the
/// number, and no other number has it.
pub fn write_text(a: Num, out: &mut NumText)
    ensures text { out.new ≡ text_of a }
    ensures reads_back { number_of out.new ≡ a }
    ensures own { (b : Num) → IsWithin b → text_of b ≡ out.new → b ≡ a }
{
    out.clear();
    match a {
        Num::Fixed(x) => push_raw(x, out),
        Num::Inf => push_all(b"Infinity", out),
        Num::NegInf => push_all(b"-Infinity", out),
        Num::Nan => push_all(b"NaN", out),
    }
}

// Appends some ASCII characters.
fn push_all(bytes: &[u8], out: &mut NumText)
    requires room { length out.old + length bytes.now ≤ 24 }
    requires ascii { EachIndex bytes.now (λ k. slice_index bytes.now k < 128) }
    ensures { out.new ≡ out.old ++ bytes.now }
{
    for byte in bytes {
        out.push(*byte);
    }
}

// Writes a finite number into an empty text.
fn push_raw(x: Raw, out: &mut NumText)
    requires { out.old ≡ [] }
    ensures text { out.new ≡ text_of (Num.Fixed x) }
    ensures small { IsWithin (Num.Fixed x) }
{
    let n = x.get();
    if n < 0 {
        out.push(b'-');
    }
    push_size(n.unsigned_abs(), out);
}

// Appends a number of millionths.
fn push_size(size: u64, out: &mut NumText)
    requires room { length out.old ≤ 1 }
    requires small { size ≤ limit }
    ensures { out.new ≡ out.old ++ size_text size }
{
    push_decimal(size / 1_000_000, out);
    push_fraction_text(size % 1_000_000, out);
}

// Appends a whole number in decimal.
fn push_decimal(n: u64, out: &mut NumText)
    requires { length out.old + length (decimal n) ≤ 24 }
    ensures { out.new ≡ out.old ++ decimal n }
{
    if n >= 10 {
        push_decimal(n / 10, out);
    }
    out.push(b'0' + (n % 10) as u8);
}

// Appends a point and the fraction, or nothing where it is 0.
fn push_fraction_text(fraction: u64, out: &mut NumText)
    requires room { length out.old ≤ 17 }
    requires small { fraction < 1000000 }
    ensures { out.new ≡ out.old ++ fraction_text fraction }
{
    if fraction == 0 {
        return;
    }
    out.push(b'.');
    push_fraction(6, fraction, out);
}

// Appends the digits of `fraction` / 10^`places` behind the point, up to the last that is not 0.
fn push_fraction(places: u32, fraction: u64, out: &mut NumText)
    requires room { length out.old + places ≤ 24 }
    requires few { places ≤ 6 }
    requires small { fraction < 10 ^ places }
    ensures { out.new ≡ out.old ++ fraction_digits places fraction }
{
    if fraction == 0 {
        return;
    }
    let unit = power_of_ten(places - 1);
    out.push(b'0' + (fraction / unit) as u8);
    push_fraction(places - 1, fraction % unit, out);
}

// 10^`exponent`.
fn power_of_ten(exponent: u32) -> u64
    requires { exponent < 6 }
    ensures value { result ≡ 10 ^ exponent }
    ensures positive { 0 < result }
{
    10u64.pow(exponent)
}
