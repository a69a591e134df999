//! The bytes of a number (RFC 8259 section 6).

ghost use Rattle.std.specs.Prelude.{◌≡◌, ◌≤◌, length, take, drop, IfOk};
ghost use Rattle.project_json.specs.Numbers.{is_e, is_sign};
ghost use Rattle.project_json.specs.View.{tree};
ghost use Rattle.project_json.specs.Reading.{Gives, digits, after_digits, int_at, some_digits_at, fraction_at, signed_digits_at, exponent_at, unsigned_at, digits_at, number_at};

use crate::json::Json;
use crate::stop::Stop;
use crate::text::{Decimal, Text};
use std::alloc::Global;

// How many digits stand at the front.
fn digit_count(bytes: &[u8]) -> usize
    ensures within { result ≤ length bytes.now }
    ensures front { take result bytes.now ≡ digits bytes.now }
    ensures rest { drop result bytes.now ≡ after_digits bytes.now }
{
    for (i, b) in bytes.iter().enumerate() {
        if !b.is_ascii_digit() {
            return i;
        }
    }
    bytes.len()
}

// How many bytes the int at the front takes.
fn int_len(bytes: &[u8]) -> Result<usize, Stop>
    ensures gives { Gives (λ n. (take n bytes.now, drop n bytes.now)) result (int_at bytes.now) }
    ensures within { IfOk result (λ n. n ≤ length bytes.now) }
{
    match bytes {
        [] => Err(Stop::Syntax { left: 0 }),
        [b'0', ..] => Ok(1),
        [b'1'..=b'9', rest @ ..] => Ok(1 + digit_count(rest)),
        _ => Err(Stop::Syntax { left: bytes.len() }),
    }
}

// How many digits stand at the front, where there has to be one.
fn some_digits_len(bytes: &[u8]) -> Result<usize, Stop>
    ensures gives { Gives (λ n. (take n bytes.now, drop n bytes.now)) result (some_digits_at bytes.now) }
    ensures within { IfOk result (λ n. n ≤ length bytes.now) }
{
    match bytes {
        [] => Err(Stop::Syntax { left: 0 }),
        [b'0'..=b'9', rest @ ..] => Ok(1 + digit_count(rest)),
        _ => Err(Stop::Syntax { left: bytes.len() }),
    }
}

// How many bytes the fraction at the front takes, which may be absent.
fn fraction_len(bytes: &[u8]) -> Result<usize, Stop>
    ensures gives { Gives (λ n. (take n bytes.now, drop n bytes.now)) result (fraction_at bytes.now) }
    ensures within { IfOk result (λ n. n ≤ length bytes.now) }
{
    match bytes {
        [] => Ok(0),
        [b, rest @ ..] => {
            if *b == b'.' {
                let digits = some_digits_len(rest)?;
                return Ok(1 + digits);
            }
            Ok(0)
        }
    }
}

fn is_e(b: u8) -> bool
    ensures { result ≡ is_e b }
{
    b == b'e' || b == b'E'
}

fn is_sign(b: u8) -> bool
    ensures { result ≡ is_sign b }
{
    b == b'+' || b == b'-'
}

// How many bytes the digits of an exponent take, with the sign that they may have.
fn signed_digits_len(bytes: &[u8]) -> Result<usize, Stop>
    ensures gives { Gives (λ n. (take n bytes.now, drop n bytes.now)) result (signed_digits_at bytes.now) }
    ensures within { IfOk result (λ n. n ≤ length bytes.now) }
{
    match bytes {
        [] => Err(Stop::Syntax { left: 0 }),
        [b, rest @ ..] => {
            if is_sign(*b) {
                let len = some_digits_len(rest)?;
                return Ok(1 + len);
            }
            some_digits_len(bytes)
        }
    }
}

// How many bytes the exponent at the front takes, which may be absent.
fn exponent_len(bytes: &[u8]) -> Result<usize, Stop>
    ensures gives { Gives (λ n. (take n bytes.now, drop n bytes.now)) result (exponent_at bytes.now) }
    ensures within { IfOk result (λ n. n ≤ length bytes.now) }
{
    match bytes {
        [] => Ok(0),
        [b, rest @ ..] => {
            if is_e(*b) {
                let len = signed_digits_len(rest)?;
                return Ok(1 + len);
            }
            Ok(0)
        }
    }
}

// How many bytes the number without a minus sign at the front takes.
#[tactic(auto, using(crate::proofs::Joins::unsigned_is))]
fn unsigned_len(bytes: &[u8]) -> Result<usize, Stop>
    ensures gives { Gives (λ n. (take n bytes.now, drop n bytes.now)) result (unsigned_at bytes.now) }
    ensures within { IfOk result (λ n. n ≤ length bytes.now) }
{
    let int = int_len(bytes)?;
    let rest = bytes.split_at(int).1;
    let fraction = fraction_len(rest)?;
    let rest = rest.split_at(fraction).1;
    let exponent = exponent_len(rest)?;
    Ok(int + fraction + exponent)
}

// How many bytes the number at the front takes.
fn number_len(bytes: &[u8]) -> Result<usize, Stop>
    ensures gives { Gives (λ n. (take n bytes.now, drop n bytes.now)) result (digits_at bytes.now) }
    ensures within { IfOk result (λ n. n ≤ length bytes.now) }
{
    match bytes {
        [] => Err(Stop::Syntax { left: 0 }),
        [b, rest @ ..] => {
            if *b == b'-' {
                let len = unsigned_len(rest)?;
                return Ok(1 + len);
            }
            unsigned_len(bytes)
        }
    }
}

/// The number at the front, and the bytes after it.
#[tactic(auto, unfolding(crate::specs::Reading::number_at))]
pub fn number_of(alloc: Global, bytes: &[u8]) -> Result<(Json, &[u8]), Stop>
    ensures { Gives (λ x. (tree x.0, x.1.now)) result (number_at bytes.now) }
{
    let len = number_len(bytes)?;
    let (digits, rest) = bytes.split_at(len);
    let digits = Text::from_utf8(Vec::from_slice(alloc, digits)?);
    Ok((Json::Number(Decimal::new(digits)), rest))
}
