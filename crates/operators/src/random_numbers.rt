//! Random numbers between two bounds.

ghost use Rattle.std.specs.Prelude.{◌≡◌, ◌≤◌, ◌==◌, ◌*◌, ◌^◌, ◌+ℤ◌, ◌-ℤ◌, ◌*ℤ◌, pos, IfOk, not, unsigned_abs};
ghost use Rattle.std.specs.List.{list_any};
ghost use Rattle.scratch_number.specs.Arithmetic.{million};
ghost use Rattle.scratch_number.specs.Number.{floor_by, limit, number};
ghost use Rattle.machine_spec.specs.Outcome.{Goes, StopIs, then_do};
ghost use Rattle.machine_spec.specs.Random as random;
ghost use Rattle.machine_spec.specs.Words.{draw, made_of, seen_words};

use scratch_number::{Num, add, of_millionths, order};
use scratch_values::{Value, to_number};
use script_words::{Counted, Rng, Stop};
use std::cmp::Ordering;

/// The next random word. `Counter` exactly where no word is left, and then nothing changes.
pub fn next_word<R: Rng + Drop>(words: &mut Counted<R>) -> Result<u32, Stop>
    ensures ok { IfOk result (λ w. draw (seen_words R.stream words.old) ≡ Goes (record { value = w; words = seen_words R.stream words.new })) }
    ensures stop { StopIs result (draw (seen_words R.stream words.old)) }
{
    match words.draw() {
        Ok(word) => Ok(word),
        Err(full) => Err(Stop::from(full)),
    }
}

// Whether a number is whole, or not a number.
fn number_looks_whole(number: Num) -> bool
    ensures { result ≡ random.number_looks_whole number }
{
    match number {
        Num::Fixed(raw) => raw.get() % 1_000_000 == 0,
        Num::Inf => false,
        Num::NegInf => false,
        Num::Nan => true,
    }
}

// Whether a text has no point.
fn has_no_point(text: &str) -> bool
    ensures { result ≡ not (list_any (λ c. c == 46) text.now) }
{
    !text.as_bytes().contains(&b'.')
}

// Whether a value looks whole: a text where it has no point, a truth always.
fn looks_whole(value: &Value) -> bool
    ensures { result ≡ random.looks_whole value.now }
{
    match value {
        Value::Number(number) => number_looks_whole(*number),
        Value::Truth(_) => true,
        Value::Text(text) => has_no_point(text.as_str()),
    }
}

// How far it is from low to high, in millionths.
fn span(low: i64, high: i64) -> i128
    requires low { unsigned_abs low ≤ limit }
    requires high { unsigned_abs high ≤ limit }
    ensures value { result ≡ high -ℤ low }
    ensures small { unsigned_abs result ≤ 2 * limit }
{
    i128::from(high) - i128::from(low)
}

// A word times a span of millionths.
fn spread(word: u32, span: i128) -> i128
    requires { unsigned_abs span ≤ 2 ^ 65 }
    ensures value { result ≡ pos word *ℤ span }
    ensures small { unsigned_abs result ≤ 2 ^ 97 }
{
    i128::from(word) * span
}

// A word's part of a span of millionths, of 2^32 parts.
fn part(word: u32, span: i128) -> i128
    requires { unsigned_abs span ≤ 2 * limit }
    ensures value { result ≡ floor_by (pos word *ℤ span) (2 ^ 32) }
    ensures small { unsigned_abs result ≤ 2 ^ 97 }
{
    spread(word, span).div_euclid(1 << 32)
}

// A word's part of a span with its end, of 2^32 parts, in whole steps.
fn whole_steps(word: u32, span: i128) -> i128
    requires { unsigned_abs span ≤ 2 * limit }
    ensures value { result ≡ floor_by (pos word *ℤ (span +ℤ million)) (2 ^ 32 * 1000000) }
    ensures small { unsigned_abs result ≤ 2 ^ 97 }
{
    spread(word, span + 1_000_000).div_euclid((1 << 32) * 1_000_000)
}

// The number so many millionths above another.
fn above(low: i64, millionths: i128) -> Num
    requires low { unsigned_abs low ≤ limit }
    requires millionths { unsigned_abs millionths ≤ 2 ^ 117 }
    ensures { result ≡ number (low +ℤ millionths) }
{
    of_millionths(i128::from(low) + millionths)
}

// Whole steps in millionths.
fn millionths(steps: i128) -> i128
    requires { unsigned_abs steps ≤ 2 ^ 97 }
    ensures value { result ≡ million *ℤ steps }
    ensures small { unsigned_abs result ≤ 2 ^ 117 }
{
    1_000_000 * steps
}

// The number that a word picks from low to high, by whole steps or by millionths.
fn between_bounds(by_whole: bool, low: i64, high: i64, word: u32) -> Num
    requires low { unsigned_abs low ≤ limit }
    requires high { unsigned_abs high ≤ limit }
    ensures { result ≡ random.between_bounds by_whole low high word }
{
    if by_whole {
        above(low, millionths(whole_steps(word, span(low, high))))
    } else {
        above(low, part(word, span(low, high)))
    }
}

// A number between two finite ones, the lower one first.
fn picked_between<R: Rng + Drop>(
    by_whole: bool,
    low: i64,
    high: i64,
    words: &mut Counted<R>,
) -> Result<Num, Stop>
    requires low { unsigned_abs low ≤ limit }
    requires high { unsigned_abs high ≤ limit }
    ensures ok { IfOk result (λ n. then_do (draw (seen_words R.stream words.old)) (made_of (random.between_bounds by_whole low high)) ≡ Goes (record { value = n; words = seen_words R.stream words.new })) }
    ensures stop { StopIs result (then_do (draw (seen_words R.stream words.old)) (made_of (random.between_bounds by_whole low high))) }
{
    match next_word(words) {
        Ok(word) => Ok(between_bounds(by_whole, low, high, word)),
        Err(stop) => Err(stop),
    }
}

// A number between two different ones, the lower one first: an infinite bound gives their sum and draws no word.
fn picked<R: Rng + Drop>(
    by_whole: bool,
    low: Num,
    high: Num,
    words: &mut Counted<R>,
) -> Result<Num, Stop>
    ensures ok { IfOk result (λ n. random.picked by_whole low high (seen_words R.stream words.old) ≡ Goes (record { value = n; words = seen_words R.stream words.new })) }
    ensures stop { StopIs result (random.picked by_whole low high (seen_words R.stream words.old)) }
{
    match low {
        Num::Fixed(a) => match high {
            Num::Fixed(b) => picked_between(by_whole, a.get(), b.get(), words),
            Num::Inf => Ok(add(low, high)),
            Num::NegInf => Ok(add(low, high)),
            Num::Nan => Ok(add(low, high)),
        },
        Num::Inf => Ok(add(low, high)),
        Num::NegInf => Ok(add(low, high)),
        Num::Nan => Ok(add(low, high)),
    }
}

/// A random number from one value's number to another's, by whole steps where both look whole, else by millionths
/// (scratch-vm, blocks/scratch3_operators.js, random). Equal numbers are that number, and where one is not finite it is
/// their sum; neither draws a word. `Counter` exactly where a word is needed and none is left.
pub fn pick_random<R: Rng + Drop>(
    from: &Value,
    to: &Value,
    words: &mut Counted<R>,
) -> Result<Num, Stop>
    ensures ok { IfOk result (λ n. random.pick_random from.now to.now (seen_words R.stream words.old) ≡ Goes (record { value = n; words = seen_words R.stream words.new })) }
    ensures stop { StopIs result (random.pick_random from.now to.now (seen_words R.stream words.old)) }
{
    let by_whole = looks_whole(from) && looks_whole(to);
    let a = to_number(from);
    let b = to_number(to);
    let (x, y) = (a, b);
    match order(x, y) {
        Some(Ordering::Less) => picked(by_whole, a, b, words),
        Some(Ordering::Greater) => picked(by_whole, b, a, words),
        Some(Ordering::Equal) => Ok(a),
        None => Ok(a),
    }
}
