ghost use Rattle.std.specs.Prelude.{◌≡◌, ◌==◌, ◌||◌, ◌≤◌, ◌<◌, ◌+◌, ◌*◌, ◌^◌, ◌++◌, ℕ, IfSome, not, min, length, take, pos};
ghost use Rattle.std.specs.Char.{digit_value};
ghost use Rattle.std.specs.List.{list_all, position};
ghost use Rattle.std.specs.Str.{trim};
ghost use Rattle.std.specs.Str.Parse.{AllDigits, digits_value, digits_value_after};
ghost use Rattle.scratch_number.specs.declared.number.Num.{Num};
ghost use Rattle.scratch_number.specs.Grammar.{IsNumber, Reads, decimal_size, with_sign};
ghost use Rattle.scratch_number.specs.Number.{near_size, number};
ghost use Rattle.scratch_number.specs.Reading.{after_digits, after_fraction, base_of, base_of_letter, based_number, cap, capped_exponent, decimal_number, digit_run, digits_front, exponent_of, fraction_front, has_minus, is_digit, is_numeral, number_of, trimmed_number, unsigned_number, without_sign};

use crate::number::{Num, negated, of_size, of_whole};

// 10^20: above 9·10^18, so a larger number of millionths is infinite as well; and above each
// length of a text, so a larger exponent moves every digit past the limit, or below a millionth.
const CAP: u128 = 100_000_000_000_000_000_000;

/// The number that a text is, with white space at both ends removed, and not a number where it is
/// none. A number is nothing at all, which is 0; an optional sign and `Infinity`; an optional
/// sign, digits with at most one point among them and an optional exponent; or `0x`, `0b` or `0o`
/// and digits of that base. Its exact value is rounded once to millionths, halves away from zero.
pub fn of_text(text: &str) -> Num
    ensures value { result ≡ number_of text.now }
    ensures reads { Reads (trim text.now) result }
    ensures only { (n : Num) → IsNumber (trim text.now) n → result ≡ n }
{
    trimmed_number(text.trim().as_bytes())
}

// The number of a text that has no white space at its ends.
#[tactic(auto, unfolding(crate::specs::Reading::trimmed_number))]
fn trimmed_number(text: &[u8]) -> Num
    ensures { result ≡ trimmed_number text.now }
{
    if text.is_empty() {
        return of_whole(0);
    }
    let base = base_of(text);
    if base > 0 {
        return based_number(base, &text[2..]);
    }
    let size = unsigned_number(without_sign(text));
    if has_minus(text) { negated(size) } else { size }
}

// The base that a text begins with, as `0x` with 16; 0 where it begins with none.
#[tactic(auto, unfolding(crate::specs::Reading::base_of))]
fn base_of(text: &[u8]) -> u8
    ensures value { result ≡ base_of text.now }
    ensures room { 0 < result → 2 ≤ length text.now }
{
    if text.len() < 2 {
        return 0;
    }
    if text[0] != b'0' {
        return 0;
    }
    base_of_letter(text[1])
}

// The base that a letter names; 0 where it names none.
#[tactic(auto, unfolding(crate::specs::Reading::base_of_letter))]
fn base_of_letter(letter: u8) -> u8
    ensures { result ≡ base_of_letter letter }
{
    match letter {
        b'x' | b'X' => 16,
        b'b' | b'B' => 2,
        b'o' | b'O' => 8,
        _ => 0,
    }
}

// The number of digits in a base.
#[tactic(auto, unfolding(crate::specs::Reading::based_number))]
fn based_number(base: u8, digits: &[u8]) -> Num
    requires some { 0 < base }
    ensures { result ≡ based_number base digits.now }
{
    if !is_numeral(base, digits) {
        return Num::Nan;
    }
    of_size(capped_value(0, base, digits) * 1_000_000)
}

// The number of a text that has no sign and no base.
#[tactic(auto, unfolding(crate::specs::Reading::unsigned_number))]
fn unsigned_number(text: &[u8]) -> Num
    ensures { result ≡ unsigned_number text.now }
{
    if text == b"Infinity".as_slice() {
        return Num::Inf;
    }
    let (digits, rest) = text.split_at(digit_run(text));
    let (fraction, rest) = split_fraction(rest);
    match exponent_of(rest) {
        Some((down, size)) => decimal_number(digits, fraction, down, size),
        None => Num::Nan,
    }
}

// The digits behind a point at the front of a text, and what follows them.
#[tactic(auto, unfolding(crate::specs::Reading::fraction_front, crate::specs::Reading::after_fraction, crate::specs::Reading::digits_front, crate::specs::Reading::after_digits, crate::specs::Reading::digit_run))]
fn split_fraction(text: &[u8]) -> (&[u8], &[u8])
    ensures digits { result.0.now ≡ fraction_front text.now }
    ensures rest { result.1.now ≡ after_fraction text.now }
{
    match text {
        [b'.', rest @ ..] => rest.split_at(digit_run(rest)),
        _ => (&[], text),
    }
}

// The sign and the size, cut at 10^20, of an exponent that is the whole text.
#[tactic(auto, unfolding(crate::specs::Reading::exponent_of))]
fn exponent_of(text: &[u8]) -> Option<(bool, u128)>
    ensures { result ≡ capped_exponent (exponent_of text.now) }
{
    match text {
        [] => Some((false, 0)),
        [letter, rest @ ..] => {
            let digits = without_sign(rest);
            if is_exponent_letter(*letter) && is_numeral(10, digits) {
                Some((has_minus(rest), capped_value(0, 10, digits)))
            } else {
                None
            }
        }
    }
}

// Whether a letter begins an exponent.
fn is_exponent_letter(letter: u8) -> bool
    ensures { result ≡ (letter == 101 || letter == 69) }
{
    letter == b'e' || letter == b'E'
}

// Whether a text begins with a minus.
#[tactic(auto, unfolding(crate::specs::Reading::has_minus))]
fn has_minus(text: &[u8]) -> bool
    ensures { result ≡ has_minus text.now }
{
    match text {
        [] => false,
        [first, ..] => *first == b'-',
    }
}

// A text without a sign in front.
#[tactic(auto, unfolding(crate::specs::Reading::without_sign))]
fn without_sign(text: &[u8]) -> &[u8]
    ensures { result.now ≡ without_sign text.now }
{
    match text {
        [] => text,
        [first, rest @ ..] => {
            if *first == b'+' || *first == b'-' {
                rest
            } else {
                text
            }
        }
    }
}

// How many digits a text begins with.
#[tactic(auto, unfolding(crate::specs::Reading::digit_run))]
fn digit_run(text: &[u8]) -> usize
    ensures value { result ≡ digit_run text.now }
    ensures within { result ≤ length text.now }
{
    digits_end(text).unwrap_or(text.len())
}

// The place of the first byte that is no digit, if there is one.
fn digits_end(text: &[u8]) -> Option<usize>
    ensures value { result ≡ position (λ c. not (is_digit 10 c)) text.now }
    ensures within { IfSome result (λ i. i < length text.now) }
{
    text.iter().position(|byte| digit_value(*byte) >= 10)
}

// Whether a text is digits in the base, one or more.
#[tactic(auto, unfolding(crate::specs::Reading::is_numeral))]
fn is_numeral(base: u8, text: &[u8]) -> bool
    ensures { result ≡ is_numeral base text.now }
{
    !text.is_empty() && all_digits(base, text)
}

// Whether each byte is a digit in the base.
fn all_digits(base: u8, text: &[u8]) -> bool
    ensures { result ≡ list_all (is_digit base) text.now }
{
    text.iter().all(|byte| digit_value(*byte) < base)
}

// The value of a digit in any base up to 36; 36 where it is none.
fn digit_value(byte: u8) -> u8
    ensures value { result ≡ digit_value byte }
    ensures small { result ≤ 36 }
{
    match byte {
        b'0'..=b'9' => byte - b'0',
        b'a'..=b'z' => byte - b'a' + 10,
        b'A'..=b'Z' => byte - b'A' + 10,
        _ => 36,
    }
}

// The value of some digits behind those of `start`, cut at 10^20.
fn capped_value(start: u128, base: u8, digits: &[u8]) -> u128
    requires some { 0 < base }
    requires small { start ≤ cap }
    ensures value { result ≡ min (digits_value_after base start digits.now) cap }
    ensures within { result ≤ cap }
{
    let mut value = start;
    for digit in digits {
        value = (value * base as u128 + digit_value(*digit) as u128).min(CAP);
    }
    value
}

// The number of digits before and behind a point, and an exponent whose size is cut at 10^20.
fn decimal_number(digits: &[u8], fraction: &[u8], down: bool, size: u128) -> Num
    requires digits { AllDigits 10 digits.now }
    requires fraction { AllDigits 10 fraction.now }
    requires small { size ≤ cap }
    ensures { (e : ℕ) → size ≡ min e cap → result ≡ decimal_number digits.now fraction.now (Some (down, e)) }
{
    if digits.len() + fraction.len() == 0 {
        return Num::Nan;
    }
    let places = fraction.len() as u128;
    if down {
        of_size(shifted(digits, fraction, 6, places + size))
    } else {
        of_size(shifted(digits, fraction, size + 6, places))
    }
}

// The digits before and behind the point as one whole number, times 10^`raise` by 10^`lower`,
// rounded to the nearest, halves up; past the limit any number past it.
fn shifted(digits: &[u8], fraction: &[u8], raise: u128, lower: u128) -> u128
    requires digits { AllDigits 10 digits.now }
    requires fraction { AllDigits 10 fraction.now }
    requires small_raise { raise ≤ 2 * cap }
    requires small_lower { lower ≤ 2 * cap }
    ensures { number (pos result) ≡ number (pos (near_size (digits_value 10 (digits.now ++ fraction.now) * 10 ^ raise) (10 ^ lower))) }
{
    let count = digits.len() + fraction.len();
    if lower <= raise {
        return scaled(front_value(digits, fraction, count), raise - lower);
    }
    let dropped = lower - raise - 1;
    let kept = (count as u128).saturating_sub(dropped) as usize;
    (front_value(digits, fraction, kept) + 5) / 10
}

// The number that the first digits of two lists of them write, cut at 10^20.
fn front_value(digits: &[u8], fraction: &[u8], count: usize) -> u128
    ensures value { result ≡ min (digits_value 10 (take count (digits.now ++ fraction.now))) cap }
    ensures within { result ≤ cap }
{
    if count <= digits.len() {
        return capped_value(0, 10, &digits[..count]);
    }
    let behind = (count - digits.len()).min(fraction.len());
    capped_value(capped_value(0, 10, digits), 10, &fraction[..behind])
}

// `value` times 10^`zeros`, or past the limit any number past it. The product fits 128 bits, since
// 10^20 · 10^18 is below 2^127.
fn scaled(value: u128, zeros: u128) -> u128
    requires { value ≤ cap }
    ensures { number (pos result) ≡ number (pos (value * 10 ^ zeros)) }
{
    if zeros <= 18 {
        return value * 10u128.pow(zeros as u32);
    }
    if value == 0 { 0 } else { CAP }
}
