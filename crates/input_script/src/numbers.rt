//! Numbers as words.

ghost use Rattle.std.specs.Prelude.{◌≡◌, ◌≤◌, ◌<◌, ◌^◌, min, pos, IfSome, option_map};
ghost use Rattle.std.specs.Str.{all_ascii_digits};
ghost use Rattle.machine_spec.specs.ScriptText.{whole_number, negated_number, signed_number};
ghost use Rattle.input_script.specs.Kept.{is_whole, kept_within};

fn all_digits(word: &[u8]) -> bool
    ensures { result ≡ all_ascii_digits word.now }
{
    word.iter().all(|byte| byte.is_ascii_digit())
}

/// Whether a word is a whole number: digits, without a leading zero unless it is 0.
pub fn is_whole(word: &[u8]) -> bool
    ensures { result ≡ is_whole word.now }
{
    match word {
        [] => false,
        [first, rest @ ..] => all_digits(word) && (*first != b'0' || rest.is_empty()),
    }
}

// The whole number that the word writes, or `most` where that is less.
pub(crate) fn whole_number(word: &str, most: u64) -> Option<u64>
    ensures number { result ≡ option_map (min most) (whole_number word.now) }
    ensures most { IfSome result (λ n. n ≤ most) }
{
    if !is_whole(word.as_bytes()) {
        return None;
    }
    match word.parse::<u64>() {
        Ok(number) => Some(most.min(number)),
        Err(_) => Some(most),
    }
}

// A number without a sign.
fn positive(number: Option<u64>) -> Option<i64>
    requires { IfSome number (λ n. n < 2 ^ 32) }
    ensures { result ≡ option_map pos number }
{
    match number {
        Some(number) => Some(number as i64),
        None => None,
    }
}

// A number behind a minus, which 0 has not.
fn negated(number: Option<u64>) -> Option<i64>
    requires { IfSome number (λ n. n < 2 ^ 32) }
    ensures { result ≡ negated_number number }
{
    match number {
        Some(0) => None,
        Some(number) => Some(-(number as i64)),
        None => None,
    }
}

// The whole number that the word writes, a minus before it or not, in size at most `most`.
pub(crate) fn signed_number(word: &str, most: u32) -> Option<i64>
    requires { 0 < most }
    ensures { result ≡ option_map (kept_within most) (signed_number word.now) }
{
    match word.strip_prefix('-') {
        Some(digits) => negated(whole_number(digits, u64::from(most))),
        None => positive(whole_number(word, u64::from(most))),
    }
}
