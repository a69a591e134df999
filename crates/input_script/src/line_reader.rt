//! One line of a script, as it is read.

ghost use Rattle.std.specs.Prelude.{◌≡◌, ◌∷◌, [], Some, IfOk};
ghost use Rattle.machine_spec.specs.ScriptText.{Good, reading_of, text_reading, by_first_word, by_words, first_of, rest_of, words_of};
ghost use Rattle.input_script.specs.FirstWord.{by_rest};
ghost use Rattle.input_script.specs.Reader.{Refuses};

use crate::cuts::cut;
use crate::words::{
    answer, four_words, key_down, key_up, one_word, three_words, two_words, unknown,
};
use machine_spec::{Line, LineRefusal};
use std::alloc::Global;

// A line of four words or more; the fourth and those behind it are in `rest`.
fn by_four(
    number: u64,
    last: u64,
    word: &str,
    clock: &str,
    passes: &str,
    rest: &str,
) -> Result<Line, LineRefusal>
    ensures ok { IfOk result (λ l. by_words number last (word.now ∷ clock.now ∷ passes.now ∷ words_of rest.now) ≡ Good l) }
    ensures refused { Refuses result (Some (by_words number last (word.now ∷ clock.now ∷ passes.now ∷ words_of rest.now))) }
{
    let (warp, rest) = cut(rest);
    match rest {
        None => four_words(number, last, word, clock, passes, warp),
        Some(_) => unknown(number),
    }
}

// A line of three words or more; the third and those behind it are in `rest`.
fn by_three(
    number: u64,
    last: u64,
    word: &str,
    other: &str,
    rest: &str,
) -> Result<Line, LineRefusal>
    ensures ok { IfOk result (λ l. by_words number last (word.now ∷ other.now ∷ words_of rest.now) ≡ Good l) }
    ensures refused { Refuses result (Some (by_words number last (word.now ∷ other.now ∷ words_of rest.now))) }
{
    let (third, rest) = cut(rest);
    match rest {
        None => three_words(number, last, word, other, third),
        Some(rest) => by_four(number, last, word, other, third, rest),
    }
}

// A line of two words or more; the second and those behind it are in `rest`.
fn by_two(number: u64, last: u64, word: &str, rest: &str) -> Result<Line, LineRefusal>
    ensures ok { IfOk result (λ l. by_words number last (word.now ∷ words_of rest.now) ≡ Good l) }
    ensures refused { Refuses result (Some (by_words number last (word.now ∷ words_of rest.now))) }
{
    let (other, rest) = cut(rest);
    match rest {
        None => two_words(number, word, other),
        Some(rest) => by_three(number, last, word, other, rest),
    }
}

// A line whose first word is followed by a space. A key and an answer take what follows as it is.
fn by_rest(
    alloc: Global,
    number: u64,
    last: u64,
    word: &str,
    rest: &str,
) -> Result<Line, LineRefusal>
    ensures ok { IfOk result (λ l. by_rest number last word.now rest.now ≡ Good l) }
    ensures refused { Refuses result (Some (by_rest number last word.now rest.now)) }
{
    if word == "down" {
        key_down(number, rest)
    } else if word == "up" {
        key_up(number, rest)
    } else if word == "answer" {
        answer(alloc, number, rest)
    } else {
        by_two(number, last, word, rest)
    }
}

// A line that is neither empty nor a comment.
fn by_first(alloc: Global, number: u64, last: u64, text: &str) -> Result<Line, LineRefusal>
    ensures ok { IfOk result (λ l. by_first_word number last (first_of (words_of text.now)) (rest_of (words_of text.now) text.now) text.now ≡ Good l) }
    ensures refused { Refuses result (Some (by_first_word number last (first_of (words_of text.now)) (rest_of (words_of text.now) text.now) text.now)) }
{
    let (word, rest) = cut(text);
    match rest {
        None => one_word(alloc, number, word),
        Some(rest) => by_rest(alloc, number, last, word, rest),
    }
}

// A line that is a text: one that is empty or begins with `#` is nothing.
fn text_reading(alloc: Global, number: u64, last: u64, text: &str) -> Result<Line, LineRefusal>
    ensures ok { IfOk result (λ l. text_reading number last text.now ≡ Good l) }
    ensures refused { Refuses result (Some (text_reading number last text.now)) }
{
    if text.is_empty() || text.as_bytes()[0] == b'#' {
        return Ok(Line::Nothing);
    }
    by_first(alloc, number, last, text)
}

// What a line says, or why it is refused. `last` is the last clock reading, in milliseconds. The only error that is no
// refusal is want of memory.
pub(crate) fn reading_of(
    alloc: Global,
    number: u64,
    last: u64,
    bytes: &[u8],
) -> Result<Line, LineRefusal>
    ensures ok { IfOk result (λ l. reading_of number last bytes.now ≡ Good l) }
    ensures refused { Refuses result (Some (reading_of number last bytes.now)) }
{
    match str::from_utf8(bytes) {
        Ok(text) => text_reading(alloc, number, last, text),
        Err(_) => Err(LineRefusal::NotUtf8 { line: number }),
    }
}
