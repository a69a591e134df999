//! Lines by their words.

ghost use Rattle.std.specs.Prelude.{◌≡◌, ◌∷◌, [], Some, IfOk, IfSome};
ghost use Rattle.machine_spec.specs.ScriptText.{Good, by_words, one_word, two_words, words_of, answer_line, key_line, key_of_rest};
ghost use Rattle.machine_spec.specs.declared.lines.Line.TheVariants as line;
ghost use Rattle.input_script.specs.Reader.{Refuses};

use crate::ranges::{click, frame, mouse};
use machine_spec::{Key, Line, LineRefusal};
use scratch_values::BoundText;
use std::alloc::Global;

// A line that is not known.
pub(crate) fn unknown(number: u64) -> Result<Line, LineRefusal>
    ensures { result ≡ Err (LineRefusal.UnknownLine number) }
{
    Err(LineRefusal::UnknownLine { line: number })
}

// The line of an answer: the text is bounded.
pub(crate) fn answer(alloc: Global, number: u64, text: &str) -> Result<Line, LineRefusal>
    ensures ok { IfOk result (λ l. answer_line number text.now ≡ Good l) }
    ensures refused { Refuses result (Some (answer_line number text.now)) }
{
    match BoundText::from_str(alloc, text) {
        Ok(Some(text)) => Ok(Line::Answer(text)),
        Ok(None) => Err(LineRefusal::OutOfRange { line: number }),
        Err(_) => Err(LineRefusal::NoMemory),
    }
}

// The line of one word.
pub(crate) fn one_word(alloc: Global, number: u64, word: &str) -> Result<Line, LineRefusal>
    ensures ok { IfOk result (λ l. one_word number word.now ≡ Good l) }
    ensures refused { Refuses result (Some (one_word number word.now)) }
{
    if word == "flag" {
        Ok(Line::Flag)
    } else if word == "stop" {
        Ok(Line::Stop)
    } else if word == "answer" {
        answer(alloc, number, "")
    } else {
        unknown(number)
    }
}

// The line of two words.
pub(crate) fn two_words(number: u64, word: &str, other: &str) -> Result<Line, LineRefusal>
    ensures ok { IfOk result (λ l. two_words number word.now other.now ≡ Good l) }
    ensures refused { Refuses result (Some (two_words number word.now other.now)) }
{
    if word == "turbo" && other == "on" {
        Ok(Line::Turbo(true))
    } else if word == "turbo" && other == "off" {
        Ok(Line::Turbo(false))
    } else if word == "button" && other == "down" {
        Ok(Line::Button(true))
    } else if word == "button" && other == "up" {
        Ok(Line::Button(false))
    } else if word == "click" {
        click(number, other)
    } else {
        unknown(number)
    }
}

// The line of three words.
pub(crate) fn three_words(
    number: u64,
    last: u64,
    word: &str,
    x: &str,
    y: &str,
) -> Result<Line, LineRefusal>
    ensures ok { IfOk result (λ l. by_words number last (word.now ∷ x.now ∷ y.now ∷ []) ≡ Good l) }
    ensures refused { Refuses result (Some (by_words number last (word.now ∷ x.now ∷ y.now ∷ []))) }
{
    let _last = last;
    if word == "mouse" {
        mouse(number, x, y)
    } else {
        unknown(number)
    }
}

// The line of four words.
pub(crate) fn four_words(
    number: u64,
    last: u64,
    word: &str,
    clock: &str,
    passes: &str,
    warp: &str,
) -> Result<Line, LineRefusal>
    ensures ok { IfOk result (λ l. by_words number last (word.now ∷ clock.now ∷ passes.now ∷ warp.now ∷ []) ≡ Good l) }
    ensures refused { Refuses result (Some (by_words number last (word.now ∷ clock.now ∷ passes.now ∷ warp.now ∷ []))) }
{
    if word == "frame" {
        frame(number, last, clock, passes, warp)
    } else {
        unknown(number)
    }
}

// The line of a key that is pressed, by the rest of the line.
pub(crate) fn key_down(number: u64, rest: &str) -> Result<Line, LineRefusal>
    ensures ok { IfOk result (λ l. key_line line.KeyDown number (key_of_rest rest.now) ≡ Good l) }
    ensures refused { Refuses result (Some (key_line line.KeyDown number (key_of_rest rest.now))) }
{
    match Key::named(rest) {
        Some(key) => Ok(Line::KeyDown(key)),
        None => unknown(number),
    }
}

// The line of a key that is released, by the rest of the line.
pub(crate) fn key_up(number: u64, rest: &str) -> Result<Line, LineRefusal>
    ensures ok { IfOk result (λ l. key_line line.KeyUp number (key_of_rest rest.now) ≡ Good l) }
    ensures refused { Refuses result (Some (key_line line.KeyUp number (key_of_rest rest.now))) }
{
    match Key::named(rest) {
        Some(key) => Ok(Line::KeyUp(key)),
        None => unknown(number),
    }
}
