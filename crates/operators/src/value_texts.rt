//! The texts of values, without memory.

ghost use Rattle.std.specs.Prelude.{◌≡◌, ◌≤◌, length};
ghost use Rattle.scratch_number.specs.Text as numbers;
ghost use Rattle.scratch_values.specs.Longest.{longest};
ghost use Rattle.scratch_values.specs.Value.{text_of};

use scratch_number::{Num, NumText, write_text};
use scratch_values::Value;
use std::marker::Model;

// A text that stands elsewhere, or the digits of a number.
#[derive(Drop)]
enum Place<'v> {
    Lent(&'v str),
    Digits(NumText),
}

/// The text of a value, which takes no memory: of a number the text that it is written as, of a truth `true` or `false`, or
/// the text itself. Contracts see it as the list of its bytes, at most 1,048,576 of them.
#[derive(Drop)]
pub struct Written<'v> {
    place: Place<'v>,
}

impl<'v> Model for Written<'v> {
    ghost use Rattle.std.specs.Prelude.{◌≤◌, ℕ, List, length};
    ghost use Rattle.scratch_values.specs.Longest.{longest};
    ghost use Rattle.operators.specs.Written.{text_in};

    ghost Value = { List ℕ };

    ghost view = { λ w. text_in w.place };

    ghost invariant = { λ w. length (text_in w.place) ≤ longest };
}

impl<'v> Written<'v> {
    /// The text of a value.
    #[inline]
    pub fn of(value: &'v Value) -> Written<'v>
        ensures { result ≡ text_of value.now }
    {
        let place = match value {
            Value::Text(text) => Place::Lent(text.as_str()),
            Value::Number(number) => Place::Digits(digits(*number)),
            Value::Truth(true) => Place::Lent("true"),
            Value::Truth(false) => Place::Lent("false"),
        };
        Written { place }
    }

    /// The text.
    #[inline]
    pub fn as_str(&self) -> &str
        ensures text { result.now ≡ self.now }
        ensures short { length result.now ≤ longest }
    {
        match &self.place {
            Place::Lent(text) => text,
            Place::Digits(text) => text.as_str(),
        }
    }
}

// The text of a number.
fn digits(number: Num) -> NumText
    ensures text { result ≡ numbers.text_of number }
    ensures short { length result ≤ 24 }
{
    let mut text = NumText::new();
    write_text(number, &mut text);
    text
}
