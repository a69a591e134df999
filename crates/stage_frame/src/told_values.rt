//! What a monitor tells that shows one value.

ghost use Rattle.std.specs.Prelude.{◌≡◌, ◌++◌, ◌∷◌, OnOk};
ghost use Rattle.scratch_number.specs.Text as numbers;
ghost use Rattle.scratch_values.specs.Value.{text_of};
ghost use Rattle.machine_spec.specs.FrameText.{quoted};
ghost use Rattle.stage_frame.specs.Told.{told_value};

use crate::words::push_quoted;
use scratch_number::{Num, NumText, write_text};
use scratch_values::Value;
use std::alloc::AllocError;

// A value that stands elsewhere, or a number or a text by itself.
#[derive(Clone, Copy, Drop)]
pub(crate) enum Told<'a> {
    Held(&'a Value),
    Number(Num),
    Text(&'a str),
}

// Appends a space and the text of a number in quotes.
fn push_quoted_number(out: &mut Vec<u8>, number: Num) -> Result<(), AllocError>
    ensures { OnOk result (out.new.items ≡ out.old.items ++ 32 ∷ quoted (numbers.text_of number)) }
{
    let mut text = NumText::new();
    write_text(number, &mut text);
    push_quoted(out, text.as_str())
}

// Appends a space and the text of a value in quotes.
pub(crate) fn push_value(out: &mut Vec<u8>, value: &Value) -> Result<(), AllocError>
    ensures { OnOk result (out.new.items ≡ out.old.items ++ 32 ∷ quoted (text_of value.now)) }
{
    match value {
        Value::Number(number) => push_quoted_number(out, *number),
        Value::Truth(true) => push_quoted(out, "true"),
        Value::Truth(false) => push_quoted(out, "false"),
        Value::Text(text) => push_quoted(out, text.as_str()),
    }
}

// Appends a space and the text of what is told in quotes.
pub(crate) fn push_told(out: &mut Vec<u8>, told: &Told<'_>) -> Result<(), AllocError>
    ensures { OnOk result (out.new.items ≡ out.old.items ++ 32 ∷ quoted (text_of (told_value told.now))) }
{
    match told {
        Told::Held(value) => push_value(out, value),
        Told::Number(number) => push_quoted_number(out, *number),
        Told::Text(text) => push_quoted(out, text),
    }
}
