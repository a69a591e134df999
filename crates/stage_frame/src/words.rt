//! Words of a line, each with a space in front.

ghost use Rattle.std.specs.Prelude.{◌≡◌, ◌++◌, ◌∷◌, OnOk};
ghost use Rattle.std.specs.Fmt.{decimal};
ghost use Rattle.scratch_number.specs.Text as numbers;
ghost use Rattle.machine_spec.specs.FrameText.{quoted};

use itoa::Buffer;
use scratch_number::{Num, NumText, write_text};
use std::alloc::AllocError;

// Appends a space and a text in quotes.
pub(crate) fn push_quoted(out: &mut Vec<u8>, text: &str) -> Result<(), AllocError>
    ensures { OnOk result (out.new.items ≡ out.old.items ++ 32 ∷ quoted text.now) }
{
    out.push(b' ')?;
    quoted_text::push_quoted(out, text)
}

// Appends a space and a word.
pub(crate) fn push_word(out: &mut Vec<u8>, word: &str) -> Result<(), AllocError>
    ensures { OnOk result (out.new.items ≡ out.old.items ++ 32 ∷ word.now) }
{
    out.push(b' ')?;
    out.extend_from_slice(word.as_bytes())?;
    Ok(())
}

// Appends a space and a whole number from 0.
pub(crate) fn push_natural(out: &mut Vec<u8>, number: u64) -> Result<(), AllocError>
    ensures { OnOk result (out.new.items ≡ out.old.items ++ 32 ∷ decimal number) }
{
    let mut buffer = Buffer::new();
    push_word(out, buffer.format(number))
}

// Appends a space and a number.
pub(crate) fn push_number(out: &mut Vec<u8>, number: Num) -> Result<(), AllocError>
    ensures { OnOk result (out.new.items ≡ out.old.items ++ 32 ∷ numbers.text_of number) }
{
    let mut text = NumText::new();
    write_text(number, &mut text);
    push_word(out, text.as_str())
}
