//! The made script.

ghost use Rattle.std.specs.Prelude.{◌≡◌, ◌++◌, ◌+◌, OnOk, IfOk};
ghost use Rattle.made_texts.specs.MadeScript.{made_lines, made_script};

use crate::pieces::push_all;
use itoa::Buffer;
use std::alloc::{AllocError, Global};

// Appends the lines of the frame behind so many earlier ones.
fn push_lines(out: &mut Vec<u8>, earlier: u32) -> Result<(), AllocError>
    ensures { OnOk result (out.new.items ≡ out.old.items ++ made_lines (earlier + 1)) }
{
    let mut buffer = Buffer::new();
    let clock = buffer.format(33 * u64::from(earlier));
    push_all(out, &["flag\nframe ", clock, " 11 0\n"])
}

/// The made script of so many frames. The only error is want of memory.
pub fn script_text(alloc: Global, frames: u32) -> Result<Vec<u8>, AllocError>
    ensures { IfOk result (λ bytes. bytes.items ≡ made_script frames) }
{
    let mut out = Vec::new(alloc);
    for earlier in 0..frames {
        push_lines(&mut out, earlier)?;
    }
    Ok(out)
}
