//! What an accepted project has.

ghost use Rattle.std.specs.Prelude.{◌≡◌, ◌++◌, IfOk, OnOk};
ghost use Rattle.std.specs.Fmt.{decimal};
ghost use Rattle.play_command.specs.Outcome.{accepted_line};

use itoa::Buffer;
use std::alloc::{AllocError, Global};

/// How many targets and blocks a project has.
#[derive(Clone, Copy, Debug)]
pub struct Counts {
    pub targets: u32,
    pub blocks: u32,
}

// Appends a number from 0. The only error is want of memory.
pub(crate) fn push_natural(out: &mut Vec<u8>, number: u32) -> Result<(), AllocError>
    ensures { OnOk result (out.new.items ≡ out.old.items ++ decimal number) }
{
    let mut buffer = Buffer::new();
    out.extend_from_slice(buffer.format(number).as_bytes())
}

/// The line that tells them: `accepted T B` and a line end. The only error is want of memory.
pub fn accepted_line(alloc: Global, counts: Counts) -> Result<Vec<u8>, AllocError>
    ensures { IfOk result (λ line. line.items ≡ accepted_line counts) }
{
    let mut line = Vec::new(alloc);
    line.extend_from_slice(b"accepted ")?;
    push_natural(&mut line, counts.targets)?;
    line.push(b' ')?;
    push_natural(&mut line, counts.blocks)?;
    line.push(b'\n')?;
    Ok(line)
}
