//! Texts in pieces.

ghost use Rattle.std.specs.Prelude.{◌≡◌, ◌++◌, flat_map, OnOk};

use std::alloc::AllocError;

/// Appends the pieces, one after the other. The only error is want of memory.
pub(crate) fn push_all(out: &mut Vec<u8>, pieces: &[&str]) -> Result<(), AllocError>
    ensures { OnOk result (out.new.items ≡ out.old.items ++ flat_map (λ piece. piece.now) pieces.now) }
{
    for piece in pieces {
        out.extend_from_slice(piece.as_bytes())?;
    }
    Ok(())
}
