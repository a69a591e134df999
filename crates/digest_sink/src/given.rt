//! The bytes that were given to a sink. They exist only in proofs: at run time this takes no memory and does nothing.

ghost use Rattle.std.specs.Prelude.{◌≡◌, ℕ, List, [], ◌++◌};
ghost use Rattle.std.specs.Borrow.{ftrue};

use std::marker::Model;

// All the bytes, in order.
#[derive(Drop)]
pub(crate) struct Given {
    pub(crate) ghost bytes: { List ℕ },
}

impl Model for Given {
    ghost also_owns = { λ _. ftrue };
}

// One more piece.
#[derive(Clone, Copy, Drop)]
pub(crate) struct Piece<'a> {
    pub(crate) bytes: &'a [u8],
}

impl Given {
    // None yet.
    pub(crate) fn new() -> Given
        ensures { result.bytes ≡ [] }
    {
        Given {}
    }

    // These, and the piece behind them.
    #[inline(always)]
    pub(crate) fn then(&self, _piece: &Piece<'_>) -> Given
        ensures { result.bytes ≡ self.now.bytes ++ _piece.now.bytes.now }
    {
        Given {}
    }
}
