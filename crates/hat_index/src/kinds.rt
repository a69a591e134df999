//! The row of each kind of hat.

ghost use Rattle.std.specs.Prelude.{◌≡◌, ◌<◌};
ghost use Rattle.project_spec.specs.Trees.{op_by};
ghost use Rattle.hat_index.specs.Hats.{kind_number};

use opcode_table::{HatKind, Opcode};
use project_spec::Code;

// How many rows there are: one for each kind of hat.
pub(crate) const KINDS: usize = 8;

// The row of a kind of hat; the number behind the last for what is no hat.
pub(crate) fn kind_number(kind: HatKind) -> usize
    ensures value { result ≡ kind_number kind }
    ensures small { result < 9 }
{
    match kind {
        HatKind::FlagHat => 0,
        HatKind::SpriteHat => 1,
        HatKind::StageHat => 2,
        HatKind::MessageHat => 3,
        HatKind::BackdropHat => 4,
        HatKind::KeyHat => 5,
        HatKind::CloneHat => 6,
        HatKind::EdgeHat => 7,
        HatKind::NoHat => 8,
    }
}

// The opcode of a block; where it is not known, that of a prototype, which is no hat.
pub(crate) fn opcode_of(code: &Code) -> Opcode
    ensures { result ≡ op_by code.now }
{
    match code {
        Code::Known(op) => *op,
        Code::Other(_) => Opcode::ProceduresPrototype,
    }
}
