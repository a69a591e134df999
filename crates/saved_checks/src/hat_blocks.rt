//! Blocks that are edge hats at the tops of scripts.

ghost use Rattle.std.specs.Prelude.{◌≡◌, ◌&&◌};
ghost use Rattle.opcode_table.specs.Kinds.{hat_kind};
ghost use Rattle.opcode_table.specs.declared.shape.Role.TheVariants as role;
ghost use Rattle.project_spec.specs.Linked.{has_role, is_head};
ghost use Rattle.project_spec.specs.Trees.{op_by};
ghost use Rattle.machine_spec.specs.Frame.{is_edge_hat};

use block_table::is_hat;
use opcode_table::{HatKind, hat_kind};
use project_spec::{Block, Code};

// Whether hats of the kind are tried in every frame.
fn is_edge_kind(kind: HatKind) -> bool
    ensures { result ≡ is_edge_hat kind }
{
    matches!(kind, HatKind::EdgeHat)
}

// Whether the opcode is that of such a hat.
fn is_edge_code(code: &Code) -> bool
    ensures { result ≡ is_edge_hat (hat_kind (op_by code.now)) }
{
    match code {
        Code::Known(op) => is_edge_kind(hat_kind(*op)),
        Code::Other(_) => false,
    }
}

// Whether a block is such a hat at the top of a script.
pub(crate) fn heads_edge_script(block: &Block) -> bool
    ensures { result ≡ (is_head block.now && (has_role role.Hat block.now.code && is_edge_hat (hat_kind (op_by block.now.code)))) }
{
    if is_hat(block) {
        is_edge_code(&block.code)
    } else {
        false
    }
}
