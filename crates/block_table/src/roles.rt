//! Where blocks stand in scripts.

ghost use Rattle.std.specs.Prelude.{◌≡◌, ◌&&◌, ◌||◌};
ghost use Rattle.opcode_table.specs.declared.shape.Role.TheVariants as role;
ghost use Rattle.project_spec.specs.Linked as told;

use opcode_table::{Role, spec};
use project_spec::{Block, Code};

/// Whether an opcode has the role. One that is not known has none.
pub fn has_role(wanted: Role, code: &Code) -> bool
    ensures { result ≡ told.has_role wanted code.now }
{
    match code {
        Code::Known(op) => spec(*op).role == wanted,
        Code::Other(_) => false,
    }
}

// Whether the opcode is that of a hat or of a definition.
fn heads_a_stack(code: &Code) -> bool
    ensures { result ≡ (told.has_role role.Hat code.now || told.has_role role.Definition code.now) }
{
    has_role(Role::Hat, code) || has_role(Role::Definition, code)
}

/// Whether a block is a head: a hat or a definition at the top of a stack.
pub fn is_head(block: &Block) -> bool
    ensures { result ≡ told.is_head block.now }
{
    block.top_level && heads_a_stack(&block.code)
}

/// Whether a block is a hat at the top of a stack; a definition is none.
pub fn is_hat(block: &Block) -> bool
    ensures { result ≡ (told.is_head block.now && told.has_role role.Hat block.now.code) }
{
    if block.top_level {
        has_role(Role::Hat, &block.code)
    } else {
        false
    }
}

/// Whether an input of the name is a branch.
pub fn is_branch(name: &str) -> bool
    ensures { result ≡ told.is_branch name.now }
{
    name.as_bytes().starts_with(b"SUBSTACK")
}
