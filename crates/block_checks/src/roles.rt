//! Where blocks stand.

ghost use Rattle.std.specs.Prelude.{◌≡◌, ◌&&◌, bytes_eq};
ghost use Rattle.opcode_table.specs.declared.shape.Role.TheVariants as role;
ghost use Rattle.project_spec.specs.Linked.{In, has_role, is_menu, is_value, fits, custom_block};

use block_table::{has_role, is_branch};
use opcode_table::Role;
use project_spec::{Block, Code};

/// Whether the block is a menu: a shadow whose opcode is not known, with one field and no input.
pub fn is_menu(block: &Block) -> bool
    ensures { result ≡ is_menu block.now }
{
    match &block.code {
        Code::Known(_) => false,
        Code::Other(_) => block.shadow && block.fields.len() == 1 && block.inputs.is_empty(),
    }
}

// Whether the block has a value.
fn is_value(block: &Block) -> bool
    ensures { result ≡ is_value block.now }
{
    has_role(Role::Reporter, &block.code) || is_menu(block)
}

// Whether an input of the name leads to the prototype of the block.
fn leads_to_prototype(block: &Block, name: &str) -> bool
    ensures { result ≡ (bytes_eq name.now custom_block && has_role role.Definition block.now.code) }
{
    name == "custom_block" && has_role(Role::Definition, &block.code)
}

// Whether the block fits an input of the name of another.
pub(crate) fn fits_in(holder: &Block, name: &str, block: &Block) -> bool
    ensures { result ≡ fits holder.now (In name.now) block.now }
{
    if is_branch(name) {
        has_role(Role::Command, &block.code)
    } else if leads_to_prototype(holder, name) {
        has_role(Role::Prototype, &block.code)
    } else {
        is_value(block)
    }
}
