//! The definitions of procedures, by code.

ghost use Rattle.std.specs.Prelude.{◌≡◌, Some, find};
ghost use Rattle.std.specs.Option.{option_copied, option_map};
ghost use Rattle.project_spec.specs.declared.blocks.Input.TheVariants as held;
ghost use Rattle.project_spec.specs.Trees.{prototype_at, linked_prototype};
ghost use Rattle.project_check.specs.Procedures.{bare, callee_at, callee_in, defined, defined_at, defines_at, has_code};

use block_table::{has_role, named};
use machine_spec::BlockId;
use opcode_table::Role;
use project_spec::{Block, Input, Link, Mutation, Prototype};

// What a block says of a procedure as its prototype.
fn prototype(block: &Block) -> Option<&Prototype>
    ensures { option_copied result ≡ prototype_at (Some block.now) }
{
    match &block.mutation {
        Mutation::Prototype(prototype) => Some(prototype),
        Mutation::Call(_) => None,
        Mutation::Bad(_) => None,
        Mutation::None => None,
    }
}

// The prototype to which a link leads.
fn linked<'a>(blocks: &'a [Block], link: &Link) -> Option<&'a Prototype>
    ensures { option_copied result ≡ linked_prototype (bare blocks.now) (Some (held.Reporter link.now)) }
{
    match link {
        Link::To(id) => match blocks.get(id.0 as usize) {
            Some(block) => prototype(block),
            None => None,
        },
        Link::Unknown(_) => None,
    }
}

// The prototype to which an input leads.
fn linked_prototype<'a>(blocks: &'a [Block], input: Option<&Input>) -> Option<&'a Prototype>
    ensures { option_copied result ≡ linked_prototype (bare blocks.now) (option_copied input.entry) }
{
    match input {
        Some(Input::Reporter(link)) => linked(blocks, link),
        Some(Input::Literal(_)) => None,
        Some(Input::Variable(_)) => None,
        Some(Input::List(_)) => None,
        Some(Input::Absent) => None,
        None => None,
    }
}

fn has_code(prototype: Option<&Prototype>, code: &str) -> bool
    ensures { result ≡ has_code code.now (option_copied prototype.entry) }
{
    match prototype {
        Some(prototype) => prototype.code.as_str() == code,
        None => false,
    }
}

// The prototype of a block that is a definition.
fn defined<'a>(blocks: &'a [Block], block: &Block) -> Option<&'a Prototype>
    ensures { option_copied result ≡ defined blocks.now block.now }
{
    if has_role(Role::Definition, &block.code) {
        linked_prototype(blocks, named("custom_block", block.inputs.as_slice()))
    } else {
        None
    }
}

fn defined_at(blocks: &[Block], id: BlockId) -> Option<&Prototype>
    ensures { option_copied result ≡ defined_at blocks.now id }
{
    match blocks.get(id.0 as usize) {
        Some(block) => defined(blocks, block),
        None => None,
    }
}

// The first of these heads that defines the procedure of the code.
fn definition(blocks: &[Block], heads: &[BlockId], code: &str) -> Option<BlockId>
    ensures { result ≡ find (defines_at blocks.now code.now) heads.now }
{
    for id in heads {
        if has_code(defined_at(blocks, *id), code) {
            return Some(*id);
        }
    }
    None
}

/// A procedure that a target defines: its definition, with which its body begins, and what its prototype says of it.
#[derive(Clone, Copy, Debug)]
pub struct Callee<'p> {
    pub definition: BlockId,
    pub prototype: &'p Prototype,
}

// The procedure of the code that the first of these heads defines.
pub(crate) fn called<'a>(blocks: &'a [Block], heads: &[BlockId], code: &str) -> Option<Callee<'a>>
    ensures { option_map callee_in result ≡ callee_at blocks.now (find (defines_at blocks.now code.now) heads.now) }
{
    match definition(blocks, heads, code) {
        Some(definition) => match defined_at(blocks, definition) {
            Some(prototype) => Some(Callee {
                definition,
                prototype,
            }),
            None => None,
        },
        None => None,
    }
}
