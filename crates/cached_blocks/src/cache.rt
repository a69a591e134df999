//! Making the blocks that executions need.

ghost use Rattle.std.specs.Prelude.{◌≡◌, IfOk};
ghost use Rattle.project_spec.specs.Trees.{op_by};
ghost use Rattle.block_table.specs.Short.{HaveShortFields};
ghost use Rattle.cached_blocks.specs.Cached.{sheet_with, cached_block, cached_blocks};

use crate::block::{CachedBlock, CachedBlocks};
use crate::fields::cached_fields;
use crate::inputs::{are_in_order, cached_inputs};
use crate::links::{branch, call_code, linked};
use lists::ListOf;
use opcode_table::Opcode;
use project_spec::{Block, Code, Resolved};
use std::alloc::{AllocError, Global};

// The opcode of a block; a prototype's where it is not known.
fn opcode(code: &Code) -> Opcode
    ensures { result ≡ op_by code.now }
{
    match code {
        Code::Known(op) => *op,
        Code::Other(_) => Opcode::ProceduresPrototype,
    }
}

// Block k as executions need it.
fn cache_block(
    alloc: Global,
    blocks: &[Block],
    refs: &[ListOf<Resolved>],
    k: usize,
    block: &Block,
) -> Result<CachedBlock, AllocError>
    requires { HaveShortFields blocks.now }
    ensures { IfOk result (λ c. c ≡ cached_block (sheet_with blocks.now refs.now) k block.now) }
{
    let op = opcode(&block.code);
    let inputs = cached_inputs(alloc, blocks, refs, k, block.inputs.as_slice())?;
    let in_order = are_in_order(op, inputs.as_slice());
    Ok(CachedBlock {
        op,
        inputs,
        in_order,
        fields: cached_fields(alloc, block.fields.as_slice(), refs, k)?,
        next: linked(&block.next),
        first: branch(block.inputs.as_slice(), "SUBSTACK"),
        second: branch(block.inputs.as_slice(), "SUBSTACK2"),
        code: call_code(alloc, &block.mutation)?,
    })
}

/// The blocks of a target as executions need them, where it is told what each of them names. The only error is want of
/// memory.
pub fn cache_blocks(
    alloc: Global,
    blocks: &[Block],
    refs: &[ListOf<Resolved>],
) -> Result<CachedBlocks, AllocError>
    requires { HaveShortFields blocks.now }
    ensures { IfOk result (λ v. v ≡ cached_blocks (sheet_with blocks.now refs.now)) }
{
    let mut cached = CachedBlocks::new(alloc);
    for (k, block) in blocks.iter().enumerate() {
        cached.push(cache_block(alloc, blocks, refs, k, block)?)?;
    }
    Ok(cached)
}
