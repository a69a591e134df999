//! The heads of a target.

ghost use Rattle.std.specs.Prelude.{◌≡◌, ◌<◌, ◌^◌, length, map, IfOk};
ghost use Rattle.project_check.specs.Heads.{head_numbers};

use block_table::{BlockTable, is_head};
use lists::ListOf;
use machine_spec::BlockId;
use project_spec::Block;
use std::alloc::{AllocError, Global};

/// The numbers of heads, in block order.
pub type Heads = ListOf<BlockId>;

// The heads among the blocks of a target.
fn heads(alloc: Global, blocks: &[Block]) -> Result<Heads, AllocError>
    requires { length blocks.now < 2 ^ 32 }
    ensures { IfOk result (λ heads. heads ≡ head_numbers blocks.now) }
{
    let mut heads = Heads::new(alloc);
    for (k, block) in blocks.iter().enumerate() {
        if is_head(block) {
            heads.push(BlockId(k as u32))?;
        }
    }
    Ok(heads)
}

/// The heads of each target.
pub fn all_heads(alloc: Global, tables: &[BlockTable]) -> Result<Vec<Heads>, AllocError>
    ensures { IfOk result (λ v. v.items ≡ map head_numbers (map (λ t. t.blocks) tables.now)) }
{
    let mut all = Vec::new(alloc);
    for table in tables {
        let heads = table_heads(alloc, table)?;
        all.push(heads)?;
    }
    Ok(all)
}

fn table_heads(alloc: Global, table: &BlockTable) -> Result<Heads, AllocError>
    ensures { IfOk result (λ heads. heads ≡ head_numbers table.now.blocks) }
{
    let _few = table.len();
    heads(alloc, table.blocks())
}
