//! The index of the hats of all targets.

ghost use Rattle.std.specs.Prelude.{◌≡◌, length, map, IfOk};
ghost use Rattle.hat_index.specs.Index.{found, IsIndex};

use crate::heads::Heads;
use block_table::BlockTable;
use hat_index::HatIndex;
use project_spec::Block;
use std::alloc::{AllocError, Global};

// The blocks of each target.
fn all_blocks<'a>(alloc: Global, tables: &'a [BlockTable]) -> Result<Vec<&'a [Block]>, AllocError>
    ensures { IfOk result (λ v. map (λ blocks. blocks.now) v.items ≡ map (λ t. t.blocks) tables.now) }
{
    let mut all = Vec::new(alloc);
    for table in tables {
        all.push(table.blocks())?;
    }
    Ok(all)
}

/// The index of the hats among the heads of each target.
pub fn all_hats(
    alloc: Global,
    tables: &[BlockTable],
    heads: &[Heads],
) -> Result<HatIndex, AllocError>
    requires { length heads.now ≡ length tables.now }
    ensures { IfOk result (λ index. IsIndex (found index) (map (λ t. t.blocks) tables.now) heads.now) }
{
    let blocks = all_blocks(alloc, tables)?;
    HatIndex::of(alloc, &blocks, heads)
}
