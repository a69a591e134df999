//! The index of the hats of a project.

ghost use Rattle.std.specs.Prelude.{◌≡◌, IfOk, map, length};
ghost use Rattle.std.specs.Option.{option_copied};
ghost use Rattle.hat_index.specs.Index.{found, IsIndex};

use crate::target_hats::TargetHats;
use crate::text_starts::Starts;
use lists::ListOf;
use machine_spec::{BlockId, TargetId};
use opcode_table::Opcode;
use project_spec::Block;
use std::alloc::{AllocError, Global};

/// The hats of a project, by target, opcode and folded text. Contracts see the finite map from these to the heads that have
/// them, in block order, each with the block under it.
#[derive(Drop)]
pub struct HatIndex {
    pub(crate) targets: Vec<TargetHats>,
}

impl HatIndex {
    /// The index of the blocks and the heads of each target. The only error is want of memory.
    pub fn of(
        alloc: Global,
        tables: &[&[Block]],
        heads: &[ListOf<BlockId>],
    ) -> Result<HatIndex, AllocError>
        requires { length heads.now ≡ length tables.now }
        ensures { IfOk result (λ index. IsIndex (found index) (map (λ blocks. blocks.now) tables.now) heads.now) }
    {
        let mut targets = Vec::new(alloc);
        for (t, blocks) in tables.iter().enumerate() {
            let hats = TargetHats::of(alloc, blocks, heads[t].as_slice())?;
            targets.push(hats)?;
        }
        Ok(HatIndex { targets })
    }

    /// The hats of a target that have the opcode, and the folded text in their field, in block order, each with the block
    /// under it; a hat whose opcode has no field has the empty text. `None` exactly where there is none. It takes no memory.
    pub fn heads_for(&self, target: TargetId, opcode: Opcode, folded: &str) -> Option<&Starts>
        ensures { option_copied result ≡ found self.now target opcode folded.now }
    {
        match self.targets.get(target.0 as usize) {
            Some(hats) => hats.heads_for(opcode, folded),
            None => None,
        }
    }
}
