//! The hats of one target.

ghost use Rattle.std.specs.Prelude.{◌≡◌, ℕ, List, [], ◌++◌, OnOk, IfOk, Some, option_to_list, slice_get};
ghost use Rattle.std.specs.Option.{option_copied};
ghost use Rattle.hat_index.specs.Hats.{Hat, hat_at, hat_by, hats_in, IsTarget, found_in};

use crate::keys::{key_text, next_of};
use crate::kinds::{KINDS, kind_number, opcode_of};
use crate::text_starts::{Starts, TextStarts};
use machine_spec::BlockId;
use opcode_table::{Opcode, hat_kind};
use project_spec::Block;
use std::alloc::{AllocError, Global};

// The hats of a target: a row for each kind, by text.
#[derive(Drop)]
pub(crate) struct TargetHats {
    pub(crate) rows: Vec<TextStarts>,
}

impl TargetHats {
    // No hats.
    fn new(alloc: Global) -> Result<TargetHats, AllocError>
        ensures { IfOk result (λ hats. IsTarget hats []) }
    {
        let mut rows = Vec::new(alloc);
        for _ in 0..KINDS {
            rows.push(TextStarts::new(alloc))?;
        }
        Ok(TargetHats { rows })
    }

    // Adds a block behind the others, where it is a hat. After want of memory it is only dropped.
    fn add_block(&mut self, alloc: Global, id: BlockId, block: &Block) -> Result<(), AllocError>
        ensures { OnOk result ((hats : List Hat) → IsTarget self.old hats → IsTarget self.new (hats ++ option_to_list (hat_by id (Some block.now)))) }
    {
        let op = opcode_of(&block.code);
        let row = kind_number(hat_kind(op));
        if row < self.rows.len() {
            let text = key_text(alloc, op, block)?;
            self.rows[row].add(alloc, text.as_str(), (id, next_of(block)))
        } else {
            Ok(())
        }
    }

    // Adds a head behind the others; one that is a definition is left out. After want of memory it is only dropped.
    fn add(&mut self, alloc: Global, blocks: &[Block], id: BlockId) -> Result<(), AllocError>
        ensures { OnOk result ((hats : List Hat) → IsTarget self.old hats → IsTarget self.new (hats ++ option_to_list (hat_at blocks.now id))) }
    {
        match block_at(blocks, id) {
            Some(block) => self.add_block(alloc, id, block),
            None => Ok(()),
        }
    }

    // The hats among the heads of a target.
    pub(crate) fn of(
        alloc: Global,
        blocks: &[Block],
        heads: &[BlockId],
    ) -> Result<TargetHats, AllocError>
        ensures { IfOk result (λ hats. IsTarget hats (hats_in blocks.now heads.now)) }
    {
        let mut hats = TargetHats::new(alloc)?;
        for head in heads {
            hats.add(alloc, blocks, *head)?;
        }
        Ok(hats)
    }

    // The hats of an opcode whose field has the folded text.
    pub(crate) fn heads_for(&self, opcode: Opcode, folded: &str) -> Option<&Starts>
        ensures { option_copied result ≡ found_in self.now opcode folded.now }
    {
        match self.rows.get(kind_number(hat_kind(opcode))) {
            Some(row) => row.get(folded),
            None => None,
        }
    }
}

// The block of a target with a number; None where there is none.
fn block_at(blocks: &[Block], id: BlockId) -> Option<&Block>
    ensures { option_copied result ≡ slice_get blocks.now id }
{
    blocks.get(id.0 as usize)
}
