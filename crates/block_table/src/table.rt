//! Tables of blocks.

ghost use Rattle.std.specs.Prelude.{◌≡◌, ◌<◌, ◌^◌, ◌==◌, length, map, bytes_eq, position, slice_get, IfSome};
ghost use Rattle.std.specs.Option.{option_copied};
ghost use Rattle.project_json.specs.View.{field};
ghost use Rattle.json_shapes.specs.Reads.{Reads};
ghost use Rattle.project_spec.specs.Limits.{table_measures};
ghost use Rattle.project_spec.specs.Linked.{IsClosed};
ghost use Rattle.project_spec.specs.Reading.{table_of};
ghost use Rattle.block_table.specs.Refused.{Fits};
ghost use Rattle.block_table.specs.Short.{HaveShortFields};
ghost use Rattle.block_table.specs.Table.{numbered};

use crate::file_block::FileBlocks;
use crate::ids::Ids;
use crate::objects::{are_lists, each_block};
use crate::refusal::BlockRefusal;
use crate::text_lengths::short_blocks;
use json_shapes::{Fault, Place};
use lists::ListOf;
use machine_spec::BlockId;
use project_json::Member;
use project_spec::{Block, Blocks};
use std::alloc::Global;
use std::marker::Model;

/// The blocks of a target as the file has them: their shapes are tested and their links resolved, but their texts may be
/// longer than those of a run.
#[derive(Drop)]
pub struct FileTable {
    ids: Ids,
    lists: ListOf<bool>,
    blocks: FileBlocks,
}

impl Model for FileTable {
    ghost use Rattle.std.specs.Prelude.{map};
    ghost use Rattle.project_spec.specs.Reading.{Table};
    ghost use Rattle.block_table.specs.FileBlock.{block_in};
    ghost use Rattle.block_table.specs.Table.{table_in, IsTable};

    ghost Value = { Table };

    ghost view = { λ a. table_in a.ids a.lists a.blocks };

    ghost invariant = { λ a. IsTable a.ids a.lists (map block_in a.blocks) };
}

/// The blocks of a target. Each link that names a block leads to one of them.
#[derive(Drop)]
pub struct BlockTable {
    ids: Ids,
    blocks: Blocks,
}

impl Model for BlockTable {
    ghost use Rattle.block_table.specs.Table.{Numbered, IsNumbered};

    ghost Value = { Numbered };

    ghost view = { λ a. record { ids = a.ids; blocks = a.blocks } };

    ghost invariant = { λ a. IsNumbered a.ids a.blocks };
}

/// The table of the blocks that are these members, by their ids, of an object at a place; or the path of the first value
/// that has not its shape. A block is an object, or a list that is a loose reporter. Links are resolved by ids.
pub fn read_table(alloc: Global, place: &Place, members: &[Member]) -> Result<FileTable, Fault>
    requires { length members.now < 2 ^ 32 }
    ensures { Reads (λ table. table) result (table_of place.now (map field members.now)) }
{
    let ids = Ids::of(alloc, members)?;
    let lists = are_lists(alloc, members)?;
    let blocks = each_block(alloc, &ids, place, members)?;
    Ok(FileTable { ids, lists, blocks })
}

impl FileTable {
    /// How many blocks there are.
    pub fn len(&self) -> u32
        ensures { result ≡ length self.now.blocks }
    {
        self.blocks.len() as u32
    }

    /// The table of a run, where the text of each literal, field and argument default has at most 1,048,576 bytes; else
    /// `TooLong` with the path of the first that has more. The blocks stand at the place. `NoMemory` where memory ran out.
    pub fn bounded(self, alloc: Global, place: &Place) -> Result<BlockTable, BlockRefusal>
        ensures { Fits (λ table. table) result (numbered self) (table_measures place.now self) }
    {
        let FileTable { ids, lists, blocks } = self;
        let blocks = short_blocks(alloc, place, ids.as_slice(), lists.as_slice(), blocks)?;
        Ok(BlockTable { ids, blocks })
    }
}

impl BlockTable {
    /// How many blocks there are.
    pub fn len(&self) -> u32
        ensures blocks { result ≡ length self.now.blocks }
        ensures ids { result ≡ length self.now.ids }
    {
        self.blocks.len() as u32
    }

    /// Whether there is no block.
    pub fn is_empty(&self) -> bool
        ensures { result ≡ (length self.now.blocks == 0) }
    {
        self.blocks.is_empty()
    }

    /// The block with the number. `None` where there are not so many.
    pub fn get(&self, id: BlockId) -> Option<&Block>
        ensures { option_copied result ≡ slice_get self.now.blocks id }
    {
        self.blocks.get(id.0 as usize)
    }

    /// The blocks, in the order of their numbers. Each link that names a block leads to one of them.
    pub fn blocks(&self) -> &[Block]
        ensures blocks { result.now ≡ self.now.blocks }
        ensures closed { IsClosed self.now.blocks }
        ensures short { HaveShortFields self.now.blocks }
    {
        self.blocks.as_slice()
    }

    /// The number of the block with the id: the first one's. `None` where no block has it.
    pub fn number_of(&self, id: &str) -> Option<BlockId>
        ensures number { result ≡ position (λ other. bytes_eq other id.now) self.now.ids }
        ensures within { IfSome result (λ number. number < length self.now.blocks) }
    {
        let place = self.ids.place(id)?;
        Some(BlockId(place))
    }
}
