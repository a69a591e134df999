//! Reads the blocks of a target, and tests the lengths of their texts.

ghost use Rattle.std.specs.Prelude.{◌≡◌, ◌∷◌, []};
ghost use Rattle.project_json.specs.View.{tree};
ghost use Rattle.block_table.specs.Refused.{Builds};
ghost use Rattle.block_table.specs.Table.{IsSmall, numbered, table_at};

use crate::refusal::BlockRefusal;
use crate::table::{BlockTable, read_table};
use json_shapes::{Place, members};
use project_json::{Json, Text};
use std::alloc::Global;

/// The table of a target's `blocks`, which stand at the path and have fewer than 2^32 members. `Shape` with the path of
/// the first value that has not its shape; else `TooLong` with the path of the first text, of a literal, a field or the
/// defaults of a prototype, that has more than 1,048,576 bytes. `NoMemory` where memory ran out.
pub fn build(alloc: Global, blocks: &Json, path: &Text) -> Result<BlockTable, BlockRefusal>
    requires { IsSmall (tree blocks.now) }
    ensures { Builds (λ table told. table ≡ numbered told) result (path.now ∷ []) (table_at (path.now ∷ []) (tree blocks.now)) }
{
    let place = Place::under(path.as_str());
    let members = members(alloc, &place, blocks)?;
    let table = read_table(alloc, &place, members)?;
    table.bounded(alloc, &place)
}
