//! The blocks to which a thread goes.

ghost use Rattle.std.specs.Prelude.{◌≡◌, ◌<◌, length, slice_get, Some};
ghost use Rattle.cached_blocks.specs.Cached.{cached_blocks};
ghost use Rattle.project_check.specs.Loaded.{blocks_at, sheet_at};
ghost use Rattle.thread_moves.specs.Ranked.{IsRanked};
ghost use Rattle.thread_moves.specs.Standing.{branch_link};

use cached_blocks::CachedBlock;
use machine_spec::{BlockId, TargetId};
use project_check::Project;

// A block of a target, where a rank falls along every link.
#[inline]
pub(crate) fn linked(project: &Project, target: TargetId, id: BlockId) -> &CachedBlock
    requires { id < length (blocks_at target project.now) }
    ensures block { slice_get (cached_blocks (sheet_at target project.now)) id ≡ Some result.now }
    ensures ranked { IsRanked (sheet_at target project.now) }
{
    project.cached(target, id)
}

// The block with which a branch of a block begins: 1 is the first branch, and each other number the second.
#[inline]
pub(crate) fn branch(block: &CachedBlock, number: u8) -> Option<BlockId>
    ensures { result ≡ branch_link number block.now }
{
    if number == 1 {
        block.first
    } else {
        block.second
    }
}
