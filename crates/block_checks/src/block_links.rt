//! What is kept of the blocks of a target.

ghost use Rattle.std.specs.Prelude.{◌≡◌, ◌<◌, length, slice_get, slice_index, Some};

use link_graph::Ranks;
use std::marker::Model;

/// Of the blocks of a target that are well linked: a rank for each, which falls along every link, and which of them
/// belong to checked scripts.
#[derive(Drop)]
pub struct BlockLinks {
    pub(crate) ranks: Ranks,
    pub(crate) checked: Vec<bool>,
}

impl Model for BlockLinks {
    ghost use Rattle.block_checks.specs.Kept.{Kept};

    ghost Value = { Kept };

    ghost view = { λ a. record { ranks = a.ranks; checked = a.checked.items } };
}

impl BlockLinks {
    /// The rank of a block: it is above the ranks of all blocks that the block links to.
    pub fn rank(&self, block: u32) -> usize
        requires { block < length self.now.ranks }
        ensures { result ≡ slice_index self.now.ranks block }
    {
        self.ranks.of(block)
    }

    /// Whether a block belongs to a checked script: it is a head, or links lead to it from one.
    pub fn is_checked(&self, block: u32) -> bool
        requires { block < length self.now.checked }
        ensures { slice_get self.now.checked block ≡ Some result }
    {
        self.checked[block as usize]
    }

    /// Of each block, in order, whether it belongs to a checked script.
    pub fn checked(&self) -> &[bool]
        ensures { result.now ≡ self.now.checked }
    {
        &self.checked
    }

    // The ranks of all blocks.
    pub(crate) fn ranks(&self) -> &Ranks
        ensures { result.now ≡ self.now.ranks }
    {
        &self.ranks
    }
}
