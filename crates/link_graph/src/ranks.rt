//! Ranks of blocks, and what ranking answers.

ghost use Rattle.std.specs.Prelude.{◌≡◌, ◌<◌, length, slice_index};
ghost use Rattle.link_graph.specs.Links.{IsListing};

use std::marker::Model;

/// A rank for each block, with the blocks by rank.
#[derive(Drop)]
pub struct Ranks {
    pub(crate) ranks: Vec<usize>,
    pub(crate) order: Vec<u32>,
}

impl Model for Ranks {
    ghost use Rattle.std.specs.Prelude.{List, ℕ};
    ghost use Rattle.link_graph.specs.Links.{IsListing};

    ghost Value = { List ℕ };

    ghost view = { λ r. r.ranks.items };

    ghost invariant = { λ r. IsListing r.ranks.items r.order.items };
}

impl Ranks {
    /// The rank of a block.
    pub fn of(&self, block: u32) -> usize
        requires { block < length self.now }
        ensures { result ≡ slice_index self.now block }
    {
        self.ranks[block as usize]
    }

    /// All blocks by rank, the smallest first: each stands behind all blocks that it links to.
    pub fn order(&self) -> &[u32]
        ensures { IsListing self.now result.now }
    {
        &self.order
    }
}

/// What ranking answers.
#[derive(Drop)]
pub enum Ranking {
    /// Ranks that fall along every link.
    Ranked(Ranks),
    /// The first block that lies on a cycle of links.
    Cyclic(u32),
}
