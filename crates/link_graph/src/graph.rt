//! The links of each block.

ghost use Rattle.std.specs.Prelude.{◌≡◌, ℕ, ◌<◌, ◌^◌, length, map, Some, slice_get, IfOk, IfErr, MatchOption};
ghost use Rattle.link_graph.specs.Links.{links_of, IsClosed, IsDangling, IsFirstDangling};

use std::marker::Model;

/// For each block, in order, the numbers of the blocks that it links to, in order. By its type every link names a
/// block.
#[derive(Drop)]
pub struct Graph {
    rows: Vec<Vec<u32>>,
}

impl Model for Graph {
    ghost use Rattle.std.specs.Prelude.{List, ℕ, map};
    ghost use Rattle.link_graph.specs.Links.{IsGraph};

    ghost Value = { List (List ℕ) };

    ghost view = { λ g. map (λ r. r.items) g.rows.items };

    ghost invariant = { λ g. IsGraph (map (λ r. r.items) g.rows.items) };
}

/// A link that names no block.
#[derive(Clone, Copy, Debug, PartialEq, Eq)]
pub struct Dangling {
    /// The block that has the link.
    pub block: u32,
    /// The number that the link gives.
    pub to: u32,
}

// The first of the links that is not below the number.
fn first_past(links: &[u32], blocks: usize) -> Option<u32>
    ensures { MatchOption result ((k c : ℕ) → slice_get links.now k ≡ Some c → c < blocks) (λ to. IsDangling blocks links.now to) }
{
    for link in links {
        if *link as usize >= blocks {
            return Some(*link);
        }
    }
    None
}

// The first link, in the order of the blocks and of their links, that names no block.
fn first_dangling(rows: &[Vec<u32>]) -> Option<Dangling>
    requires { length rows.now < 2 ^ 32 }
    ensures { MatchOption result (IsClosed (map (λ r. r.items) rows.now)) (λ d. IsFirstDangling (map (λ r. r.items) rows.now) d.block d.to) }
{
    for (block, row) in rows.iter().enumerate() {
        if let Some(to) = first_past(row, rows.len()) {
            return Some(Dangling {
                block: block as u32,
                to,
            });
        }
    }
    None
}

impl Graph {
    ghost use Rattle.link_graph.specs.Links.{IsGraph};

    /// The blocks with these links, one row each. The error is the first link that names no block, in the order of the
    /// blocks and then of their links.
    pub fn new(rows: Vec<Vec<u32>>) -> Result<Graph, Dangling>
        requires { length rows.items < 2 ^ 32 }
        ensures graph { IfOk result (λ g. g ≡ map (λ r. r.items) rows.items) }
        ensures closed { IfOk result (λ g. IsClosed g) }
        ensures dangling { IfErr result (λ d. IsFirstDangling (map (λ r. r.items) rows.items) d.block d.to) }
    {
        match first_dangling(&rows) {
            Some(dangling) => Err(dangling),
            None => Ok(Graph { rows }),
        }
    }

    /// How many blocks there are.
    pub fn len(&self) -> usize
        ensures len { result ≡ length self.now }
        ensures graph { IsGraph self.now }
    {
        self.rows.len()
    }

    /// The links of a block, in order.
    pub fn links(&self, block: u32) -> &[u32]
        requires { block < length self.now }
        ensures links { result.now ≡ links_of self.now block }
        ensures graph { IsGraph self.now }
    {
        &self.rows[block as usize]
    }
}
