//! How deep blocks nest.

ghost use Rattle.std.specs.Prelude.{◌≡◌, ℕ, ◌<◌, ◌≤◌, ◌⊎◌, Some, IfOk, MatchOption, slice_get, slice_index, length};
ghost use Rattle.link_graph.specs.Links.{HasRanks};
ghost use Rattle.link_graph.specs.Depth.{weight, IsDeep, IsFirstDeep};
ghost use Rattle.link_graph.specs.DepthTable.{IsDepth};

use crate::graph::Graph;
use crate::ranks::Ranks;
use std::alloc::{AllocError, Global};

// The largest of the depths of the blocks, 0 where there are none.
fn deepest(blocks: &[u32], depths: &[u32]) -> u32
    requires { (k c : ℕ) → slice_get blocks.now k ≡ Some c → c < length depths.now }
    ensures most { (k c : ℕ) → slice_get blocks.now k ≡ Some c → slice_index depths.now c ≤ result }
    ensures one { (result ≡ 0) ⊎ ((k : ℕ) × (c : ℕ) × (slice_get blocks.now k ≡ Some c) × (slice_index depths.now c ≡ result)) }
{
    let mut most = 0;
    for block in blocks {
        let depth = depths[*block as usize];
        if depth > most {
            most = depth;
        }
    }
    most
}

// 1 for a block that counts, else 0.
fn own_depth(counts: &[bool], block: u32) -> u32
    requires { block < length counts.now }
    ensures is { result ≡ weight counts.now block }
    ensures small { result ≤ 1 }
{
    if counts[block as usize] { 1 } else { 0 }
}

// The depth of each block. By rank, the depths of what a block links to are there before its own.
fn depths(
    alloc: Global,
    graph: &Graph,
    ranks: &Ranks,
    counts: &[bool],
) -> Result<Vec<u32>, AllocError>
    requires ranks { HasRanks graph.now ranks.now }
    requires counts { length counts.now ≡ length graph.now }
    ensures depths { IfOk result (λ d. (b : ℕ) → b < length graph.now → IsDepth graph.now counts.now ranks.now d.items b) }
    ensures each { IfOk result (λ d. length d.items ≡ length graph.now) }
{
    let blocks = graph.len();
    let mut depths = vec![in alloc; 0; blocks]?;
    for block in ranks.order() {
        let depth = own_depth(counts, *block) + deepest(graph.links(*block), &depths);
        depths[*block as usize] = depth;
    }
    Ok(depths)
}

/// The first block from which a chain of links has more than so many blocks that count, the block itself included;
/// `None` where no block nests so deep. The ranks are those of the graph, and there is a truth for each block: whether
/// it counts. The only error is want of memory. Each block and each link is visited once.
pub fn first_deep(
    alloc: Global,
    graph: &Graph,
    ranks: &Ranks,
    counts: &[bool],
    limit: u32,
) -> Result<Option<u32>, AllocError>
    requires ranks { HasRanks graph.now ranks.now }
    requires counts { length counts.now ≡ length graph.now }
    ensures { IfOk result (λ o. MatchOption o ((b : ℕ) → b < length graph.now → IsDeep graph.now counts.now limit b → ⊥) (λ b. IsFirstDeep graph.now counts.now limit b)) }
{
    let depths = depths(alloc, graph, ranks, counts)?;
    for block in 0..graph.len() as u32 {
        if depths[block as usize] > limit {
            return Ok(Some(block));
        }
    }
    Ok(None)
}
