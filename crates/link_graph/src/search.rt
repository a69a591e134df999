//! The blocks that chains of links lead to.

ghost use Rattle.std.specs.Prelude.{◌≡◌, ℕ, ◌<◌, length, IfOk, OnOk, [], ◌∷◌};
ghost use Rattle.std.specs.List.{All};
ghost use Rattle.link_graph.specs.Links.{links_of};
ghost use Rattle.link_graph.specs.Reach.{IsReach};
ghost use Rattle.link_graph.specs.Search.{IsGrown, IsSearch};

use crate::graph::Graph;
use std::alloc::{AllocError, Global};

// The blocks that were seen, and those of them whose links are still to be followed.
#[derive(Drop)]
struct Found {
    seen: Vec<bool>,
    waiting: Vec<u32>,
}

// Sees a block. One that is new waits.
fn see(search: &mut Found, block: u32) -> Result<(), AllocError>
    requires { block < length search.old.seen.items }
    ensures { OnOk result (IsGrown (block ∷ []) search.old.seen.items search.old.waiting.items search.new.seen.items search.new.waiting.items) }
{
    if !search.seen[block as usize] {
        search.seen[block as usize] = true;
        search.waiting.push(block)?;
    }
    Ok(())
}

// Sees these blocks.
fn see_all(search: &mut Found, blocks: &[u32]) -> Result<(), AllocError>
    requires { All (λ b. b < length search.old.seen.items) blocks.now }
    ensures { OnOk result (IsGrown blocks.now search.old.seen.items search.old.waiting.items search.new.seen.items search.new.waiting.items) }
{
    for block in blocks {
        see(search, *block)?;
    }
    Ok(())
}

// The starts are seen.
fn begin(alloc: Global, graph: &Graph, starts: &[u32]) -> Result<Found, AllocError>
    requires { All (λ b. b < length graph.now) starts.now }
    ensures { IfOk result (λ s. IsSearch graph.now starts.now s.seen.items s.waiting.items) }
{
    let blocks = graph.len();
    let seen = vec![in alloc; false; blocks]?;
    let mut search = Found {
        seen,
        waiting: Vec::new(alloc),
    };
    see_all(&mut search, starts)?;
    Ok(search)
}

// Follows the links of a block that waited.
fn follow(graph: &Graph, search: &mut Found, block: u32) -> Result<(), AllocError>
    requires within { block < length graph.now }
    requires each { All (λ b. b < length search.old.seen.items) (links_of graph.now block) }
    ensures { OnOk result (IsGrown (links_of graph.now block) search.old.seen.items search.old.waiting.items search.new.seen.items search.new.waiting.items) }
{
    see_all(search, graph.links(block))
}

/// Whether each block is one of the starts or is reached from one along links. The only error is want of memory. It
/// takes the time of all blocks and links.
pub fn reach(alloc: Global, graph: &Graph, starts: &[u32]) -> Result<Vec<bool>, AllocError>
    requires { All (λ b. b < length graph.now) starts.now }
    ensures { IfOk result (λ seen. IsReach graph.now starts.now seen.items) }
{
    let mut search = begin(alloc, graph, starts)?;
    while let Some(block) = search.waiting.pop() {
        follow(graph, &mut search, block)?;
    }
    Ok(search.seen)
}
