//! The first block that lies on a cycle, and ranks where there is none.

ghost use Rattle.std.specs.Prelude.{◌≡◌, ℕ, ◌<◌, ◌≤◌, IsTrue, IfOk, Some, slice_get, slice_index, length};
ghost use Rattle.link_graph.specs.Links.{IsCyclic, IsFirstCyclic};
ghost use Rattle.link_graph.specs.Ranking.{IsRanking};
ghost use Rattle.link_graph.specs.Slope.{NeverRises, FallsAt};

use crate::components::{component_numbers, number_at};
use crate::graph::Graph;
use crate::ranks::Ranking;
use crate::search::reach;
use crate::walk::walk_all;
use std::alloc::{AllocError, Global};

// Whether none of the links leads to a number above the limit.
fn all_at_most(links: &[u32], numbers: &[u32], limit: u32) -> bool
    ensures { IsTrue result → (k c : ℕ) → slice_get links.now k ≡ Some c → slice_index numbers.now c ≤ limit }
{
    for link in links {
        if number_at(numbers, *link) > limit {
            return false;
        }
    }
    true
}

// Whether all of the links lead to numbers below the limit.
fn all_below(links: &[u32], numbers: &[u32], limit: u32) -> bool
    ensures { IsTrue result → (k c : ℕ) → slice_get links.now k ≡ Some c → slice_index numbers.now c < limit }
{
    for link in links {
        if number_at(numbers, *link) >= limit {
            return false;
        }
    }
    true
}

// Whether the numbers rise along no link.
fn never_rise(graph: &Graph, numbers: &[u32]) -> bool
    ensures { IsTrue result → NeverRises graph.now numbers.now }
{
    for block in 0..graph.len() as u32 {
        if !all_at_most(graph.links(block), numbers, number_at(numbers, block)) {
            return false;
        }
    }
    true
}

// Whether the numbers fall along each link of the block.
fn fall_at(graph: &Graph, numbers: &[u32], block: u32) -> bool
    requires { block < length graph.now }
    ensures { IsTrue result → FallsAt graph.now numbers.now block }
{
    all_below(graph.links(block), numbers, number_at(numbers, block))
}

// Whether a chain of links leads from the block to itself.
fn is_cyclic(alloc: Global, graph: &Graph, block: u32) -> Result<bool, AllocError>
    requires { block < length graph.now }
    ensures yes { IfOk result (λ r. IsTrue r → IsCyclic graph.now block) }
    ensures no { IfOk result (λ r. IsCyclic graph.now block → IsTrue r) }
{
    let seen = reach(alloc, graph, graph.links(block))?;
    Ok(seen[block as usize])
}

// Whether the numbers show that the block lies on no cycle.
fn is_off(graph: &Graph, numbers: &[u32], steady: bool, block: u32) -> bool
    requires within { block < length graph.now }
    requires steady { IsTrue steady → NeverRises graph.now numbers.now }
    ensures { IsTrue result → IsCyclic graph.now block → ⊥ }
{
    steady && fall_at(graph, numbers, block)
}

// Whether the block lies on a cycle: a search, unless the numbers show that it does not.
fn is_on(
    alloc: Global,
    graph: &Graph,
    numbers: &[u32],
    steady: bool,
    block: u32,
) -> Result<bool, AllocError>
    requires within { block < length graph.now }
    requires steady { IsTrue steady → NeverRises graph.now numbers.now }
    ensures yes { IfOk result (λ r. IsTrue r → IsCyclic graph.now block) }
    ensures no { IfOk result (λ r. IsCyclic graph.now block → IsTrue r) }
{
    if is_off(graph, numbers, steady, block) {
        Ok(false)
    } else {
        is_cyclic(alloc, graph, block)
    }
}

// The first block that lies on a cycle, at most the given one. Blocks before it are told by the numbers of components,
// which rise along no link and fall along those that lie on no cycle: so one search is enough.
fn first_cyclic(alloc: Global, graph: &Graph, last: u32) -> Result<u32, AllocError>
    requires within { last < length graph.now }
    requires cyclic { IsCyclic graph.now last }
    ensures { IfOk result (λ b. IsFirstCyclic graph.now b) }
{
    let numbers = component_numbers(alloc, graph)?;
    let steady = never_rise(graph, &numbers);
    for block in 0..last {
        if is_on(alloc, graph, &numbers, steady, block)? {
            return Ok(block);
        }
    }
    Ok(last)
}

/// Ranks the blocks so that the rank falls along every link, or tells the first block on a cycle. The only error is
/// want of memory. It takes the time of all blocks and links.
pub fn rank(alloc: Global, graph: &Graph) -> Result<Ranking, AllocError>
    ensures { IfOk result (λ r. IsRanking graph.now r) }
{
    let walked = walk_all(alloc, graph)?;
    match walked {
        Ranking::Ranked(ranks) => Ok(Ranking::Ranked(ranks)),
        Ranking::Cyclic(block) => {
            let first = first_cyclic(alloc, graph, block)?;
            Ok(Ranking::Cyclic(first))
        }
    }
}
