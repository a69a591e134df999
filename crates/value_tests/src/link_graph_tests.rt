//! Worked shapes: a block is a number, a link a pair of numbers.

use link_graph::{Dangling, Graph, Ranking, first_deep, rank, reach};
use std::alloc::{AllocError, Global};
use std::process::Abort;

// So many blocks with these links, in the order in which they stand here.
fn rows(alloc: Global, blocks: u32, links: &[(u32, u32)]) -> Result<Vec<Vec<u32>>, AllocError> {
    let mut rows = Vec::new(alloc);
    for _ in 0..blocks {
        rows.push(Vec::new(alloc))?;
    }
    for (from, to) in links {
        if let Some(row) = rows.get_mut(*from as usize) {
            row.push(*to)?;
        }
    }
    Ok(rows)
}

fn graph(
    rt: &impl Abort,
    alloc: Global,
    blocks: u32,
    links: &[(u32, u32)],
) -> Result<Graph, Dangling> {
    let rows = rows(alloc, blocks, links).expect(rt, "memory");
    assert!(rt; rows.len() < 1_000_000);
    Graph::new(rows)
}

// The first block on a cycle.
fn first_cyclic(rt: &impl Abort, alloc: Global, blocks: u32, links: &[(u32, u32)]) -> Option<u32> {
    let graph = graph(rt, alloc, blocks, links).expect(rt, "links");
    match rank(alloc, &graph).expect(rt, "memory") {
        Ranking::Ranked(_) => None,
        Ranking::Cyclic(block) => Some(block),
    }
}

// The first block from which more blocks than the limit nest, of those that count.
fn deep(
    rt: &impl Abort,
    alloc: Global,
    links: &[(u32, u32)],
    counts: &[bool],
    limit: u32,
) -> Option<u32> {
    assert!(rt; counts.len() < 1_000_000);
    let graph = graph(rt, alloc, counts.len() as u32, links).expect(rt, "links");
    assert_eq!(rt; graph.len(), counts.len());
    let ranking = rank(alloc, &graph).expect(rt, "memory");
    match ranking {
        Ranking::Ranked(ranks) => {
            first_deep(alloc, &graph, &ranks, counts, limit).expect(rt, "memory")
        }
        Ranking::Cyclic(_) => None,
    }
}

#[test]
fn the_first_dangling_link_is_told(rt: HostRuntime) {
    let alloc = rt.alloc();
    assert!(rt; graph(&rt, alloc, 2, &[(0, 1), (1, 0)]).is_ok());
    // the block with the smaller number comes first, wherever its link leads
    let told = graph(&rt, alloc, 3, &[(2, 7), (1, 9), (0, 2)]).err();
    assert_eq!(rt; told, Some(Dangling { block: 1, to: 9 }));
    // of one block the first link that dangles, not the smallest number
    let told = graph(&rt, alloc, 2, &[(0, 1), (0, 5), (0, 2)]).err();
    assert_eq!(rt; told, Some(Dangling { block: 0, to: 5 }));
}

#[test]
fn the_first_block_on_a_cycle_is_told(rt: HostRuntime) {
    let alloc = rt.alloc();
    // no blocks; a chain; a star; two blocks that share a third
    assert_eq!(rt; first_cyclic(&rt, alloc, 0, &[]), None);
    assert_eq!(rt; first_cyclic(&rt, alloc, 3, &[(0, 1), (1, 2)]), None);
    assert_eq!(rt;
        first_cyclic(&rt, alloc, 4, &[(3, 0), (3, 1), (3, 2)]),
        None
    );
    assert_eq!(rt;
        first_cyclic(&rt, alloc, 4, &[(0, 1), (0, 2), (1, 3), (2, 3), (2, 3)]),
        None
    );
    // a link to itself; a cycle of two, to which a block leads and from which one is led to
    assert_eq!(rt; first_cyclic(&rt, alloc, 2, &[(1, 1)]), Some(1));
    assert_eq!(rt;
        first_cyclic(&rt, alloc, 4, &[(0, 2), (2, 3), (3, 2), (3, 1)]),
        Some(2)
    );
    // two cycles with a chain between them: the walk comes to that of 4 and 5 first
    let two = [(0, 1), (1, 5), (5, 4), (4, 5), (2, 3), (3, 2), (3, 0)];
    assert_eq!(rt; first_cyclic(&rt, alloc, 6, &two), Some(2));
    let two = [(0, 1), (1, 0), (1, 2), (2, 3), (3, 4), (4, 3)];
    assert_eq!(rt; first_cyclic(&rt, alloc, 5, &two), Some(0));
}

#[test]
fn blocks_are_listed_by_rank(rt: HostRuntime) {
    let alloc = rt.alloc();
    let graph = graph(&rt, alloc, 3, &[(0, 2), (2, 1)]).expect(&rt, "links");
    assert_eq!(rt; graph.len(), 3);
    assert_eq!(rt; graph.links(0), [2].as_slice());
    let ranking = rank(alloc, &graph).expect(&rt, "memory");
    match ranking {
        Ranking::Ranked(ranks) => {
            assert_eq!(rt; ranks.order(), [1, 2, 0].as_slice());
            assert_eq!(rt; ranks.of(0), 2);
        }
        Ranking::Cyclic(_) => assert!(rt; false),
    }
}

#[test]
fn what_is_reached(rt: HostRuntime) {
    let alloc = rt.alloc();
    let graph = graph(&rt, alloc, 5, &[(0, 1), (1, 0), (2, 1), (3, 4)]).expect(&rt, "links");
    assert!(rt; graph.len() == 5);
    let seen = reach(alloc, &graph, &[2]).expect(&rt, "memory");
    assert_eq!(rt;
        seen.as_slice(),
        [true, true, true, false, false].as_slice()
    );
    let seen = reach(alloc, &graph, &[4, 0, 4]).expect(&rt, "memory");
    assert_eq!(rt;
        seen.as_slice(),
        [true, true, false, false, true].as_slice()
    );
    let seen = reach(alloc, &graph, &[]).expect(&rt, "memory");
    assert_eq!(rt;
        seen.as_slice(),
        [false, false, false, false, false].as_slice()
    );
}

// A link from each block below the last to the next.
fn chain(alloc: Global, blocks: u32) -> Result<Vec<(u32, u32)>, AllocError> {
    let mut links = Vec::new(alloc);
    for block in 1..blocks {
        links.push((block - 1, block))?;
    }
    Ok(links)
}

fn all_count(alloc: Global, blocks: usize) -> Result<Vec<bool>, AllocError> {
    Ok(vec![in alloc; true; blocks]?)
}

#[test]
fn the_first_block_that_nests_too_deep_is_told(rt: HostRuntime) {
    let alloc = rt.alloc();
    let counts = all_count(alloc, 256).expect(&rt, "memory");
    let links = chain(alloc, 256).expect(&rt, "memory");
    assert_eq!(rt; deep(&rt, alloc, &links, &counts, 256), None);
    let mut counts = all_count(alloc, 257).expect(&rt, "memory");
    let links = chain(alloc, 257).expect(&rt, "memory");
    assert_eq!(rt; deep(&rt, alloc, &links, &counts, 256), Some(0));
    // one block of the chain does not count
    if let Some(count) = counts.get_mut(100) {
        *count = false;
    }
    assert_eq!(rt; deep(&rt, alloc, &links, &counts, 256), None);
    assert_eq!(rt; deep(&rt, alloc, &links, &counts, 255), Some(0));
    // 0 and 3 lead to 1, 1 leads to 2: the chains from 0 and 3 have two blocks that count
    let links = [(0, 1), (3, 1), (1, 2)];
    let counts = [true, false, true, true];
    assert_eq!(rt; deep(&rt, alloc, &links, &counts, 1), Some(0));
    assert_eq!(rt; deep(&rt, alloc, &links, &counts, 2), None);
    assert_eq!(rt; deep(&rt, alloc, &[], &[], 0), None);
}

#[test]
fn long_shapes_take_the_time_of_their_links(rt: HostRuntime) {
    let alloc = rt.alloc();
    let blocks = 200_000;
    let mut links = chain(alloc, blocks).expect(&rt, "memory");
    assert_eq!(rt; first_cyclic(&rt, alloc, blocks, &links), None);
    let counts = all_count(alloc, 200_000).expect(&rt, "memory");
    assert_eq!(rt; deep(&rt, alloc, &links, &counts, 199_999), Some(0));
    // the end leads back by one block, and one third of the way to the front as well: then the cycles are two
    links.push((199_999, 199_998)).expect(&rt, "memory");
    assert_eq!(rt; first_cyclic(&rt, alloc, blocks, &links), Some(199_998));
    links.push((66_666, 66_665)).expect(&rt, "memory");
    assert_eq!(rt; first_cyclic(&rt, alloc, blocks, &links), Some(66_665));
    // half the blocks lead to the front of a chain that ends in a cycle
    let mut links = Vec::new(alloc);
    for block in 0..100_000 {
        links.push((block, 100_000)).expect(&rt, "memory");
        links
            .push((block + 100_000, (block + 100_001).min(199_999)))
            .expect(&rt, "memory");
    }
    assert_eq!(rt; first_cyclic(&rt, alloc, blocks, &links), Some(199_999));
}
