//! Numbers of the components of a graph: blocks have the same number where each is reached from the other.

ghost use Rattle.std.specs.Prelude.{◌≡◌, slice_index};

use crate::graph::Graph;
use crate::trail::Frame;
use std::alloc::{AllocError, Global};

// A walk by Tarjan's algorithm for strongly connected components. Of the numbers nothing is proved: who uses them tests
// what it needs.
#[derive(Drop)]
struct Components {
    // For each block when it was begun, from 1; 0 where it was not.
    begun: Vec<u32>,
    // For each block when the earliest open block was begun that was found to be reached from it.
    lows: Vec<u32>,
    // For each block the number of its component, from 1; 0 until it has one.
    numbers: Vec<u32>,
    // The blocks that were begun and have no number.
    waiting: Vec<u32>,
    frames: Vec<Frame>,
    // How many blocks were begun, and how many components have a number.
    begun_blocks: u32,
    components: u32,
}

/// The number at a place, 0 past the end.
pub(crate) fn number_at(numbers: &[u32], place: u32) -> u32
    ensures { result ≡ slice_index numbers.now place }
{
    match numbers.get(place as usize) {
        Some(number) => *number,
        None => 0,
    }
}

// Writes a number at a place, unless it is past the end.
fn put(numbers: &mut [u32], place: u32, number: u32) {
    if let Some(slot) = numbers.get_mut(place as usize) {
        *slot = number;
    }
}

// Begins with a block.
fn enter(walk: &mut Components, block: u32) -> Result<(), AllocError> {
    walk.begun_blocks = walk.begun_blocks.saturating_add(1);
    put(&mut walk.begun, block, walk.begun_blocks);
    put(&mut walk.lows, block, walk.begun_blocks);
    walk.waiting.push(block)?;
    walk.frames.push(Frame { block, place: 0 })?;
    Ok(())
}

// An earlier block is reached from the block.
fn lower(walk: &mut Components, block: u32, low: u32) {
    if low < number_at(&walk.lows, block) {
        put(&mut walk.lows, block, low);
    }
}

// Numbers the block and those that were begun after it and wait: they are its component.
fn close(walk: &mut Components, block: u32) {
    walk.components = walk.components.saturating_add(1);
    while let Some(other) = walk.waiting.pop() {
        put(&mut walk.numbers, other, walk.components);
        if other == block {
            break;
        }
    }
}

// Ends with a block, all of whose links were followed.
fn leave(walk: &mut Components, block: u32) {
    let low = number_at(&walk.lows, block);
    if low == number_at(&walk.begun, block) {
        close(walk, block);
    }
    if let Some(under) = walk.frames.last() {
        let under = under.block;
        lower(walk, under, low);
    }
}

// Follows a link.
fn follow(walk: &mut Components, block: u32, next: u32) -> Result<(), AllocError> {
    let begun = number_at(&walk.begun, next);
    if begun == 0 {
        enter(walk, next)?;
    } else if number_at(&walk.numbers, next) == 0 {
        lower(walk, block, begun);
    }
    Ok(())
}

// One step; whether there is another.
fn step(graph: &Graph, walk: &mut Components) -> Result<bool, AllocError> {
    match walk.frames.pop() {
        Some(frame) => {
            if frame.block as usize >= graph.len() {
                return Ok(false);
            }
            let links = graph.links(frame.block);
            if frame.place < links.len() {
                walk.frames.push(Frame {
                    block: frame.block,
                    place: frame.place + 1,
                })?;
                follow(walk, frame.block, links[frame.place])?;
            } else {
                leave(walk, frame.block);
            }
            Ok(true)
        }
        None => Ok(false),
    }
}

/// A number for each block, meant to stay the same along a link that lies on a cycle and to fall along all others. The
/// only error is want of memory. It takes the time of all blocks and links.
pub(crate) fn component_numbers(alloc: Global, graph: &Graph) -> Result<Vec<u32>, AllocError> {
    let blocks = graph.len();
    let mut walk = Components {
        begun: vec![in alloc; 0; blocks]?,
        lows: vec![in alloc; 0; blocks]?,
        numbers: vec![in alloc; 0; blocks]?,
        waiting: Vec::new(alloc),
        frames: Vec::new(alloc),
        begun_blocks: 0,
        components: 0,
    };
    for root in 0..blocks as u32 {
        if number_at(&walk.begun, root) == 0 {
            enter(&mut walk, root)?;
            for _ in 0..u64::MAX {
                if !step(graph, &mut walk)? {
                    break;
                }
            }
        }
    }
    Ok(walk.numbers)
}
