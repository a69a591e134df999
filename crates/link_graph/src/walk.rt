//! A walk along links, depth first, that ranks blocks or finds a cycle.

ghost use Rattle.std.specs.Prelude.{◌≡◌, ℕ, ◌<◌, ◌≤◌, ◌+◌, length, slice_get, IfOk, IfNone, IfSome, Some, [], ◌∷◌};
ghost use Rattle.link_graph.specs.Links.{links_of, IsCyclic};
ghost use Rattle.link_graph.specs.Walk.{IsWalk, IsBegun, left, ahead, IsTurn, IsFewer, IsWalked};

use crate::graph::Graph;
use crate::ranks::{Ranking, Ranks};
use crate::trail::{Frame, Trail};
use std::alloc::{AllocError, Global};

/// How far a walk has come with a block.
#[derive(Clone, Copy)]
pub(crate) enum Mark {
    /// It was not begun.
    New,
    /// It stands on the trail.
    Open,
    /// All chains from it were followed.
    Done,
}

// What a walk knows of the blocks, and its frames but the top.
#[derive(Drop)]
struct Walk {
    marks: Vec<Mark>,
    ranks: Vec<usize>,
    order: Vec<u32>,
    under: Trail,
}

// Where a walk goes on.
#[derive(Clone, Copy)]
enum Turn {
    // From this frame.
    At(Frame),
    // Nowhere: the trail is empty.
    Ended,
    // Nowhere: this block lies on a cycle.
    Closed(u32),
}

// Begins with a new block, over the frame whose link leads to it.
fn enter(graph: &Graph, walk: &mut Walk, top: Frame, next: u32) -> Result<Frame, AllocError>
    requires walk { IsWalk graph.now walk.old.marks.items walk.old.ranks.items walk.old.order.items (top ∷ walk.old.under) }
    requires link { slice_get (links_of graph.now top.block) top.place ≡ Some next }
    requires fresh { slice_get walk.old.marks.items next ≡ Some Mark.New }
    ensures walk { IfOk result (λ f. IsWalk graph.now walk.new.marks.items walk.new.ranks.items walk.new.order.items (f ∷ walk.new.under)) }
    ensures begun { IfOk result (λ f. (b : ℕ) → IsBegun walk.old.marks.items b → IsBegun walk.new.marks.items b) }
    ensures fewer { IfOk result (λ f. left graph.now walk.new.marks.items + ahead graph.now (f ∷ walk.new.under) < left graph.now walk.old.marks.items + ahead graph.now (top ∷ walk.old.under)) }
{
    walk.marks[next as usize] = Mark::Open;
    walk.under.push(top)?;
    Ok(Frame {
        block: next,
        place: 0,
    })
}

// Ends with the block of the frame, all of whose links were followed.
fn leave(graph: &Graph, walk: &mut Walk, top: Frame) -> Result<Turn, AllocError>
    requires walk { IsWalk graph.now walk.old.marks.items walk.old.ranks.items walk.old.order.items (top ∷ walk.old.under) }
    requires end { length (links_of graph.now top.block) ≤ top.place }
    ensures walk { IfOk result (λ t. IsTurn graph.now walk.new.marks.items walk.new.ranks.items walk.new.order.items walk.new.under t) }
    ensures begun { IfOk result (λ t. (b : ℕ) → IsBegun walk.old.marks.items b → IsBegun walk.new.marks.items b) }
    ensures fewer { IfOk result (λ t. IsFewer graph.now walk.new.marks.items walk.new.under (left graph.now walk.old.marks.items + ahead graph.now (top ∷ walk.old.under)) t) }
{
    let rank = walk.order.len();
    walk.marks[top.block as usize] = Mark::Done;
    walk.ranks[top.block as usize] = rank;
    walk.order.push(top.block)?;
    match walk.under.pop() {
        Some(frame) => Ok(Turn::At(frame)),
        None => Ok(Turn::Ended),
    }
}

// One step: past a link, along one, or back. The place moves on only once the link's block is done, so that coming
// back is no case of its own.
fn go_on(graph: &Graph, walk: &mut Walk, top: Frame) -> Result<Turn, AllocError>
    requires walk { IsWalk graph.now walk.old.marks.items walk.old.ranks.items walk.old.order.items (top ∷ walk.old.under) }
    ensures walk { IfOk result (λ t. IsTurn graph.now walk.new.marks.items walk.new.ranks.items walk.new.order.items walk.new.under t) }
    ensures begun { IfOk result (λ t. (b : ℕ) → IsBegun walk.old.marks.items b → IsBegun walk.new.marks.items b) }
    ensures fewer { IfOk result (λ t. IsFewer graph.now walk.new.marks.items walk.new.under (left graph.now walk.old.marks.items + ahead graph.now (top ∷ walk.old.under)) t) }
{
    let links = graph.links(top.block);
    if top.place < links.len() {
        let next = links[top.place];
        match walk.marks[next as usize] {
            Mark::New => {
                let frame = enter(graph, walk, top, next)?;
                Ok(Turn::At(frame))
            }
            Mark::Open => Ok(Turn::Closed(next)),
            Mark::Done => Ok(Turn::At(Frame {
                block: top.block,
                place: top.place + 1,
            })),
        }
    } else {
        leave(graph, walk, top)
    }
}

// Walks from a block that is new until all that it leads to is done. `Some(b)`: b lies on a cycle.
fn walk_from(graph: &Graph, walk: &mut Walk, root: u32) -> Result<Option<u32>, AllocError>
    requires walk { IsWalk graph.now walk.old.marks.items walk.old.ranks.items walk.old.order.items [] }
    requires under { walk.old.under ≡ [] }
    requires fresh { slice_get walk.old.marks.items root ≡ Some Mark.New }
    ensures walk { IfOk result (λ o. IfNone o (IsWalk graph.now walk.new.marks.items walk.new.ranks.items walk.new.order.items [] × (walk.new.under ≡ []))) }
    ensures begun { IfOk result (λ o. IfNone o ((b : ℕ) → IsBegun walk.old.marks.items b → IsBegun walk.new.marks.items b)) }
    ensures root { IfOk result (λ o. IfNone o (IsBegun walk.new.marks.items root)) }
    ensures cyclic { IfOk result (λ o. IfSome o (λ b. IsCyclic graph.now b)) }
{
    walk.marks[root as usize] = Mark::Open;
    let mut top = Frame {
        block: root,
        place: 0,
    };
    loop {
        match go_on(graph, walk, top)? {
            Turn::At(frame) => top = frame,
            Turn::Ended => return Ok(None),
            Turn::Closed(block) => return Ok(Some(block)),
        }
    }
}

// Walks from a block unless it was begun.
fn visit(graph: &Graph, walk: &mut Walk, root: u32) -> Result<Option<u32>, AllocError>
    requires walk { IsWalk graph.now walk.old.marks.items walk.old.ranks.items walk.old.order.items [] }
    requires under { walk.old.under ≡ [] }
    requires within { root < length graph.now }
    ensures walk { IfOk result (λ o. IfNone o (IsWalk graph.now walk.new.marks.items walk.new.ranks.items walk.new.order.items [] × (walk.new.under ≡ []))) }
    ensures begun { IfOk result (λ o. IfNone o ((b : ℕ) → IsBegun walk.old.marks.items b → IsBegun walk.new.marks.items b)) }
    ensures root { IfOk result (λ o. IfNone o (IsBegun walk.new.marks.items root)) }
    ensures cyclic { IfOk result (λ o. IfSome o (λ b. IsCyclic graph.now b)) }
{
    match walk.marks[root as usize] {
        Mark::New => walk_from(graph, walk, root),
        Mark::Open => Ok(None),
        Mark::Done => Ok(None),
    }
}

// Every block is new.
fn begin(alloc: Global, graph: &Graph) -> Result<Walk, AllocError>
    ensures { IfOk result (λ w. IsWalk graph.now w.marks.items w.ranks.items w.order.items [] × (w.under ≡ [])) }
{
    let blocks = graph.len();
    let marks = vec![in alloc; Mark::New; blocks]?;
    let ranks = vec![in alloc; 0; blocks]?;
    Ok(Walk {
        marks,
        ranks,
        order: Vec::new(alloc),
        under: Trail::new(alloc),
    })
}

/// Ranks the blocks so that the rank falls along every link, or finds some block on a cycle. The only error is want
/// of memory.
pub(crate) fn walk_all(alloc: Global, graph: &Graph) -> Result<Ranking, AllocError>
    ensures { IfOk result (λ r. IsWalked graph.now r) }
{
    let mut walk = begin(alloc, graph)?;
    for root in 0..graph.len() as u32 {
        if let Some(block) = visit(graph, &mut walk, root)? {
            return Ok(Ranking::Cyclic(block));
        }
    }
    Ok(Ranking::Ranked(Ranks {
        ranks: walk.ranks,
        order: walk.order,
    }))
}
