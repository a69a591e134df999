//! The recorded values of edge hats.

ghost use Rattle.std.specs.Prelude.{◌≡◌, ◌≤◌, length, nat_le, Some, OnOk, OnErr};
ghost use Rattle.std.specs.List.{position, insert};
ghost use Rattle.machine_spec.specs.Frame.{with_edge};
ghost use Rattle.targets.specs.Edges.{edge_of};

use machine_spec::{BlockId, Edges};
use std::alloc::AllocError;

// The recorded value of a block.
pub(crate) fn recorded(edges: &[(BlockId, bool)], hat: BlockId) -> Option<bool>
    ensures { result ≡ edge_of hat edges.now }
{
    for edge in edges {
        if edge.0 == hat {
            return Some(edge.1);
        }
    }
    None
}

// The first place that is not below a block.
fn place(edges: &[(BlockId, bool)], hat: BlockId) -> Option<usize>
    ensures { result ≡ position (λ x. nat_le hat x.0) edges.now }
{
    edges.iter().position(|edge| hat.0 <= edge.0.0)
}

// The values with that of a block, and whether there was memory for it.
pub(crate) fn recording(edges: Edges, hat: BlockId, value: bool) -> (Edges, Result<(), AllocError>)
    ensures ok { OnOk result.1 (result.0 ≡ with_edge hat value edges) }
    ensures err { OnErr result.1 (result.0 ≡ edges) }
{
    match place(edges.as_slice(), hat) {
        Some(place) => recording_at(edges, place, hat, value),
        None => {
            let mut edges = edges;
            let pushed = edges.push((hat, value));
            (edges, pushed)
        }
    }
}

// The values with that of a block at the first place that is not below it.
fn recording_at(
    edges: Edges,
    place: usize,
    hat: BlockId,
    value: bool,
) -> (Edges, Result<(), AllocError>)
    requires { position (λ x. nat_le hat x.0) edges ≡ Some place }
    ensures ok { OnOk result.1 (result.0 ≡ with_edge hat value edges) }
    ensures err { OnErr result.1 (result.0 ≡ edges) }
{
    let mut edges = edges.into_vec();
    if edges[place].0 == hat {
        edges[place] = (hat, value);
        return (Edges::from_vec(edges), Ok(()));
    }
    let put = put_in(&mut edges, place, (hat, value));
    (Edges::from_vec(edges), put)
}

// Puts a value at a place, where there is memory for it.
fn put_in(
    edges: &mut Vec<(BlockId, bool)>,
    place: usize,
    edge: (BlockId, bool),
) -> Result<(), AllocError>
    requires { place ≤ length edges.old.items }
    ensures ok { OnOk result (edges.new.items ≡ insert edges.old.items place edge) }
    ensures err { OnErr result (edges.new.items ≡ edges.old.items) }
{
    edges.insert(place, edge)?;
    Ok(())
}
