//! Cycles of links, and the blocks of checked scripts.

ghost use Rattle.std.specs.Prelude.{◌≡◌, IfOk, IfErr};
ghost use Rattle.link_graph.specs.Reach.{IsReach};
ghost use Rattle.project_spec.specs.Refusals.{Cycles};
ghost use Rattle.block_checks.specs.Kept.{IsKept, AreChecked};
ghost use Rattle.block_checks.specs.Rows.{rows};
ghost use Rattle.block_checks.specs.Stops.{PassesIn, StopsIn};

use crate::block_links::BlockLinks;
use crate::rows::{graph_of_links, heads};
use crate::stop::Stop;
use block_table::BlockTable;
use link_graph::{Graph, Ranking, rank, reach};
use project_spec::{At, Refusal};
use std::alloc::{AllocError, Global};

// Whether each block is checked.
fn checked(alloc: Global, table: &BlockTable, graph: &Graph) -> Result<Vec<bool>, AllocError>
    requires { graph.now ≡ rows table.now.blocks }
    ensures { IfOk result (λ v. AreChecked table.now.blocks v.items) }
{
    let heads = heads(alloc, table)?;
    reach(alloc, graph, &heads)
}

/// Whether each block of a target is in a script: it is a head, or links lead to it from one. The only error is want of
/// memory.
pub fn in_scripts(alloc: Global, table: &BlockTable) -> Result<Vec<bool>, AllocError>
    ensures { IfOk result (λ v. AreChecked table.now.blocks v.items) }
{
    let graph = graph_of_links(alloc, table)?;
    checked(alloc, table, &graph)
}

/// Ranks the blocks of a target, and finds the checked ones. It is refused by the first block on a cycle of links.
pub(crate) fn link_target(
    alloc: Global,
    target: u32,
    table: &BlockTable,
) -> Result<BlockLinks, Stop>
    ensures kept { IfOk result (λ links. IsKept table.now.blocks links) }
    ensures passes { IfOk result (λ _. PassesIn target table.now.blocks Cycles) }
    ensures stop { IfErr result (StopsIn target table.now.blocks Cycles) }
{
    let graph = graph_of_links(alloc, table)?;
    let ranking = rank(alloc, &graph)?;
    match ranking {
        Ranking::Ranked(ranks) => {
            let checked = checked(alloc, table, &graph)?;
            Ok(BlockLinks { ranks, checked })
        }
        Ranking::Cyclic(block) => Err(Stop::Refused(Refusal::Cyclic {
            at: At { target, block },
        })),
    }
}
