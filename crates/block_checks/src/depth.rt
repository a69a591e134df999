//! How deep reporters nest.

ghost use Rattle.std.specs.Prelude.{IfOk, IfErr};
ghost use Rattle.project_spec.specs.Refusals.{Depth};
ghost use Rattle.block_checks.specs.Kept.{IsKept};
ghost use Rattle.block_checks.specs.Stops.{PassesIn, StopsIn};

use crate::block_links::BlockLinks;
use crate::rows::{graph_of_inputs, reporters};
use crate::stop::Stop;
use block_table::BlockTable;
use link_graph::first_deep;
use project_spec::{At, Refusal};
use std::alloc::Global;

// How deep reporters may nest.
const DEEPEST: u32 = 256;

/// Tests how deep reporters nest from the blocks of a target.
pub(crate) fn test_depth(
    alloc: Global,
    target: u32,
    table: &BlockTable,
    links: &BlockLinks,
) -> Result<(), Stop>
    requires { IsKept table.now.blocks links.now }
    ensures passes { IfOk result (λ _. PassesIn target table.now.blocks Depth) }
    ensures stop { IfErr result (StopsIn target table.now.blocks Depth) }
{
    let graph = graph_of_inputs(alloc, table)?;
    let counts = reporters(alloc, table.blocks())?;
    let deep = first_deep(alloc, &graph, links.ranks(), &counts, DEEPEST)?;
    match deep {
        Some(block) => Err(Stop::Refused(Refusal::TooDeep {
            at: At { target, block },
        })),
        None => Ok(()),
    }
}
