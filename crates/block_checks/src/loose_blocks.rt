//! Tests that ask of each block alone: its mutation, and links that name no block.

ghost use Rattle.std.specs.Prelude.{◌≡◌, IfOk, IfErr};
ghost use Rattle.std.specs.Option.{option_copied};
ghost use Rattle.project_spec.specs.Refusals.{Mutations, Links};
ghost use Rattle.project_spec.specs.Linked.{dangling};
ghost use Rattle.block_checks.specs.Rows.{dangling_in, unknown};
ghost use Rattle.block_checks.specs.Stops.{loose_test, PassesAlone, StopsAlone, PassesIn, StopsIn};

use crate::rows::link_in;
use crate::stop;
use crate::stop::Stop;
use crate::test_order::LooseTest;
use block_table::BlockTable;
use project_json::Text;
use project_spec::{At, Block, Input, Link, Mutation, Refusal};
use std::alloc::Global;

// Tests the mutation of a block.
fn test_mutation(at: At, block: &Block) -> Result<(), Stop>
    ensures passes { IfOk result (λ _. PassesAlone Mutations at block.now) }
    ensures stop { IfErr result (StopsAlone Mutations at block.now) }
{
    match &block.mutation {
        Mutation::None => Ok(()),
        Mutation::Prototype(_) => Ok(()),
        Mutation::Call(_) => Ok(()),
        Mutation::Bad(why) => Err(Stop::Refused(Refusal::Mutation(at, *why))),
    }
}

// The id of a link that names no block.
fn unknown(link: Option<&Link>) -> Option<&Text>
    ensures { option_copied result ≡ unknown (option_copied link.entry) }
{
    match link {
        Some(Link::To(_)) => None,
        Some(Link::Unknown(id)) => Some(id),
        None => None,
    }
}

// The id of the first link of inputs that names no block.
fn dangling_in(inputs: &[(Text, Input)]) -> Option<&Text>
    ensures { option_copied result ≡ dangling_in inputs.now }
{
    for (_, input) in inputs {
        if let Some(id) = unknown(link_in(input)) {
            return Some(id);
        }
    }
    None
}

// The id of the first link of a block that names no block.
fn dangling(block: &Block) -> Option<&Text>
    ensures { option_copied result ≡ dangling block.now }
{
    match unknown(block.next.as_ref()) {
        Some(id) => Some(id),
        None => dangling_in(block.inputs.as_slice()),
    }
}

// Tests the links of a block.
fn test_links(alloc: Global, at: At, block: &Block) -> Result<(), Stop>
    ensures passes { IfOk result (λ _. PassesAlone Links at block.now) }
    ensures stop { IfErr result (StopsAlone Links at block.now) }
{
    match dangling(block) {
        Some(id) => Err(stop::dangling(alloc, at, id.as_str())),
        None => Ok(()),
    }
}

// Tests a block.
fn test_block(alloc: Global, test: LooseTest, at: At, block: &Block) -> Result<(), Stop>
    ensures passes { IfOk result (λ _. PassesAlone (loose_test test) at block.now) }
    ensures stop { IfErr result (StopsAlone (loose_test test) at block.now) }
{
    match test {
        LooseTest::Mutations => test_mutation(at, block),
        LooseTest::Links => test_links(alloc, at, block),
    }
}

/// Tests each block of a target, in order.
pub(crate) fn test_loose(
    alloc: Global,
    test: LooseTest,
    target: u32,
    table: &BlockTable,
) -> Result<(), Stop>
    ensures passes { IfOk result (λ _. PassesIn target table.now.blocks (loose_test test)) }
    ensures stop { IfErr result (StopsIn target table.now.blocks (loose_test test)) }
{
    let blocks = table.blocks();
    for block in 0..table.len() {
        test_block(alloc, test, At { target, block }, &blocks[block as usize])?;
    }
    Ok(())
}
