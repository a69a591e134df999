//! The tests, one after another, each over all targets.

ghost use Rattle.std.specs.Prelude.{◌≡◌, ◌<◌, ◌^◌, IfOk, IfErr, length};
ghost use Rattle.std.specs.List.{All, AllZip};
ghost use Rattle.project_spec.specs.Refusals.{Cycles, tests, Passes};
ghost use Rattle.block_checks.specs.Kept.{blocks_in, IsKept, IsRefusal};
ghost use Rattle.block_checks.specs.Stops.{loose_test, linked_test, PassesIn, StopsIn, StopsAt, StopsAtOneOf};

use crate::block_links::BlockLinks;
use crate::checked_scripts::link_target;
use crate::depth::test_depth;
use crate::fields::test_fields;
use crate::inputs::test_inputs;
use crate::loose_blocks::test_loose;
use crate::places::test_places;
use crate::stop::Stop;
use block_table::BlockTable;
use project_spec::Refusal;
use std::alloc::Global;

// A test that asks of each block alone, also of loose ones.
#[derive(Clone, Copy)]
pub(crate) enum LooseTest {
    Mutations,
    Links,
}

// A test of blocks without cycles.
#[derive(Clone, Copy)]
pub(crate) enum LinkedTest {
    Places,
    Inputs,
    Fields,
    Depth,
}

// Tests the blocks of each target.
fn test_all_loose(alloc: Global, test: LooseTest, tables: &[BlockTable]) -> Result<(), Stop>
    requires { length tables.now < 2 ^ 32 }
    ensures passes { IfOk result (λ _. Passes (blocks_in tables.now) (loose_test test)) }
    ensures stop { IfErr result (StopsAt (blocks_in tables.now) (loose_test test)) }
{
    for (target, table) in tables.iter().enumerate() {
        test_loose(alloc, test, target as u32, table)?;
    }
    Ok(())
}

// Ranks the blocks of each target, and finds the checked ones.
fn link_all(alloc: Global, tables: &[BlockTable]) -> Result<Vec<BlockLinks>, Stop>
    requires { length tables.now < 2 ^ 32 }
    ensures kept { IfOk result (λ v. AllZip IsKept (blocks_in tables.now) v.items) }
    ensures passes { IfOk result (λ _. Passes (blocks_in tables.now) Cycles) }
    ensures stop { IfErr result (StopsAt (blocks_in tables.now) Cycles) }
{
    let mut links = Vec::new(alloc);
    for (target, table) in tables.iter().enumerate() {
        let linked = link_target(alloc, target as u32, table)?;
        links.push(linked)?;
    }
    Ok(links)
}

// Tests the blocks of a target.
fn test_target(
    alloc: Global,
    test: LinkedTest,
    target: u32,
    table: &BlockTable,
    links: &BlockLinks,
) -> Result<(), Stop>
    requires { IsKept table.now.blocks links.now }
    ensures passes { IfOk result (λ _. PassesIn target table.now.blocks (linked_test test)) }
    ensures stop { IfErr result (StopsIn target table.now.blocks (linked_test test)) }
{
    match test {
        LinkedTest::Places => test_places(alloc, target, table, links),
        LinkedTest::Inputs => test_inputs(alloc, target, table, links),
        LinkedTest::Fields => test_fields(alloc, target, table, links),
        LinkedTest::Depth => test_depth(alloc, target, table, links),
    }
}

// Tests the blocks of each target.
fn test_all_linked(
    alloc: Global,
    test: LinkedTest,
    tables: &[BlockTable],
    links: &[BlockLinks],
) -> Result<(), Stop>
    requires few { length tables.now < 2 ^ 32 }
    requires kept { AllZip IsKept (blocks_in tables.now) links.now }
    ensures passes { IfOk result (λ _. Passes (blocks_in tables.now) (linked_test test)) }
    ensures stop { IfErr result (StopsAt (blocks_in tables.now) (linked_test test)) }
{
    for (target, table) in tables.iter().enumerate() {
        test_target(alloc, test, target as u32, table, &links[target])?;
    }
    Ok(())
}

// All tests, in their order.
fn test_all(alloc: Global, tables: &[BlockTable]) -> Result<Vec<BlockLinks>, Stop>
    requires { length tables.now < 2 ^ 32 }
    ensures passes { IfOk result (λ _. All (Passes (blocks_in tables.now)) tests) }
    ensures kept { IfOk result (λ v. AllZip IsKept (blocks_in tables.now) v.items) }
    ensures stop { IfErr result (StopsAtOneOf (blocks_in tables.now) tests) }
{
    test_all_loose(alloc, LooseTest::Mutations, tables)?;
    test_all_loose(alloc, LooseTest::Links, tables)?;
    let links = link_all(alloc, tables)?;
    test_all_linked(alloc, LinkedTest::Places, tables, &links)?;
    test_all_linked(alloc, LinkedTest::Inputs, tables, &links)?;
    test_all_linked(alloc, LinkedTest::Fields, tables, &links)?;
    test_all_linked(alloc, LinkedTest::Depth, tables, &links)?;
    Ok(links)
}

/// Tests the blocks of all targets, and keeps of each target the ranks of its blocks and which of them are checked. The
/// tests come in this order, each over the whole file, target by target and block by block: the mutation of a prototype
/// or a call is fit; every link names a block; no block lies on a cycle; then, in checked scripts, a block fits its
/// place, has its required inputs, and has its fields with values that are not refused; and reporters nest at most 256
/// deep. The error is what the first block is told that fails the first of them that any fails, or want of memory.
pub fn test_blocks(alloc: Global, tables: &[BlockTable]) -> Result<Vec<BlockLinks>, Refusal>
    requires { length tables.now < 2 ^ 32 }
    ensures passes { IfOk result (λ _. All (Passes (blocks_in tables.now)) tests) }
    ensures kept { IfOk result (λ v. AllZip IsKept (blocks_in tables.now) v.items) }
    ensures refused { IfErr result (IsRefusal (blocks_in tables.now)) }
{
    match test_all(alloc, tables) {
        Ok(links) => Ok(links),
        Err(Stop::Refused(refusal)) => Err(refusal),
        Err(Stop::NoMemory) => Err(Refusal::NoMemory),
    }
}
