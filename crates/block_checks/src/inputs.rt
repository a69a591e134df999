//! Required inputs of the blocks of checked scripts.

ghost use Rattle.std.specs.Prelude.{◌≡◌, IfOk, IfErr, map, None};
ghost use Rattle.std.specs.Option.{option_copied};
ghost use Rattle.opcode_table.specs.Views.{input_of};
ghost use Rattle.project_spec.specs.Refusals.{Inputs};
ghost use Rattle.project_spec.specs.Linked.{is_there, missing_in, missing_input};
ghost use Rattle.block_checks.specs.Kept.{IsKept};
ghost use Rattle.block_checks.specs.Rows.{lacks};
ghost use Rattle.block_checks.specs.Stops.{PassesIn, StopsIn, StopsMissing};

use crate::block_links::BlockLinks;
use crate::stop;
use crate::stop::Stop;
use block_table::{BlockTable, named};
use opcode_table::{InputSpec, spec};
use project_spec::{At, Block, Code, Input};
use std::alloc::Global;

// Whether an input of the name is there.
fn is_there(name: &str, input: Option<&Input>) -> bool
    ensures { result ≡ is_there name.now (option_copied input.entry) }
{
    match input {
        None => false,
        Some(Input::Absent) => false,
        Some(Input::Reporter(_)) => true,
        Some(Input::Literal(_)) => name != "custom_block",
        Some(Input::Variable(_)) => name != "custom_block",
        Some(Input::List(_)) => name != "custom_block",
    }
}

// Whether a block lacks an input of the table.
fn lacks(block: &Block, wanted: &InputSpec) -> bool
    ensures { result ≡ lacks block.now (input_of wanted.now) }
{
    let there = is_there(wanted.name, named(wanted.name, block.inputs.as_slice()));
    wanted.required && !there
}

// The first required input that the block lacks.
fn missing_in(block: &Block, inputs: &'static [InputSpec]) -> Option<&'static str>
    ensures { option_copied result ≡ missing_in block.now (map input_of inputs.now) }
{
    for wanted in inputs {
        if lacks(block, wanted) {
            return Some(wanted.name);
        }
    }
    None
}

// The first required input that the block lacks, in the order of the table.
fn missing_input(block: &Block) -> Option<&'static str>
    ensures { option_copied result ≡ missing_input block.now }
{
    match &block.code {
        Code::Known(op) => missing_in(block, spec(*op).inputs),
        Code::Other(_) => None,
    }
}

// Tests the inputs of a block.
fn test_block(alloc: Global, at: At, block: &Block) -> Result<(), Stop>
    ensures passes { IfOk result (λ _. missing_input block.now ≡ None) }
    ensures stop { IfErr result (StopsMissing at block.now) }
{
    match missing_input(block) {
        Some(name) => Err(stop::missing(alloc, at, name)),
        None => Ok(()),
    }
}

/// Tests the inputs of each checked block of a target, in order.
pub(crate) fn test_inputs(
    alloc: Global,
    target: u32,
    table: &BlockTable,
    links: &BlockLinks,
) -> Result<(), Stop>
    requires { IsKept table.now.blocks links.now }
    ensures passes { IfOk result (λ _. PassesIn target table.now.blocks Inputs) }
    ensures stop { IfErr result (StopsIn target table.now.blocks Inputs) }
{
    let blocks = table.blocks();
    for block in 0..table.len() {
        if links.is_checked(block) {
            test_block(alloc, At { target, block }, &blocks[block as usize])?;
        }
    }
    Ok(())
}
