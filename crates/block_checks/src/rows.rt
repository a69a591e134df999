//! The numbers of the blocks that links lead to.

ghost use Rattle.std.specs.Prelude.{◌≡◌, ℕ, ◌++◌, [], ◌∷◌, if◌then◌else◌, map, IfOk, OnOk};
ghost use Rattle.std.specs.Option.{option_copied};
ghost use Rattle.std.specs.List.{Contains};
ghost use Rattle.block_checks.specs.Rows.{known, listed, link_in, numbers_in, input_row, row, rows, input_rows, IsHeadAt, is_reporter};

use block_table::{BlockTable, has_role, is_head};
use link_graph::Graph;
use opcode_table::Role;
use project_json::Text;
use project_spec::{Block, Input, Link};
use std::alloc::{AllocError, Global};

// The block that a link leads to.
pub(crate) fn known(link: Option<&Link>) -> Option<u32>
    ensures { result ≡ known (option_copied link.entry) }
{
    match link {
        Some(Link::To(to)) => Some(to.0),
        Some(Link::Unknown(_)) => None,
        None => None,
    }
}

// The link of an input.
pub(crate) fn link_in(input: &Input) -> Option<&Link>
    ensures { option_copied result ≡ link_in input.now }
{
    match input {
        Input::Reporter(link) => Some(link),
        Input::Literal(_) => None,
        Input::Variable(_) => None,
        Input::List(_) => None,
        Input::Absent => None,
    }
}

// Appends the number of the block that a link leads to.
fn push_known(row: &mut Vec<u32>, link: Option<&Link>) -> Result<(), AllocError>
    ensures { OnOk result (row.new.items ≡ row.old.items ++ listed (known (option_copied link.entry))) }
{
    match known(link) {
        Some(to) => {
            row.push(to)?;
            Ok(())
        }
        None => Ok(()),
    }
}

// Appends the numbers of the blocks that the links of inputs lead to.
fn push_inputs(row: &mut Vec<u32>, inputs: &[(Text, Input)]) -> Result<(), AllocError>
    ensures { OnOk result (row.new.items ≡ row.old.items ++ numbers_in inputs.now) }
{
    for (_, input) in inputs {
        push_known(row, link_in(input))?;
    }
    Ok(())
}

// The numbers of the blocks that the inputs of a block lead to.
fn input_row(alloc: Global, block: &Block) -> Result<Vec<u32>, AllocError>
    ensures { IfOk result (λ v. v.items ≡ input_row block.now) }
{
    let mut row = Vec::new(alloc);
    push_inputs(&mut row, block.inputs.as_slice())?;
    Ok(row)
}

// The numbers of the blocks that a block leads to.
fn row(alloc: Global, block: &Block) -> Result<Vec<u32>, AllocError>
    ensures { IfOk result (λ v. v.items ≡ row block.now) }
{
    let mut row = Vec::new(alloc);
    push_known(&mut row, block.next.as_ref())?;
    push_inputs(&mut row, block.inputs.as_slice())?;
    Ok(row)
}

// The numbers of the blocks that each block leads to.
fn rows(alloc: Global, blocks: &[Block]) -> Result<Vec<Vec<u32>>, AllocError>
    ensures { IfOk result (λ v. map (λ r. r.items) v.items ≡ rows blocks.now) }
{
    let mut rows = Vec::new(alloc);
    for block in blocks {
        let row = row(alloc, block)?;
        rows.push(row)?;
    }
    Ok(rows)
}

// The numbers of the blocks that the inputs of each block lead to.
fn input_rows(alloc: Global, blocks: &[Block]) -> Result<Vec<Vec<u32>>, AllocError>
    ensures { IfOk result (λ v. map (λ r. r.items) v.items ≡ input_rows blocks.now) }
{
    let mut rows = Vec::new(alloc);
    for block in blocks {
        let row = input_row(alloc, block)?;
        rows.push(row)?;
    }
    Ok(rows)
}

/// The links of all blocks.
pub(crate) fn graph_of_links(alloc: Global, table: &BlockTable) -> Result<Graph, AllocError>
    ensures { IfOk result (λ g. g ≡ rows table.now.blocks) }
{
    // its length tells that there are fewer than 2^32 rows
    let _count = table.len();
    let rows = rows(alloc, table.blocks())?;
    match Graph::new(rows) {
        Ok(graph) => Ok(graph),
        Err(_) => unreachable!(),
    }
}

/// The links of the inputs of all blocks.
pub(crate) fn graph_of_inputs(alloc: Global, table: &BlockTable) -> Result<Graph, AllocError>
    ensures { IfOk result (λ g. g ≡ input_rows table.now.blocks) }
{
    // its length tells that there are fewer than 2^32 rows
    let _count = table.len();
    let rows = input_rows(alloc, table.blocks())?;
    match Graph::new(rows) {
        Ok(graph) => Ok(graph),
        Err(_) => unreachable!(),
    }
}

// Appends the number if told so.
fn push_if(numbers: &mut Vec<u32>, told: bool, number: u32) -> Result<(), AllocError>
    ensures { OnOk result (numbers.new.items ≡ (if told then numbers.old.items ++ number ∷ [] else numbers.old.items)) }
{
    if told {
        numbers.push(number)?;
    }
    Ok(())
}

/// The numbers of the heads.
pub(crate) fn heads(alloc: Global, table: &BlockTable) -> Result<Vec<u32>, AllocError>
    ensures sound { IfOk result (λ v. (k : ℕ) → Contains v.items k → IsHeadAt table.now.blocks k) }
    ensures complete { IfOk result (λ v. (k : ℕ) → IsHeadAt table.now.blocks k → Contains v.items k) }
{
    let mut heads = Vec::new(alloc);
    let blocks = table.blocks();
    for block in 0..table.len() {
        push_if(&mut heads, is_head(&blocks[block as usize]), block)?;
    }
    Ok(heads)
}

/// Whether each block is a reporter.
pub(crate) fn reporters(alloc: Global, blocks: &[Block]) -> Result<Vec<bool>, AllocError>
    ensures { IfOk result (λ v. v.items ≡ map is_reporter blocks.now) }
{
    let mut reporters = Vec::new(alloc);
    for block in blocks {
        reporters.push(has_role(Role::Reporter, &block.code))?;
    }
    Ok(reporters)
}
