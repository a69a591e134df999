//! Blocks that do not fit the places that links of checked blocks give them.

ghost use Rattle.std.specs.Prelude.{◌≡◌, ℕ, ◌<◌, ◌++◌, length, IfOk, IfErr, [], if◌then◌else◌};
ghost use Rattle.project_spec.specs.declared.blocks.Block.{Block};
ghost use Rattle.project_spec.specs.Refusals.{Places, opcode_name};
ghost use Rattle.project_spec.specs.Linked.{Behind, In, misfits};
ghost use Rattle.block_checks.specs.Kept.{IsKept};
ghost use Rattle.block_checks.specs.Marks.{IsMarking, AreMarked, misfits_in, misfits_by, misfit_if};
ghost use Rattle.block_checks.specs.Rows.{known, link_in};
ghost use Rattle.block_checks.specs.Stops.{PassesIn, StopsIn, StopsMisplaced};

use crate::block_links::BlockLinks;
use crate::roles::fits_in;
use crate::rows::{known, link_in};
use crate::stop;
use crate::stop::Stop;
use block_table::{BlockTable, has_role};
use opcode_table::{Role, name};
use project_json::Text;
use project_spec::{At, Block, Code, Input};
use std::alloc::{AllocError, Global};

// Marks a block unless it fits.
fn mark(marks: &mut [bool], place: u32, fits: bool)
    requires { place < length marks.old }
    ensures { (b : Block) → IsMarking (misfit_if fits place b) marks.old marks.new }
{
    if !fits {
        marks[place as usize] = true;
    }
}

// Marks the block that follows another, unless it is a command.
fn mark_next(blocks: &[Block], holder: &Block, marks: &mut [bool])
    requires { length marks.old ≡ length blocks.now }
    ensures { IsMarking (misfits_by blocks.now holder.now Behind (known holder.now.next)) marks.old marks.new }
{
    if let Some(place) = known(holder.next.as_ref()) {
        if let Some(block) = blocks.get(place as usize) {
            mark(marks, place, has_role(Role::Command, &block.code));
        }
    }
}

// Marks the block that an input leads to, unless it fits there.
fn mark_input(blocks: &[Block], holder: &Block, name: &str, input: &Input, marks: &mut [bool])
    requires { length marks.old ≡ length blocks.now }
    ensures { IsMarking (misfits_by blocks.now holder.now (In name.now) (known (link_in input.now))) marks.old marks.new }
{
    if let Some(place) = known(link_in(input)) {
        if let Some(block) = blocks.get(place as usize) {
            mark(marks, place, fits_in(holder, name, block));
        }
    }
}

// Marks the blocks that inputs lead to and that do not fit there.
fn mark_inputs(blocks: &[Block], holder: &Block, inputs: &[(Text, Input)], marks: &mut [bool])
    requires { length marks.old ≡ length blocks.now }
    ensures { IsMarking (misfits_in blocks.now holder.now inputs.now) marks.old marks.new }
{
    for (name, input) in inputs {
        mark_input(blocks, holder, name.as_str(), input, marks);
    }
}

// Marks the blocks that a block leads to and that do not fit their places.
fn mark_misfits(blocks: &[Block], holder: &Block, marks: &mut [bool])
    requires { length marks.old ≡ length blocks.now }
    ensures { IsMarking (misfits blocks.now holder.now) marks.old marks.new }
{
    mark_next(blocks, holder, marks);
    mark_inputs(blocks, holder, holder.inputs.as_slice(), marks);
}

// Marks those of a block that is checked.
fn mark_checked(blocks: &[Block], holder: &Block, checked: bool, marks: &mut [bool])
    requires { length marks.old ≡ length blocks.now }
    ensures { IsMarking (if checked then misfits blocks.now holder.now else []) marks.old marks.new }
{
    if checked {
        mark_misfits(blocks, holder, marks);
    }
}

// Of each block, whether a checked block leads to it where it does not fit.
fn misfits(alloc: Global, blocks: &[Block], checked: &[bool]) -> Result<Vec<bool>, AllocError>
    requires { length checked.now ≡ length blocks.now }
    ensures { IfOk result (λ v. AreMarked blocks.now checked.now (length blocks.now) v.items) }
{
    let count = blocks.len();
    let mut marks = vec![in alloc; false; count]?;
    for (place, block) in blocks.iter().enumerate() {
        mark_checked(blocks, block, checked[place], &mut marks);
    }
    Ok(marks)
}

// The name of an opcode.
fn opcode_name(code: &Code) -> &str
    ensures { result.now ≡ opcode_name code.now }
{
    match code {
        Code::Known(op) => name(*op),
        Code::Other(name) => name.as_str(),
    }
}

// The block does not fit its place.
fn misplaced(alloc: Global, at: At, block: &Block) -> Stop
    ensures { StopsMisplaced at block.now result }
{
    stop::misplaced(alloc, at, opcode_name(&block.code))
}

/// Tests the blocks that checked blocks of a target lead to.
pub(crate) fn test_places(
    alloc: Global,
    target: u32,
    table: &BlockTable,
    links: &BlockLinks,
) -> Result<(), Stop>
    requires { IsKept table.now.blocks links.now }
    ensures passes { IfOk result (λ _. PassesIn target table.now.blocks Places) }
    ensures stop { IfErr result (StopsIn target table.now.blocks Places) }
{
    let blocks = table.blocks();
    let marks = misfits(alloc, blocks, links.checked())?;
    for block in 0..table.len() {
        if marks[block as usize] {
            return Err(misplaced(alloc, At { target, block }, &blocks[block as usize]));
        }
    }
    Ok(())
}
