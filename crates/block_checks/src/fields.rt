//! Fields of the blocks of checked scripts.

ghost use Rattle.std.specs.Prelude.{◌≡◌, IfOk, IfErr, map, None};
ghost use Rattle.std.specs.Option.{option_copied};
ghost use Rattle.std.specs.List.{find};
ghost use Rattle.opcode_table.specs.Views.{field_of};
ghost use Rattle.project_spec.specs.Refusals.{Fields};
ghost use Rattle.project_spec.specs.Linked.{named, is_refused_function, refuses, is_unfit_field, unfit_field};
ghost use Rattle.block_checks.specs.Kept.{IsKept};
ghost use Rattle.block_checks.specs.Rows.{is_left_out};
ghost use Rattle.block_checks.specs.Stops.{PassesIn, StopsIn, StopsUnfit};

use crate::block_links::BlockLinks;
use crate::stop;
use crate::stop::Stop;
use block_table::{BlockTable, named};
use opcode_table::{Opcode, spec};
use project_json::Text;
use project_spec::{At, Block, Code};
use scratch_values::{VarName, fold};
use std::alloc::{AllocError, Global};

// Whether a function without its case is one that is left out.
fn is_left_out(name: &str) -> bool
    ensures { result ≡ is_left_out name.now }
{
    name == "ln" || name == "log" || name == "e ^" || name == "10 ^"
}

// Whether a function is refused, whatever its case.
fn is_refused_function(alloc: Global, name: &str) -> Result<bool, AllocError>
    ensures { IfOk result (λ r. r ≡ is_refused_function name.now) }
{
    let folded = fold(alloc, name)?;
    Ok(is_left_out(folded.as_str()))
}

// Whether a block of the opcode refuses what a field holds.
fn refuses(alloc: Global, op: Opcode, field: &VarName) -> Result<bool, AllocError>
    ensures { IfOk result (λ r. r ≡ refuses op field.now) }
{
    match op {
        Opcode::OperatorMathOp => is_refused_function(alloc, field.name.as_str()),
        _ => Ok(false),
    }
}

// Whether a field of a block is absent, or holds what is refused.
fn is_unfit(alloc: Global, op: Opcode, field: Option<&VarName>) -> Result<bool, AllocError>
    ensures { IfOk result (λ r. r ≡ is_unfit_field op (option_copied field.entry)) }
{
    match field {
        None => Ok(true),
        Some(field) => refuses(alloc, op, field),
    }
}

// The first of the fields of these names that is unfit.
fn unfit_in(
    alloc: Global,
    op: Opcode,
    names: &'static [&'static str],
    fields: &[(Text, VarName)],
) -> Result<Option<&'static str>, AllocError>
    ensures { IfOk result (λ o. option_copied o ≡ find (λ name. is_unfit_field op (named name fields.now)) (map field_of names.now)) }
{
    for name in names {
        if is_unfit(alloc, op, named(name, fields))? {
            return Ok(Some(name));
        }
    }
    Ok(None)
}

// The first field that is unfit, in the order of the table.
fn unfit_field(alloc: Global, block: &Block) -> Result<Option<&'static str>, AllocError>
    ensures { IfOk result (λ o. option_copied o ≡ unfit_field block.now) }
{
    match &block.code {
        Code::Known(op) => unfit_in(alloc, *op, spec(*op).fields, block.fields.as_slice()),
        Code::Other(_) => Ok(None),
    }
}

// Tests the fields of a block.
fn test_block(alloc: Global, at: At, block: &Block) -> Result<(), Stop>
    ensures passes { IfOk result (λ _. unfit_field block.now ≡ None) }
    ensures stop { IfErr result (StopsUnfit at block.now) }
{
    let unfit = unfit_field(alloc, block)?;
    match unfit {
        Some(name) => Err(stop::unfit(alloc, at, name)),
        None => Ok(()),
    }
}

/// Tests the fields of each checked block of a target, in order.
pub(crate) fn test_fields(
    alloc: Global,
    target: u32,
    table: &BlockTable,
    links: &BlockLinks,
) -> Result<(), Stop>
    requires { IsKept table.now.blocks links.now }
    ensures passes { IfOk result (λ _. PassesIn target table.now.blocks Fields) }
    ensures stop { IfErr result (StopsIn target table.now.blocks Fields) }
{
    let blocks = table.blocks();
    for block in 0..table.len() {
        if links.is_checked(block) {
            test_block(alloc, At { target, block }, &blocks[block as usize])?;
        }
    }
    Ok(())
}
