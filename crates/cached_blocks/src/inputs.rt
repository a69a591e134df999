//! The inputs of a block.

ghost use Rattle.std.specs.Prelude.{◌≡◌, true, map, slice_get, unwrap_or, bytes_eq, option_to_list, ◌++◌, IfOk, OnOk};
ghost use Rattle.std.specs.List.{filter_map};
ghost use Rattle.std.specs.Option.{option_map};
ghost use Rattle.scratch_values.specs.declared.names.VarRef.TheVariants.{Own};
ghost use Rattle.opcode_table.specs.Table.{row};
ghost use Rattle.opcode_table.specs.Views.{input_of};
ghost use Rattle.project_spec.specs.Resolving as told;
ghost use Rattle.project_spec.specs.Trees.{is_apart, operand, operand_by};
ghost use Rattle.block_table.specs.Short.{HaveShortFields, AreShort};
ghost use Rattle.cached_blocks.specs.Cached.{sheet_with, plugged_by, plugged_at, with_plugged, same_names};

use crate::block::CachedInputs;
use crate::fields::{menu_text, ref_at};
use lists::ListOf;
use machine_spec::BlockId;
use opcode_table::{InputSpec, Opcode, spec};
use project_json::Text;
use project_spec::{Block, Code, Input, Link, Operand, Resolved};
use scratch_values::{Value, VarRef};
use std::alloc::{AllocError, Global};

// Whether an input of the name is a branch or the custom block, which are not evaluated.
fn is_apart(name: &str) -> bool
    ensures { result ≡ is_apart name.now }
{
    if name.as_bytes().starts_with(b"SUBSTACK") {
        true
    } else {
        name == "custom_block"
    }
}

// The variable or list that an input of block k names.
fn input_ref(refs: &[ListOf<Resolved>], k: usize, name: &str) -> VarRef
    ensures { result ≡ unwrap_or (told.ref_at refs.now k true name.now) (Own 0) }
{
    match ref_at(refs, k, true, name) {
        Some(variable) => variable,
        None => VarRef::Own(0),
    }
}

// What a block that is plugged in stands for.
fn plugged_block(alloc: Global, id: BlockId, block: &Block) -> Result<Operand, AllocError>
    requires { AreShort block.now.fields }
    ensures { IfOk result (λ x. x ≡ plugged_by block.now.code id block.now) }
{
    match &block.code {
        Code::Known(_) => Ok(Operand::Block(id)),
        Code::Other(_) => Ok(Operand::Literal(Value::Text(menu_text(
            alloc,
            block.fields.as_slice(),
        )?))),
    }
}

// What the link of an input stands for.
fn plugged(alloc: Global, blocks: &[Block], id: BlockId) -> Result<Operand, AllocError>
    requires { HaveShortFields blocks.now }
    ensures { IfOk result (λ x. x ≡ plugged_at id (slice_get blocks.now id)) }
{
    match blocks.get(id.0 as usize) {
        Some(block) => plugged_block(alloc, id, block),
        None => Ok(Operand::Block(id)),
    }
}

// What is evaluated for an input of block k that is no branch, if anything is.
fn operand_by(
    alloc: Global,
    blocks: &[Block],
    refs: &[ListOf<Resolved>],
    k: usize,
    name: &Text,
    input: &Input,
) -> Result<Option<(Text, Operand)>, AllocError>
    requires { HaveShortFields blocks.now }
    ensures { IfOk result (λ o. o ≡ option_map (with_plugged blocks.now) (operand_by (sheet_with blocks.now refs.now) k name.now input.now)) }
{
    let operand = match input {
        Input::Literal(value) => Operand::Literal(value.clone()?),
        Input::Reporter(Link::To(id)) => plugged(alloc, blocks, *id)?,
        Input::Reporter(Link::Unknown(_)) => return Ok(None),
        Input::Variable(_) => Operand::Variable(input_ref(refs, k, name.as_str())),
        Input::List(_) => Operand::List(input_ref(refs, k, name.as_str())),
        Input::Absent => return Ok(None),
    };
    Ok(Some((name.clone()?, operand)))
}

// What is evaluated for an input of block k, if anything is.
fn operand(
    alloc: Global,
    blocks: &[Block],
    refs: &[ListOf<Resolved>],
    k: usize,
    entry: &(Text, Input),
) -> Result<Option<(Text, Operand)>, AllocError>
    requires { HaveShortFields blocks.now }
    ensures { IfOk result (λ o. o ≡ option_map (with_plugged blocks.now) (operand (sheet_with blocks.now refs.now) k entry.now)) }
{
    let (name, input) = entry;
    if is_apart(name.as_str()) {
        return Ok(None);
    }
    operand_by(alloc, blocks, refs, k, name, input)
}

// Appends an input, where there is one.
fn push_some(inputs: &mut CachedInputs, input: Option<(Text, Operand)>) -> Result<(), AllocError>
    ensures { OnOk result (inputs.new ≡ inputs.old ++ option_to_list input) }
{
    match input {
        Some(input) => inputs.push(input),
        None => Ok(()),
    }
}

/// What is evaluated for the inputs of block k, in document order.
pub fn cached_inputs(
    alloc: Global,
    blocks: &[Block],
    refs: &[ListOf<Resolved>],
    k: usize,
    inputs: &[(Text, Input)],
) -> Result<CachedInputs, AllocError>
    requires { HaveShortFields blocks.now }
    ensures { IfOk result (λ v. v ≡ map (with_plugged blocks.now) (filter_map (operand (sheet_with blocks.now refs.now) k) inputs.now)) }
{
    let mut cached = CachedInputs::new(alloc);
    for entry in inputs {
        let input = operand(alloc, blocks, refs, k, entry)?;
        push_some(&mut cached, input)?;
    }
    Ok(cached)
}

// Whether an input has the name of one of the table.
fn has_name(input: &(Text, Operand), wanted: &InputSpec) -> bool
    ensures { result ≡ bytes_eq input.now.0 (input_of wanted.now).name }
{
    input.0.as_str() == wanted.name
}

// Whether the inputs have these names, in this order.
fn have_names(inputs: &[(Text, Operand)], wanted: &'static [InputSpec]) -> bool
    ensures { result ≡ same_names (map (λ x. x.0) inputs.now) (map (λ i. i.name) (map input_of wanted.now)) }
{
    match (inputs, wanted) {
        ([], []) => true,
        ([input, inputs @ ..], [first, wanted @ ..]) => {
            if has_name(input, first) {
                have_names(inputs, wanted)
            } else {
                false
            }
        }
        ([], [_first, ..]) => false,
        ([_input, ..], []) => false,
    }
}

/// Whether the inputs are just those of the opcode, in the order of the table.
pub fn are_in_order(op: Opcode, inputs: &[(Text, Operand)]) -> bool
    ensures { result ≡ same_names (map (λ x. x.0) inputs.now) (map (λ i. i.name) (row op).inputs) }
{
    have_names(inputs, spec(op).inputs)
}
