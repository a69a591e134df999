//! Tests that each text of blocks that a run can use as a value is short enough, and turns values of a file into those of
//! a run.

ghost use Rattle.std.specs.Prelude.{◌≡◌, ◌∷◌, map, codes, flat_map, length};
ghost use Rattle.std.specs.List.{zip};
ghost use Rattle.scratch_values.specs.Longest.{longest};
ghost use Rattle.json_shapes.specs.Places.{path};
ghost use Rattle.project_spec.specs.FileValues.{value_in};
ghost use Rattle.project_spec.specs.Limits.{measure, value_measures, input_measures, field_place, default_measures, block_measures};
ghost use Rattle.block_table.specs.FileBlock.{named_input, mutation_in, block_in};
ghost use Rattle.block_table.specs.Refused.{Fits, IsTooLongAt};
ghost use Rattle.block_table.specs.Table.{origins};
ghost use Rattle.block_table.specs.Measured.{field_measures, measured_parts, measured_block};

use crate::file_block::{FileBlock, FileBlocks, FileInput, FileInputs, FileMutation};
use crate::refusal::BlockRefusal;
use json_shapes::Place;
use mutations::{FilePrototype, FileValues};
use project_json::Text;
use project_spec::{Block, Blocks, Fields, FileValue, Input, Inputs, Mutation, Prototype};
use scratch_values::{LONGEST, Value, Values, VarName};
use std::alloc::Global;

// The refusal of a text at the place that is too long.
fn too_long(alloc: Global, place: &Place) -> BlockRefusal
    ensures { IsTooLongAt (path place.now) result }
{
    match place.path(alloc) {
        Ok(path) => BlockRefusal::TooLong { path },
        Err(_) => BlockRefusal::NoMemory,
    }
}

// A value at a place.
fn short_value(alloc: Global, place: &Place, value: &FileValue) -> Result<Value, BlockRefusal>
    ensures { Fits (λ v. v) result (value_in value.now) (value_measures place.now (value_in value.now)) }
{
    let bounded = value.bounded(alloc)?;
    match bounded {
        Some(short) => Ok(short),
        None => Err(too_long(alloc, place)),
    }
}

// An input, with its name, of a block whose inputs stand at a place.
fn short_input(
    alloc: Global,
    place: &Place,
    name: Text,
    input: FileInput,
) -> Result<(Text, Input), BlockRefusal>
    ensures { Fits (λ x. x) result (named_input (name, input)) (input_measures place.now (named_input (name, input))) }
{
    match input {
        FileInput::Literal(value) => {
            let short = short_value(
                alloc,
                &place.member(name.as_str()).member("1").member("1"),
                &value,
            )?;
            Ok((name, Input::Literal(short)))
        }
        FileInput::Reporter(link) => Ok((name, Input::Reporter(link))),
        FileInput::Variable(variable) => Ok((name, Input::Variable(variable))),
        FileInput::List(list) => Ok((name, Input::List(list))),
        FileInput::Absent => Ok((name, Input::Absent)),
    }
}

// The inputs of a block, which stand at a place.
fn short_inputs(alloc: Global, place: &Place, inputs: FileInputs) -> Result<Inputs, BlockRefusal>
    ensures { Fits (λ xs. xs) result (map named_input inputs) (flat_map (input_measures place.now) (map named_input inputs)) }
{
    let mut short = Inputs::new(alloc);
    for entry in inputs.into_vec() {
        let (name, input) = entry;
        let entry = short_input(alloc, place, name, input)?;
        short.push(entry)?;
    }
    Ok(short)
}

// A field of a block at a place, which may be a list.
fn short_field(
    alloc: Global,
    place: &Place,
    is_list: bool,
    field: &(Text, VarName),
) -> Result<(), BlockRefusal>
    ensures { Fits (λ _. field.now) result field.now (field_measures is_list place.now field.now) }
{
    let (name, said) = field;
    if said.name.as_str().len() <= LONGEST {
        return Ok(());
    }
    if is_list {
        Err(too_long(alloc, &place.member("1")))
    } else {
        Err(too_long(
            alloc,
            &place.member("fields").member(name.as_str()).member("0"),
        ))
    }
}

// The fields of a block at a place, which may be a list.
fn short_fields(
    alloc: Global,
    place: &Place,
    is_list: bool,
    fields: Fields,
) -> Result<Fields, BlockRefusal>
    ensures { Fits (λ fs. fs) result fields (flat_map (field_measures is_list place.now) fields) }
{
    for field in fields.as_slice() {
        short_field(alloc, place, is_list, field)?;
    }
    Ok(fields)
}

// The defaults of a prototype, which stand at a place.
fn short_defaults(
    alloc: Global,
    place: &Place,
    defaults: &FileValues,
) -> Result<Values, BlockRefusal>
    ensures { Fits (λ vs. vs) result (map value_in defaults.now) (flat_map (value_measures place.now) (map value_in defaults.now)) }
{
    let mut short = Values::new(alloc);
    for default in defaults.as_slice() {
        let value = short_value(alloc, place, default)?;
        short.push(value)?;
    }
    Ok(short)
}

// What the mutation of a block at a place says.
fn short_mutation(
    alloc: Global,
    place: &Place,
    mutation: FileMutation,
) -> Result<Mutation, BlockRefusal>
    ensures { Fits (λ m. m) result (mutation_in mutation) (default_measures place.now (mutation_in mutation)) }
{
    match mutation {
        FileMutation::None => Ok(Mutation::None),
        FileMutation::Prototype(prototype) => {
            let FilePrototype {
                code,
                ids,
                names,
                defaults,
                warp,
            } = prototype;
            let place = place.member("mutation");
            let defaults = short_defaults(alloc, &place.member("argumentdefaults"), &defaults)?;
            Ok(Mutation::Prototype(Prototype {
                code,
                ids,
                names,
                defaults,
                warp,
            }))
        }
        FileMutation::Call(code) => Ok(Mutation::Call(code)),
        FileMutation::Bad(refusal) => Ok(Mutation::Bad(refusal)),
    }
}

// The inputs, the fields and what the mutation says of a block at a place, which may be a list.
fn short_parts(
    alloc: Global,
    place: &Place,
    is_list: bool,
    inputs: FileInputs,
    fields: Fields,
    mutation: FileMutation,
) -> Result<(Inputs, Fields, Mutation), BlockRefusal>
    ensures { Fits (λ parts. parts) result (map named_input inputs, fields, mutation_in mutation) (measured_parts is_list place.now (map named_input inputs) fields (mutation_in mutation)) }
{
    let inputs = short_inputs(alloc, &place.member("inputs"), inputs)?;
    let fields = short_fields(alloc, place, is_list, fields)?;
    let mutation = short_mutation(alloc, place, mutation)?;
    Ok((inputs, fields, mutation))
}

// A block at a place, which may be a list.
fn short_block(
    alloc: Global,
    place: &Place,
    is_list: bool,
    block: FileBlock,
) -> Result<Block, BlockRefusal>
    ensures { Fits (λ b. b) result (block_in block) (measured_block is_list place.now (block_in block)) }
{
    let FileBlock {
        code,
        next,
        inputs,
        fields,
        shadow,
        top_level,
        mutation,
    } = block;
    let (inputs, fields, mutation) = short_parts(alloc, place, is_list, inputs, fields, mutation)?;
    Ok(Block {
        code,
        next,
        inputs,
        fields,
        shadow,
        top_level,
        mutation,
    })
}

// The block with an id, which may be a list, among blocks at a place.
fn short_row(
    alloc: Global,
    place: &Place,
    id: &Text,
    is_list: bool,
    block: FileBlock,
) -> Result<Block, BlockRefusal>
    ensures { Fits (λ b. b) result (block_in block) (measured_block is_list (id.now ∷ place.now) (block_in block)) }
{
    short_block(alloc, &place.member(id.as_str()), is_list, block)
}

/// The blocks with these ids, of which these are lists.
pub(crate) fn short_blocks(
    alloc: Global,
    place: &Place,
    ids: &[Text],
    lists: &[bool],
    blocks: FileBlocks,
) -> Result<Blocks, BlockRefusal>
    requires ids { length blocks ≡ length ids.now }
    requires lists { length blocks ≡ length lists.now }
    ensures { Fits (λ bs. bs) result (map block_in blocks) (flat_map (block_measures place.now) (zip (origins ids.now lists.now) (map block_in blocks))) }
{
    let mut short = Blocks::new(alloc);
    let mut number = 0;
    for block in blocks.into_vec() {
        let block = short_row(alloc, place, &ids[number], lists[number], block)?;
        short.push(block)?;
        number += 1;
    }
    Ok(short)
}
