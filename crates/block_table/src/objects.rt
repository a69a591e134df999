//! Blocks, each an object or a list.

ghost use Rattle.std.specs.Prelude.{◌≡◌, map, codes, Ok, IfOk};
ghost use Rattle.std.specs.Option.{option_map};
ghost use Rattle.project_json.specs.View.{tree, field};
ghost use Rattle.json_shapes.specs.Reads.{Reads};
ghost use Rattle.json_shapes.specs.Shapes.{optional, each_member};
ghost use Rattle.project_spec.specs.Blocks as told;
ghost use Rattle.project_spec.specs.Mutation.{prototype_in, call_in};
ghost use Rattle.block_table.specs.FileBlock.{block_in, mutation_in};
ghost use Rattle.block_table.specs.Parts.{IsBad, is_list};

use crate::field_list::fields;
use crate::file_block::{FileBlock, FileBlocks, FileInputs, FileMutation};
use crate::ids::Ids;
use crate::input_list::{inputs, link_to};
use crate::primitives::{is_one_of, name_and_id, tag};
use json_shapes::{
    Fault, Place, given_truth, items, members, optional_text, present, required_text,
};
use lists::ListOf;
use mutations::{read_call, read_prototype};
use opcode_table::{Opcode, of_name};
use project_json::{Json, Member, Text};
use project_spec::{Code, Fields, Link, MutationRefusal};
use scratch_values::VarName;
use std::alloc::{AllocError, Global};

// The opcode of a name. The only error is want of memory.
fn code_named(name: &Text) -> Result<Code, AllocError>
    ensures { IfOk result (λ code. code ≡ told.code_named name.now) }
{
    match of_name(name.as_str()) {
        Some(op) => Ok(Code::Known(op)),
        None => Ok(Code::Other(name.clone()?)),
    }
}

// The block that follows. The only error is want of memory.
fn next(ids: &Ids, id: Option<&Text>) -> Result<Option<Link>, AllocError>
    ensures { IfOk result (λ l. l ≡ option_map (told.link_to ids.now) (option_map (λ t. t.now) id.entry)) }
{
    match id {
        Some(id) => {
            let link = link_to(ids, id)?;
            Ok(Some(link))
        }
        None => Ok(None),
    }
}

// The mutation, which is an object where it is there.
fn said<'a>(alloc: Global, place: &Place, block: &'a [Member]) -> Result<Option<&'a Json>, Fault>
    ensures { Reads (option_map (λ j. tree j.now)) result (optional told.object_here (codes "mutation") place.now (map field block.now)) }
{
    match present(block, "mutation") {
        Some(mutation) => {
            members(alloc, &place.member("mutation"), mutation)?;
            Ok(Some(mutation))
        }
        None => Ok(None),
    }
}

// What a prototype says.
fn prototype(alloc: Global, mutation: &Json) -> Result<FileMutation, Fault>
    ensures { Reads mutation_in result (Ok (told.prototype_by (prototype_in (tree mutation.now)))) }
{
    match read_prototype(alloc, mutation) {
        Ok(prototype) => Ok(FileMutation::Prototype(prototype)),
        Err(refusal) => bad(refusal),
    }
}

// What a call says.
fn call(alloc: Global, mutation: &Json) -> Result<FileMutation, Fault>
    ensures { Reads mutation_in result (Ok (told.call_by (call_in (tree mutation.now)))) }
{
    match read_call(alloc, mutation) {
        Ok(code) => Ok(FileMutation::Call(code)),
        Err(refusal) => bad(refusal),
    }
}

// What is said of a mutation that is unfit. Want of memory is none of its faults.
fn bad(refusal: MutationRefusal) -> Result<FileMutation, Fault>
    ensures { IsBad result refusal }
{
    match refusal {
        MutationRefusal::Missing => Ok(FileMutation::Bad(MutationRefusal::Missing)),
        MutationRefusal::BadText => Ok(FileMutation::Bad(MutationRefusal::BadText)),
        MutationRefusal::LengthsDiffer => Ok(FileMutation::Bad(MutationRefusal::LengthsDiffer)),
        MutationRefusal::NoMemory => Err(Fault::NoMemory),
    }
}

// What a block with the opcode says of a procedure.
fn mutation(alloc: Global, code: &Code, said: Option<&Json>) -> Result<FileMutation, Fault>
    ensures { Reads mutation_in result (Ok (told.mutation_by code.now (option_map (λ j. tree j.now) said.entry))) }
{
    match code {
        Code::Known(Opcode::ProceduresPrototype) => match said {
            Some(mutation) => prototype(alloc, mutation),
            None => Ok(FileMutation::Bad(MutationRefusal::Missing)),
        },
        Code::Known(Opcode::ProceduresCall) => match said {
            Some(mutation) => call(alloc, mutation),
            None => Ok(FileMutation::Bad(MutationRefusal::Missing)),
        },
        _ => Ok(FileMutation::None),
    }
}

// A block that is an object, by its members.
fn block_object(
    alloc: Global,
    ids: &Ids,
    place: &Place,
    members: &[Member],
) -> Result<FileBlock, Fault>
    ensures { Reads block_in result (told.block_object ids.now place.now (map field members.now)) }
{
    let opcode = required_text(alloc, place, members, "opcode")?;
    let follows = optional_text(alloc, place, members, "next")?;
    let inputs = inputs(alloc, ids, place, members)?;
    let fields = fields(alloc, place, members)?;
    let shadow = given_truth(alloc, place, members, "shadow", false)?;
    let top_level = given_truth(alloc, place, members, "topLevel", false)?;
    let said = said(alloc, place, members)?;
    let code = code_named(opcode)?;
    let next = next(ids, follows)?;
    let mutation = mutation(alloc, &code, said)?;
    Ok(FileBlock {
        code,
        next,
        inputs,
        fields,
        shadow,
        top_level,
        mutation,
    })
}

// A loose reporter of a variable or a list, which stands in the field. The only error is want of memory.
fn reporter(alloc: Global, op: Opcode, field: &str, name: VarName) -> Result<FileBlock, AllocError>
    ensures { IfOk result (λ b. block_in b ≡ told.reporter op field.now name) }
{
    let mut fields = Fields::new(alloc);
    let field = Text::from_str(alloc, field)?;
    fields.push((field, name))?;
    Ok(FileBlock {
        code: Code::Known(op),
        next: None,
        inputs: FileInputs::new(alloc),
        fields,
        shadow: false,
        top_level: true,
        mutation: FileMutation::None,
    })
}

// A block that is a list: a loose reporter of a variable, 12, or of a list, 13.
fn block_list(alloc: Global, place: &Place, items: &[Json]) -> Result<FileBlock, Fault>
    ensures { Reads block_in result (told.block_list place.now (map tree items.now)) }
{
    let kind = tag(alloc, place, items, &[12, 13])?;
    let name = name_and_id(alloc, place, items)?;
    let block = if is_one_of(&[12], &kind) {
        reporter(alloc, Opcode::DataVariable, "VARIABLE", name)?
    } else {
        reporter(alloc, Opcode::DataListContents, "LIST", name)?
    };
    Ok(block)
}

// A block, which is an object or a list.
fn block_at(alloc: Global, ids: &Ids, place: &Place, json: &Json) -> Result<FileBlock, Fault>
    ensures { Reads block_in result (told.block_at ids.now place.now (tree json.now)) }
{
    match json {
        Json::List(_) => {
            let items = items(alloc, place, json)?;
            block_list(alloc, place, items)
        }
        Json::Object(_) => {
            let members = members(alloc, place, json)?;
            block_object(alloc, ids, place, members)
        }
        Json::Null => Err(place.fault(alloc)),
        Json::Truth(_) => Err(place.fault(alloc)),
        Json::Number(_) => Err(place.fault(alloc)),
        Json::Text(_) => Err(place.fault(alloc)),
    }
}

// A block, whose id is the member's name.
fn block(alloc: Global, ids: &Ids, place: &Place, member: &Member) -> Result<FileBlock, Fault>
    ensures { Reads block_in result (told.block_of ids.now place.now (field member.now)) }
{
    block_at(
        alloc,
        ids,
        &place.member(member.name().as_str()),
        member.value(),
    )
}

/// Each block, in order.
pub(crate) fn each_block(
    alloc: Global,
    ids: &Ids,
    place: &Place,
    members: &[Member],
) -> Result<FileBlocks, Fault>
    ensures { Reads (map block_in) result (each_member (told.block_of ids.now) place.now (map field members.now)) }
{
    let mut blocks = FileBlocks::new(alloc);
    for member in members {
        let block = block(alloc, ids, place, member)?;
        blocks.push(block)?;
    }
    Ok(blocks)
}

/// Which of the blocks are lists. The only error is want of memory.
pub(crate) fn are_lists(alloc: Global, members: &[Member]) -> Result<ListOf<bool>, AllocError>
    ensures { IfOk result (λ lists. lists ≡ map is_list (map field members.now)) }
{
    let mut lists = ListOf::new(alloc);
    for member in members {
        lists.push(matches!(member.value(), Json::List(_)))?;
    }
    Ok(lists)
}
