//! Resolving the names of a block.

ghost use Rattle.std.specs.Prelude.{◌≡◌, ◌+◌, ◌<◌, ◌^◌, [], length, OnOk, IfOk};
ghost use Rattle.std.specs.List.{flat_map};
ghost use Rattle.machine_spec.specs.Program.{record_at};
ghost use Rattle.project_spec.specs.Resolving.{field_naming, input_naming, names_in};
ghost use Rattle.target_records.specs.Records.{records_in};
ghost use Rattle.name_resolving.specs.Naming.{listed};
ghost use Rattle.name_resolving.specs.Passing.{Passes};
ghost use Rattle.name_resolving.specs.Room.{holdings, parts};
ghost use Rattle.name_resolving.specs.Scope.{IsScope};

use crate::field_names::{Naming, field_naming, input_naming};
use crate::scope::Scope;
use lists::ListOf;
use project_json::Text;
use project_spec::{Block, Code, Input, Resolved};
use scratch_values::VarName;
use std::alloc::{AllocError, Global};
use target_records::Records;

// Resolves a name, if there is one, and puts what it leads to behind what was found before.
fn resolve_naming(
    alloc: Global,
    scope: &mut Scope,
    records: &mut Records,
    refs: &mut ListOf<Resolved>,
    naming: &Option<Naming>,
) -> Result<(), AllocError>
    requires scope { IsScope scope.old (records_in records.old) }
    requires room { holdings (record_at scope.old.target (records_in records.old)) + length (listed naming.now) < 2 ^ 32 }
    ensures { OnOk result (Passes scope.old scope.new (listed naming.now) (records_in records.old) refs.old (records_in records.new) refs.new) }
{
    match naming {
        Some(naming) => {
            let variable = scope.resolve(alloc, records, naming)?;
            let part = naming.part.clone()?;
            let in_input = naming.in_input;
            refs.push(Resolved {
                in_input,
                part,
                variable,
            })
        }
        None => Ok(()),
    }
}

// Resolves the names in the fields of a block.
fn resolve_fields(
    alloc: Global,
    scope: &mut Scope,
    records: &mut Records,
    refs: &mut ListOf<Resolved>,
    code: &Code,
    fields: &[(Text, VarName)],
) -> Result<(), AllocError>
    requires scope { IsScope scope.old (records_in records.old) }
    requires room { holdings (record_at scope.old.target (records_in records.old)) + length fields.now < 2 ^ 32 }
    ensures { OnOk result (Passes scope.old scope.new (flat_map (field_naming code.now) fields.now) (records_in records.old) refs.old (records_in records.new) refs.new) }
{
    for field in fields {
        let naming = field_naming(code, &field.0, &field.1);
        resolve_naming(alloc, scope, records, refs, &naming)?;
    }
    Ok(())
}

// Resolves the names in the inputs of a block.
fn resolve_inputs(
    alloc: Global,
    scope: &mut Scope,
    records: &mut Records,
    refs: &mut ListOf<Resolved>,
    inputs: &[(Text, Input)],
) -> Result<(), AllocError>
    requires scope { IsScope scope.old (records_in records.old) }
    requires room { holdings (record_at scope.old.target (records_in records.old)) + length inputs.now < 2 ^ 32 }
    ensures { OnOk result (Passes scope.old scope.new (flat_map input_naming inputs.now) (records_in records.old) refs.old (records_in records.new) refs.new) }
{
    for input in inputs {
        let naming = input_naming(&input.0, &input.1);
        resolve_naming(alloc, scope, records, refs, &naming)?;
    }
    Ok(())
}

/// What the parts of a block name, in its order; nothing where the block is in no checked script.
pub(crate) fn resolve_block(
    alloc: Global,
    scope: &mut Scope,
    records: &mut Records,
    block: &Block,
    is_checked: bool,
) -> Result<ListOf<Resolved>, AllocError>
    requires scope { IsScope scope.old (records_in records.old) }
    requires room { holdings (record_at scope.old.target (records_in records.old)) + parts block.now < 2 ^ 32 }
    ensures { IfOk result (λ refs. Passes scope.old scope.new (names_in is_checked block.now) (records_in records.old) [] (records_in records.new) refs) }
{
    let mut refs = ListOf::new(alloc);
    if !is_checked {
        return Ok(refs);
    }
    resolve_fields(
        alloc,
        scope,
        records,
        &mut refs,
        &block.code,
        block.fields.as_slice(),
    )?;
    resolve_inputs(alloc, scope, records, &mut refs, block.inputs.as_slice())?;
    Ok(refs)
}
