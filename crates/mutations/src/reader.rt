//! Reads the `mutation` of a prototype or a call.

ghost use Rattle.project_json.specs.View.{tree};
ghost use Rattle.project_spec.specs.Mutation.{prototype_in, call_in, same_lengths};
ghost use Rattle.mutations.specs.FilePrototype.{prototype_of};
ghost use Rattle.mutations.specs.Says.{Says};

use crate::defaults::{defaults_of, warp_of};
use crate::parts::{copy, present, text_named, texts_of};
use crate::prototype::FilePrototype;
use project_json::{Json, Text};
use project_spec::MutationRefusal;
use std::alloc::Global;

// The prototype, where it has as many names and defaults as ids.
fn same_lengths(prototype: FilePrototype) -> Result<FilePrototype, MutationRefusal>
    ensures { Says prototype_of result (same_lengths (prototype_of prototype)) }
{
    let count = prototype.ids.len();
    if count == prototype.names.len() && count == prototype.defaults.len() {
        Ok(prototype)
    } else {
        Err(MutationRefusal::LengthsDiffer)
    }
}

/// What the mutation of a prototype says. Tested in this order: `Missing` where there is no text `proccode`,
/// `argumentids` or `argumentnames`; `BadText` where `argumentids` or `argumentnames` is not the JSON text of a list of
/// texts, `argumentdefaults` is there and is not the JSON text of a list of texts, numbers and truths, or `warp` is there
/// and is neither a truth nor the text `true`, `false` or `null`; `LengthsDiffer` where ids, names and defaults differ in
/// number. Absent defaults are empty texts; absent `warp` is false. `NoMemory` where memory ran out.
pub fn read_prototype(alloc: Global, mutation: &Json) -> Result<FilePrototype, MutationRefusal>
    ensures { Says prototype_of result (prototype_in (tree mutation.now)) }
{
    let code = text_named(mutation, "proccode")?;
    let id_text = text_named(mutation, "argumentids")?;
    let name_text = text_named(mutation, "argumentnames")?;
    let ids = texts_of(alloc, id_text)?;
    let names = texts_of(alloc, name_text)?;
    let defaults = defaults_of(alloc, ids.len(), present(mutation, "argumentdefaults"))?;
    let warp = warp_of(present(mutation, "warp"))?;
    let code = copy(alloc, code)?;
    same_lengths(FilePrototype {
        code,
        ids,
        names,
        defaults,
        warp,
    })
}

/// The code of the procedure that the mutation of a call names: `Missing` where there is no text `proccode`, `NoMemory`
/// where memory ran out.
pub fn read_call(alloc: Global, mutation: &Json) -> Result<Text, MutationRefusal>
    ensures { Says (λ code. code) result (call_in (tree mutation.now)) }
{
    let code = text_named(mutation, "proccode")?;
    copy(alloc, code)
}
