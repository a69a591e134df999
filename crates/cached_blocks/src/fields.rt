//! The fields of a block, and what its parts name.

ghost use Rattle.std.specs.Prelude.{◌≡◌, ◌≤◌, length, false, map, IfOk};
ghost use Rattle.scratch_values.specs.Longest.{longest};
ghost use Rattle.project_spec.specs.Resolving as told;
ghost use Rattle.project_spec.specs.Trees.{menu_text};
ghost use Rattle.cached_blocks.specs.Parts.{is_part};
ghost use Rattle.block_table.specs.Short.{AreShort};
ghost use Rattle.cached_blocks.specs.Cached.{cached_field};

use crate::block::CachedFields;
use lists::ListOf;
use project_json::Text;
use project_spec::Resolved;
use scratch_values::{BoundText, ResolvedField, VarName, VarRef};
use std::alloc::{AllocError, Global};

// Whether it is what this part of a block names.
fn is_part(resolved: &Resolved, in_input: bool, part: &str) -> bool
    ensures { result ≡ is_part in_input part.now resolved.now }
{
    if resolved.in_input == in_input {
        resolved.part.as_str() == part
    } else {
        false
    }
}

/// The variable or list that a part of a block names, by all that its parts name.
pub fn ref_in(refs: &[Resolved], in_input: bool, part: &str) -> Option<VarRef>
    ensures { result ≡ told.ref_in refs.now in_input part.now }
{
    match refs
        .iter()
        .find(|resolved| is_part(resolved, in_input, part))
    {
        Some(resolved) => Some(resolved.variable),
        None => None,
    }
}

/// The variable or list that a part of block k names.
pub fn ref_at(refs: &[ListOf<Resolved>], k: usize, in_input: bool, part: &str) -> Option<VarRef>
    ensures { result ≡ told.ref_at refs.now k in_input part.now }
{
    match refs.get(k) {
        Some(own) => ref_in(own.as_slice(), in_input, part),
        None => None,
    }
}

/// The fields of block k, with what they name.
pub fn cached_fields(
    alloc: Global,
    fields: &[(Text, VarName)],
    refs: &[ListOf<Resolved>],
    k: usize,
) -> Result<CachedFields, AllocError>
    ensures { IfOk result (λ v. v ≡ map (cached_field refs.now k) fields.now) }
{
    let mut cached = CachedFields::new(alloc);
    for (name, said) in fields {
        let variable = ref_at(refs, k, false, name.as_str());
        cached.push(ResolvedField {
            name: name.clone()?,
            text: said.name.clone()?,
            variable,
        })?;
    }
    Ok(cached)
}

// A text that is not too long, as one of a run.
fn short_text(alloc: Global, text: &str) -> Result<BoundText, AllocError>
    requires { length text.now ≤ longest }
    ensures { IfOk result (λ t. t ≡ text.now) }
{
    match BoundText::literal(alloc, text)? {
        Some(short) => Ok(short),
        None => unreachable!(),
    }
}

/// The text of a menu: that of its field.
pub fn menu_text(alloc: Global, fields: &[(Text, VarName)]) -> Result<BoundText, AllocError>
    requires { AreShort fields.now }
    ensures { IfOk result (λ t. t ≡ menu_text fields.now) }
{
    match fields {
        [] => short_text(alloc, ""),
        [field, ..] => short_text(alloc, field.1.name.as_str()),
    }
}
