//! Lists that a number at place 0 tells apart, and the primitives that the editor writes in place of blocks.

ghost use Rattle.std.specs.Prelude.{◌≡◌, ◌*ℤ◌, pos, map};
ghost use Rattle.scratch_number.specs.Arithmetic.{million};
ghost use Rattle.scratch_number.specs.declared.number.Num.{Num};
ghost use Rattle.project_json.specs.View.{tree};
ghost use Rattle.json_shapes.specs.Reads.{Reads};
ghost use Rattle.json_shapes.specs.Shapes.{required_item};
ghost use Rattle.project_spec.specs.Values as value_of;
ghost use Rattle.project_spec.specs.Blocks as told;
ghost use Rattle.block_table.specs.FileBlock.{input_in};

use crate::file_block::FileInput;
use json_shapes::{Fault, Place, item, item_text};
use project_json::Json;
use project_spec::{FileValue, num, value};
use scratch_number::{Num, Raw, order};
use scratch_values::VarName;
use std::alloc::Global;
use std::cmp::Ordering;

// Whether a number is this whole number.
fn is_number(kind: u8, number: Num) -> bool
    ensures { result ≡ told.is_same_number (Num.Fixed (pos kind *ℤ million)) number }
{
    match Raw::new(i64::from(kind) * 1_000_000) {
        Some(raw) => match order(Num::Fixed(raw), number) {
            Some(order) => order == Ordering::Equal,
            None => true,
        },
        None => false,
    }
}

// Whether a number is one of these whole numbers.
pub(crate) fn is_one_of(kinds: &[u8], number: &Num) -> bool
    ensures { result ≡ told.is_one_of kinds.now number.now }
{
    kinds.iter().any(|kind| is_number(*kind, *number))
}

// The number at place 0.
fn first_number(alloc: Global, place: &Place, items: &[Json]) -> Result<Num, Fault>
    ensures { Reads (λ n. n) result (required_item value_of.num 0 place.now (map tree items.now)) }
{
    let first = item(alloc, place, items, 0)?;
    num(alloc, &place.item(0), first)
}

// The number at place 0, which is one of these.
pub(crate) fn tag(alloc: Global, place: &Place, items: &[Json], kinds: &[u8]) -> Result<Num, Fault>
    ensures { Reads (λ n. n) result (told.tag kinds.now place.now (map tree items.now)) }
{
    let number = first_number(alloc, place, items)?;
    if is_one_of(kinds, &number) {
        Ok(number)
    } else {
        Err(place.member("0").fault(alloc))
    }
}

// A name at place 1, and an id at place 2.
pub(crate) fn name_and_id(alloc: Global, place: &Place, items: &[Json]) -> Result<VarName, Fault>
    ensures { Reads (λ n. n) result (told.name_and_id place.now (map tree items.now)) }
{
    let name = item_text(alloc, place, items, 1)?;
    let id = item_text(alloc, place, items, 2)?;
    let name = name.clone()?;
    let id = id.clone()?;
    Ok(VarName { name, id: Some(id) })
}

// The value at place 1.
fn literal(alloc: Global, place: &Place, items: &[Json]) -> Result<FileInput, Fault>
    ensures { Reads input_in result (told.literal place.now (map tree items.now)) }
{
    let item = item(alloc, place, items, 1)?;
    let value = value(alloc, &place.item(1), item)?;
    Ok(FileInput::Literal(value))
}

// The text at place 1.
fn message(alloc: Global, place: &Place, items: &[Json]) -> Result<FileInput, Fault>
    ensures { Reads input_in result (told.message place.now (map tree items.now)) }
{
    let text = item_text(alloc, place, items, 1)?.clone()?;
    Ok(FileInput::Literal(FileValue::Text(text)))
}

// The primitive of a kind.
fn primitive_by(alloc: Global, kind: Num, place: &Place, items: &[Json]) -> Result<FileInput, Fault>
    ensures { Reads input_in result (told.primitive_by kind place.now (map tree items.now)) }
{
    if is_one_of(&[12], &kind) {
        let name = name_and_id(alloc, place, items)?;
        Ok(FileInput::Variable(name))
    } else if is_one_of(&[13], &kind) {
        let name = name_and_id(alloc, place, items)?;
        Ok(FileInput::List(name))
    } else if is_one_of(&[11], &kind) {
        message(alloc, place, items)
    } else {
        literal(alloc, place, items)
    }
}

/// A primitive: 4 to 10 with a value, 11 with a broadcast's name, 12 and 13 with a variable and a list.
pub(crate) fn primitive(alloc: Global, place: &Place, items: &[Json]) -> Result<FileInput, Fault>
    ensures { Reads input_in result (told.primitive place.now (map tree items.now)) }
{
    let kind = tag(alloc, place, items, &[4, 5, 6, 7, 8, 9, 10, 11, 12, 13])?;
    primitive_by(alloc, kind, place, items)
}
