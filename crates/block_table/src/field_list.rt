//! The fields of a block.

ghost use Rattle.std.specs.Prelude.{◌≡◌, map, codes, slice_get, IfOk};
ghost use Rattle.std.specs.Option.{option_map};
ghost use Rattle.project_json.specs.View.{tree, field};
ghost use Rattle.scratch_values.specs.Value.{text_of};
ghost use Rattle.json_shapes.specs.Reads.{Reads};
ghost use Rattle.json_shapes.specs.Shapes.{each_member};
ghost use Rattle.project_spec.specs.FileValues.{value_in};
ghost use Rattle.project_spec.specs.Values as value_of;
ghost use Rattle.project_spec.specs.Blocks as told;
ghost use Rattle.block_table.specs.Parts.{fields_in};

use crate::input_list::items_from;
use json_shapes::{Fault, Place, given_members, item, text};
use project_json::{Json, Member, Text, is_null};
use project_spec::{Fields, FileValue, value};
use scratch_values::{Value, VarName, to_text};
use std::alloc::{AllocError, Global};

// The text of a value. The only error is want of memory.
fn value_text(alloc: Global, value: FileValue) -> Result<Text, AllocError>
    ensures { IfOk result (λ t. t ≡ text_of (value_in value)) }
{
    match value {
        FileValue::Number(number) => to_text(alloc, &Value::Number(number))?.into_text(),
        FileValue::Truth(truth) => to_text(alloc, &Value::Truth(truth))?.into_text(),
        FileValue::Text(text) => Ok(text),
    }
}

// The text of a field: that of a value, and null as the empty text.
fn field_text(alloc: Global, place: &Place, json: &Json) -> Result<Text, Fault>
    ensures { Reads (λ t. t) result (value_of.field_text place.now (tree json.now)) }
{
    if is_null(json) {
        return Ok(Text::new(alloc));
    }
    let value = value(alloc, place, json)?;
    let text = value_text(alloc, value)?;
    Ok(text)
}

// The id of a field, at place 1 of its list.
fn field_id(alloc: Global, place: &Place, item: Option<&Json>) -> Result<Option<Text>, Fault>
    ensures { Reads (λ id. id) result (told.field_id place.now (option_map (λ j. tree j.now) item.entry)) }
{
    match item {
        Some(item) => {
            if is_null(item) {
                return Ok(None);
            }
            let id = text(alloc, &place.member("1"), item)?.clone()?;
            Ok(Some(id))
        }
        None => Ok(None),
    }
}

// The item at place 1, where there is one.
fn second(items: &[Json]) -> Option<&Json>
    ensures { option_map (λ j. tree j.now) result ≡ slice_get (map tree items.now) 1 }
{
    items.get(1)
}

// A field, with its name.
fn field(alloc: Global, place: &Place, member: &Member) -> Result<(Text, VarName), Fault>
    ensures { Reads (λ f. f) result (told.field_of place.now (field member.now)) }
{
    let place = place.member(member.name().as_str());
    let items = items_from(alloc, &place, member.value(), 1)?;
    let first = item(alloc, &place, items, 0)?;
    let text = field_text(alloc, &place.item(0), first)?;
    let id = field_id(alloc, &place, second(items))?;
    let name = member.name().clone()?;
    Ok((name, VarName { name: text, id }))
}

// Each field, in order.
fn each_field(alloc: Global, place: &Place, members: &[Member]) -> Result<Fields, Fault>
    ensures { Reads (λ fs. fs) result (each_member told.field_of place.now (map field members.now)) }
{
    let mut fields = Fields::new(alloc);
    for member in members {
        let field = field(alloc, place, member)?;
        fields.push(field)?;
    }
    Ok(fields)
}

/// The fields of a block.
pub(crate) fn fields(alloc: Global, place: &Place, members: &[Member]) -> Result<Fields, Fault>
    ensures { Reads (λ fs. fs) result (fields_in place.now (map field members.now)) }
{
    let held = given_members(alloc, place, members, "fields")?;
    each_field(alloc, &place.member("fields"), held)
}
