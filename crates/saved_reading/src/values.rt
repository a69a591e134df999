//! Values of variables and items.

ghost use Rattle.saved_parts.specs.Telling.{value_of};
ghost use Rattle.saved_spec.specs.Shapes as shape;
ghost use Rattle.serde_json.specs.View.{view};
ghost use Rattle.json_shapes.specs.Reads.{Reads};
ghost use Rattle.saved_reading.specs.Parts.{listed_number};

use crate::parts::{Shaped, part, row};
use json_shapes::{Fault, Place};
use project_json::Text;
use saved_parts::ToldValue;
use serde_json::Value;
use std::alloc::Global;

// The number of a list of one number.
fn listed_number(alloc: Global, place: &Place, value: &Value) -> Result<ToldValue, Fault>
    ensures { Reads value_of result (listed_number place.now (view value.now)) }
{
    let items = row(alloc, place, value, 1)?;
    let number = part(alloc, place, items, 0)?;
    Ok(ToldValue::Number(number))
}

impl Shaped for ToldValue {
    ghost use Rattle.scratch_values.specs.declared.value.Value.{Value};

    ghost Seen = { Value };

    ghost seen = { value_of };

    ghost shape = { shape.value };

    fn read(alloc: Global, place: &Place, value: &Value) -> Result<ToldValue, Fault> {
        if let Some(text) = value.as_str() {
            return Ok(ToldValue::Text(Text::from_str(alloc, text)?));
        }
        match value.as_bool() {
            Some(truth) => Ok(ToldValue::Truth(truth)),
            None => listed_number(alloc, place, value),
        }
    }
}
