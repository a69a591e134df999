//! Numbers and values as a project file has them.

ghost use Rattle.std.specs.Prelude.{◌≡◌, ◌≤◌, length, IfOk, SomeIff};
ghost use Rattle.project_json.specs.View.{tree};
ghost use Rattle.scratch_values.specs.Longest.{longest};
ghost use Rattle.json_shapes.specs.Reads.{Reads};
ghost use Rattle.project_spec.specs.Values as told;
ghost use Rattle.project_spec.specs.FileValues.{value_in, IsShort};

use json_shapes::{Fault, Place, digits};
use project_json::{Json, Text};
use scratch_number::{Num, of_text, of_whole};
use scratch_values::{BoundText, Value};
use std::alloc::{AllocError, Global};

/// A value as the file has it: its text may be longer than that of a run.
#[derive(Debug, Drop)]
pub enum FileValue {
    /// A number.
    Number(Num),
    /// True or false.
    Truth(bool),
    /// A text of any length.
    Text(Text),
}

impl FileValue {
    ghost use Rattle.std.specs.Prelude.{◌≡◌, IfOk, SomeIff};
    ghost use Rattle.project_spec.specs.FileValues.{value_in, IsShort};

    /// The value of a run, where the text has at most 1,048,576 bytes. A text's number is read once, here. The only
    /// error is want of memory.
    pub fn bounded(&self, alloc: Global) -> Result<Option<Value>, AllocError>
        ensures { IfOk result (λ v. SomeIff v (IsShort (value_in self.now)) (value_in self.now)) }
    {
        match self {
            FileValue::Number(number) => Ok(Some(Value::Number(*number))),
            FileValue::Truth(truth) => Ok(Some(Value::Truth(*truth))),
            FileValue::Text(text) => match BoundText::literal(alloc, text.as_str())? {
                Some(literal) => Ok(Some(Value::Text(literal))),
                None => Ok(None),
            },
        }
    }
}

/// A number: that of the JSON number's own text.
pub fn num(alloc: Global, place: &Place, json: &Json) -> Result<Num, Fault>
    ensures { Reads (λ n. n) result (told.num place.now (tree json.now)) }
{
    let digits = digits(alloc, place, json)?;
    Ok(of_text(digits.as_str()))
}

/// A value: a text, a truth, a number, or null as 0.
pub fn value(alloc: Global, place: &Place, json: &Json) -> Result<FileValue, Fault>
    ensures { Reads value_in result (told.value place.now (tree json.now)) }
{
    match json {
        Json::Null => Ok(FileValue::Number(of_whole(0))),
        Json::Truth(truth) => Ok(FileValue::Truth(*truth)),
        Json::Number(number) => Ok(FileValue::Number(of_text(number.digits().as_str()))),
        Json::Text(text) => Ok(FileValue::Text(text.clone()?)),
        Json::List(_) => Err(place.fault(alloc)),
        Json::Object(_) => Err(place.fault(alloc)),
    }
}
