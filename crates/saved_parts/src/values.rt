//! Values as a text tells them.

ghost use Rattle.std.specs.Prelude.{◌≡◌, true, IfOk};
ghost use Rattle.saved_spec.specs.Rules.{is_short};
ghost use Rattle.saved_parts.specs.Telling.{value_of};

use lists::ListOf;
use project_json::Text;
use scratch_number::Num;
use scratch_values::{BoundText, Value};
use std::alloc::{AllocError, Global};

/// The value of a variable or an item; a text may be of any length.
#[derive(Debug, Drop)]
pub enum ToldValue {
    /// A number.
    Number(Num),
    /// True or false.
    Truth(bool),
    /// A text.
    Text(Text),
}

/// Values in order.
pub type ToldValues = ListOf<ToldValue>;

/// The lists of an instance, in order.
pub type ToldLists = ListOf<ToldValues>;

/// The value that is told, whose text is short enough. The only error is want of memory.
pub fn value(alloc: Global, told: ToldValue) -> Result<Value, AllocError>
    requires { is_short (value_of told) ≡ true }
    ensures { IfOk result (λ value. value ≡ value_of told) }
{
    match told {
        ToldValue::Number(number) => Ok(Value::Number(number)),
        ToldValue::Truth(truth) => Ok(Value::Truth(truth)),
        ToldValue::Text(text) => Ok(Value::Text(BoundText::from_short(alloc, text)?)),
    }
}
