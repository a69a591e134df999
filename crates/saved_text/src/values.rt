//! Numbers, texts and values.

ghost use Rattle.scratch_number.specs.Number.{IsWithin};
ghost use Rattle.serde_json.specs.Data.{string};
ghost use Rattle.saved_spec.specs.Ranges as range;
ghost use Rattle.saved_spec.specs.Values.{num, value};

use crate::rows::Saved;
use scratch_number::Num;
use scratch_values::{BoundText, Value};
use serde::Serializer;

impl Saved for Num {
    ghost as_data = { num };

    ghost in_range = { λ n. IsWithin n };

    fn send<S: Serializer>(&self, out: &mut S) -> Result<(), S::Error> {
        match self {
            Num::Fixed(raw) => raw.get().send(out),
            Num::Inf => out.str("inf"),
            Num::NegInf => out.str("-inf"),
            Num::Nan => out.str("nan"),
        }
    }
}

impl Saved for BoundText {
    ghost as_data = { string };

    ghost in_range = { λ t. range.IsText t };

    fn send<S: Serializer>(&self, out: &mut S) -> Result<(), S::Error> {
        out.str(self.as_str())
    }
}

impl Saved for Value {
    ghost as_data = { value };

    ghost in_range = { λ v. range.IsValue v };

    fn send<S: Serializer>(&self, out: &mut S) -> Result<(), S::Error> {
        match self {
            Value::Number(number) => {
                out.begin_seq(Some(1))?;
                number.send(out)?;
                out.end_seq()
            }
            Value::Truth(truth) => out.bool(*truth),
            Value::Text(text) => text.send(out),
        }
    }
}
