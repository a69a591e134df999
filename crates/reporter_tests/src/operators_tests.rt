//! Each public function on worked rows.

use operators::{Written, empty_text, next_word};
use scratch_number::{Num, of_millionths};
use scratch_values::{BoundText, Value};
use script_words::pcg;
use std::process::Abort;

mod equal_values;
mod joined_items;
mod math_functions;
mod picked_numbers;
mod text_rows;

// A value as a table writes it.
#[derive(Clone, Copy, Debug)]
pub enum Given {
    // So many millionths.
    Of(i64),
    Inf,
    NegInf,
    Nan,
    Truth(bool),
    Text(&'static str),
}

fn number(given: Given) -> Num {
    match given {
        Given::Of(millionths) => of_millionths(i128::from(millionths)),
        Given::Inf => Num::Inf,
        Given::NegInf => Num::NegInf,
        Given::Nan => Num::Nan,
        Given::Truth(_) => Num::Nan,
        Given::Text(_) => Num::Nan,
    }
}

fn text(rt: &(impl Abort + AllocGlobal), given: &str) -> Value {
    let text = BoundText::from_str(rt.alloc(), given).expect(rt, "memory");
    Value::Text(text.expect(rt, "a short text"))
}

fn value(rt: &(impl Abort + AllocGlobal), given: Given) -> Value {
    match given {
        Given::Truth(truth) => Value::Truth(truth),
        Given::Text(given) => text(rt, given),
        Given::Of(_) => Value::Number(number(given)),
        Given::Inf => Value::Number(number(given)),
        Given::NegInf => Value::Number(number(given)),
        Given::Nan => Value::Number(number(given)),
    }
}

// The values of a list.
fn values(rt: &(impl Abort + AllocGlobal), given: &[Given]) -> Vec<Value> {
    let mut values = Vec::new(rt.alloc());
    for item in given {
        values.push(value(rt, *item)).ok().expect(rt, "memory");
    }
    values
}

#[test]
fn a_value_is_written(rt: HostRuntime) {
    let half = value(&rt, Given::Of(-500_000));
    assert!(rt; Written::of(&half).as_str() == "-0.5");
    assert!(rt; Written::of(&Value::Truth(true)).as_str() == "true");
    let empty = empty_text(rt.alloc()).expect(&rt, "memory");
    assert!(rt; Written::of(&empty).as_str() == "");
}

#[test]
fn a_word_is_drawn(rt: HostRuntime) {
    let mut words = pcg(0, 0);
    assert!(rt; next_word(&mut words) == Ok(298703107));
    assert!(rt; next_word(&mut words) == Ok(4236525527));
    assert!(rt; words.drawn() == 2);
}
