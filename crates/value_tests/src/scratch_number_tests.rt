use scratch_number::{
    Num, NumText, Raw, abs, acos, add, asin, atan, atan2, ceiling, cos, div, floor, modulo, mul,
    of_millionths, of_text, of_whole, order, round, sin, sqrt, sub, tan, write_text,
};
use std::cmp::Ordering;
use std::process::Abort;

mod edges;
mod rows;

// A number as a table writes it.
#[derive(Clone, Copy, Debug)]
pub enum Value {
    // So many millionths.
    Of(i64),
    Inf,
    NegInf,
    Nan,
}

fn number(value: Value) -> Num {
    match value {
        Value::Of(millionths) => of_millionths(millionths as i128),
        Value::Inf => Num::Inf,
        Value::NegInf => Num::NegInf,
        Value::Nan => Num::Nan,
    }
}

fn check_pairs<F: Fn(Num, Num) -> Num>(
    rt: &impl Abort,
    name: &str,
    rows: &[(Value, Value, Value)],
    f: F,
)
    requires { F.IsAlwaysCallable f }
{
    for (a, b, want) in rows {
        assert_eq!(rt;
            f(number(*a), number(*b)),
            number(*want),
            "{name} of {a:?} and {b:?}"
        );
    }
}

fn check_each<F: Fn(Num) -> Num>(rt: &impl Abort, name: &str, rows: &[(Value, Value)], f: F)
    requires { F.IsAlwaysCallable f }
{
    for (a, want) in rows {
        assert_eq!(rt; f(number(*a)), number(*want), "{name} of {a:?}");
    }
}

#[test]
fn computes_pairs(rt: HostRuntime) {
    check_pairs(&rt, "add", &rows::ADD, |a, b| add(a, b));
    check_pairs(&rt, "sub", &rows::SUB, |a, b| sub(a, b));
    check_pairs(&rt, "mul", &rows::MUL, |a, b| mul(a, b));
    check_pairs(&rt, "div", &rows::DIV, |a, b| div(a, b));
    check_pairs(&rt, "modulo", &rows::MODULO, |a, b| modulo(a, b));
    check_pairs(&rt, "atan2", &rows::ATAN2, |a, b| atan2(a, b));
}

#[test]
fn computes_pairs_at_edges(rt: HostRuntime) {
    check_pairs(&rt, "add", &edges::ADD, |a, b| add(a, b));
    check_pairs(&rt, "mul", &edges::MUL, |a, b| mul(a, b));
    check_pairs(&rt, "div", &edges::DIV, |a, b| div(a, b));
    check_pairs(&rt, "modulo", &edges::MODULO, |a, b| modulo(a, b));
    check_pairs(&rt, "atan2", &edges::ATAN2, |a, b| atan2(a, b));
}

#[test]
fn computes_at_edges(rt: HostRuntime) {
    check_each(&rt, "round", &edges::ROUND, |a| round(a));
    check_each(&rt, "sqrt", &edges::SQRT, |a| sqrt(a));
    check_each(&rt, "sin", &edges::SIN, |a| sin(a));
    check_each(&rt, "cos", &edges::COS, |a| cos(a));
    check_each(&rt, "tan", &edges::TAN, |a| tan(a));
    check_each(&rt, "asin", &edges::ASIN, |a| asin(a));
    check_each(&rt, "acos", &edges::ACOS, |a| acos(a));
}

#[test]
fn rounds(rt: HostRuntime) {
    check_each(&rt, "round", &rows::ROUND, |a| round(a));
    check_each(&rt, "floor", &rows::FLOOR, |a| floor(a));
    check_each(&rt, "ceiling", &rows::CEILING, |a| ceiling(a));
    check_each(&rt, "abs", &rows::ABS, |a| abs(a));
    check_each(&rt, "sqrt", &rows::SQRT, |a| sqrt(a));
}

#[test]
fn turns(rt: HostRuntime) {
    check_each(&rt, "sin", &rows::SIN, |a| sin(a));
    check_each(&rt, "cos", &rows::COS, |a| cos(a));
    check_each(&rt, "tan", &rows::TAN, |a| tan(a));
    check_each(&rt, "asin", &rows::ASIN, |a| asin(a));
    check_each(&rt, "acos", &rows::ACOS, |a| acos(a));
    check_each(&rt, "atan", &rows::ATAN, |a| atan(a));
}

fn check_texts(rt: &impl Abort, rows: &[(&str, Value)]) {
    for (text, want) in rows {
        assert_eq!(rt; of_text(text), number(*want), "{text}");
    }
}

#[test]
fn reads_texts(rt: HostRuntime) {
    check_texts(&rt, &rows::OF_TEXT);
    check_texts(&rt, &edges::OF_TEXT);
}

#[test]
fn writes_texts(rt: HostRuntime) {
    let mut out = NumText::new();
    for (a, want) in rows::WRITE_TEXT {
        write_text(number(a), &mut out);
        assert_eq!(rt; out.as_str(), want, "{a:?}");
    }
}

#[test]
fn reads_long_texts(rt: HostRuntime) {
    let mut ones = String::new(rt.alloc());
    let mut huge = String::new(rt.alloc());
    let mut tiny = String::new(rt.alloc());
    ones.push_str("0.").expect(&rt, "memory");
    huge.push_str("-1e").expect(&rt, "memory");
    tiny.push_str("1E-").expect(&rt, "memory");
    for _ in 0..1_000_000 {
        ones.push('1').expect(&rt, "memory");
        huge.push('9').expect(&rt, "memory");
        tiny.push('9').expect(&rt, "memory");
    }
    assert_eq!(rt; of_text(ones.as_str()), of_millionths(111_111));
    assert_eq!(rt; of_text(huge.as_str()), Num::NegInf);
    assert_eq!(rt; of_text(tiny.as_str()), of_whole(0));
    ones.push_str("e1000002").expect(&rt, "memory");
    assert_eq!(rt; of_text(ones.as_str()), Num::Inf);
}

#[test]
fn orders(rt: HostRuntime) {
    let rows = [
        (Num::Inf, Num::Inf, Some(Ordering::Equal)),
        (Num::NegInf, Num::NegInf, Some(Ordering::Equal)),
        (Num::NegInf, Num::Inf, Some(Ordering::Less)),
        (of_whole(5), Num::Inf, Some(Ordering::Less)),
        (of_whole(5), Num::NegInf, Some(Ordering::Greater)),
        (of_whole(5), of_whole(-5), Some(Ordering::Greater)),
        (of_whole(5), of_whole(5), Some(Ordering::Equal)),
        (Num::Nan, Num::Nan, None),
        (Num::Nan, Num::Inf, None),
        (of_whole(0), Num::Nan, None),
    ];
    for (a, b, want) in rows {
        assert_eq!(rt; order(a, b), want);
    }
}

#[test]
fn makes_numbers(rt: HostRuntime) {
    let limit = 9_000_000_000_000_000_000;
    assert_eq!(rt;
        Raw::new(limit).map(Num::Fixed),
        Some(of_whole(9_000_000_000_000))
    );
    assert_eq!(rt; Raw::new(-limit - 1), None);
    assert_eq!(rt; Raw::new(-7).map(Raw::get), Some(-7));
    assert_eq!(rt; of_whole(9_000_000_000_001), Num::Inf);
    assert_eq!(rt; of_whole(-9_000_000_000_001), Num::NegInf);
    assert_eq!(rt; of_millionths(limit as i128 + 1), Num::Inf);
    assert_eq!(rt; NumText::new().as_str(), "");
}
