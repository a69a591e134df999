//! What no clause says.

use project_json::Text;
use scratch_number::{Num, div, of_millionths, of_whole};
use scratch_values::{
    Arg, Args, BoundText, Held, LONGEST, Params, ResolvedField, Value, ValueLists, Values, VarName,
    VarRef, compare, numeric, to_text,
};
use std::alloc::{AllocError, Global};
use std::cmp::Ordering::{Equal, Greater};
use std::process::Abort;

mod casts;
mod comparisons;
mod indexes;

// A value as a table writes it.
#[derive(Clone, Copy, Debug)]
pub enum Given {
    // So many millionths.
    Of(i64),
    Inf,
    NegInf,
    Nan,
    Truth(bool),
    Text(&'static str),
}

fn number(given: Given) -> Num {
    match given {
        Given::Of(millionths) => of_millionths(millionths as i128),
        Given::Inf => Num::Inf,
        Given::NegInf => Num::NegInf,
        Given::Nan => Num::Nan,
        Given::Truth(_) => Num::Nan,
        Given::Text(_) => Num::Nan,
    }
}

fn value(rt: &impl Abort, alloc: Global, given: Given) -> Result<Value, AllocError> {
    match given {
        Given::Truth(truth) => Ok(Value::Truth(truth)),
        Given::Text(text) => {
            let text = BoundText::from_str(alloc, text)?;
            Ok(Value::Text(text.expect(rt, "a short text")))
        }
        Given::Of(_) => Ok(Value::Number(number(given))),
        Given::Inf => Ok(Value::Number(number(given))),
        Given::NegInf => Ok(Value::Number(number(given))),
        Given::Nan => Ok(Value::Number(number(given))),
    }
}

// The fields of a block: an effect, a variable by a name that leads to none, and by one that does.
fn fields(alloc: Global) -> Result<Vec<ResolvedField>, AllocError> {
    let mut fields = Vec::new(alloc);
    let rows = [
        ("EFFECT", "ghost", None),
        ("VARIABLE", "n", None),
        ("VARIABLE", "m", Some(VarRef::Stage(3))),
    ];
    for (name, text, variable) in rows {
        fields.push(ResolvedField {
            name: Text::from_str(alloc, name)?,
            text: Text::from_str(alloc, text)?,
            variable,
        })?;
    }
    Ok(fields)
}

fn lent<'p>(name: &'p Text, value: &'p Value) -> Arg<'p> {
    Arg {
        name,
        value: Held::Lent(value),
    }
}

fn own<'p>(name: &'p Text, truth: bool) -> Arg<'p> {
    Arg {
        name,
        value: Held::Own(Value::Truth(truth)),
    }
}

// Four inputs, two of each name.
fn four<'p>(
    alloc: Global,
    x: &'p Text,
    y: &'p Text,
    five: &'p Value,
) -> Result<Vec<Arg<'p>>, AllocError> {
    let mut inputs = Vec::new(alloc);
    for input in [own(x, true), own(x, false), lent(y, five), own(y, true)] {
        match inputs.push(input) {
            Ok(()) => {}
            Err(_) => return Err(AllocError),
        }
    }
    Ok(inputs)
}

// These arguments have these inputs, and the fields above.
fn has(rt: &impl Abort, args: Args<'_>, x: Option<&Value>, y: Option<&Value>) {
    assert_eq!(rt; args.value("X"), x);
    assert_eq!(rt; args.value("Y"), y);
    assert!(rt; args.value("EFFECT").is_none());
    assert_eq!(rt;
        args.field("EFFECT").map(|text| text.as_str()),
        Some("ghost")
    );
    assert_eq!(rt; args.field("VARIABLE").map(|text| text.as_str()), Some("n"));
    assert!(rt; args.field("X").is_none());
    assert_eq!(rt; args.variable("VARIABLE"), Some(VarRef::Stage(3)));
    assert!(rt; args.variable("EFFECT").is_none());
}

#[test]
fn arguments_by_name(rt: HostRuntime) {
    let alloc = rt.alloc();
    let fields = fields(alloc).expect(&rt, "memory");
    let x = Text::from_str(alloc, "X").expect(&rt, "memory");
    let y = Text::from_str(alloc, "Y").expect(&rt, "memory");
    let five = Value::Number(of_whole(5));
    let yes = Value::Truth(true);
    let inputs = four(alloc, &x, &y, &five).expect(&rt, "memory");
    has(&rt, Args::many(&fields, inputs), Some(&yes), Some(&five));
    has(&rt, Args::none(&fields), None, None);
    has(&rt, Args::one(&fields, lent(&x, &five)), Some(&five), None);
    let two = Args::two(&fields, lent(&x, &five), own(&x, false));
    has(&rt, two, Some(&five), None);
    let three = Args::three(&fields, own(&y, true), lent(&x, &five), own(&y, false));
    has(&rt, three, Some(&five), Some(&yes));
}

#[test]
fn parameters_by_name(rt: HostRuntime) {
    let alloc = rt.alloc();
    let mut params = Params::new(alloc);
    params
        .push(
            Text::from_str(alloc, "x").expect(&rt, "memory"),
            Value::Number(Num::Inf),
        )
        .expect(&rt, "memory");
    params
        .put(
            Text::from_str(alloc, "y").expect(&rt, "memory"),
            Value::Truth(false),
        )
        .expect(&rt, "memory");
    params
        .put(
            Text::from_str(alloc, "x").expect(&rt, "memory"),
            Value::Truth(true),
        )
        .expect(&rt, "memory");
    assert_eq!(rt; params.value("x"), Some(&Value::Truth(true)));
    assert_eq!(rt; params.value("y"), Some(&Value::Truth(false)));
    assert!(rt; params.value("z").is_none());
    let copy = params.clone().expect(&rt, "memory");
    assert_eq!(rt; copy.pairs().len(), 2);
    assert_eq!(rt; copy.pairs()[0].0.as_str(), "x");
}

#[test]
fn values_are_cloned_and_compared(rt: HostRuntime) {
    let text = value(&rt, rt.alloc(), Given::Text("a")).expect(&rt, "memory");
    assert_eq!(rt; text.clone().expect(&rt, "memory"), text);
    assert!(rt; text != Value::Truth(true));
    let name = VarName {
        name: Text::from_str(rt.alloc(), "n").expect(&rt, "memory"),
        id: None,
    };
    assert_eq!(rt; name.clone().expect(&rt, "memory"), name);
    let field = ResolvedField {
        name: name.name,
        text: Text::new(rt.alloc()),
        variable: Some(VarRef::Own(0)),
    };
    assert_eq!(rt; field.clone().expect(&rt, "memory"), field);
}

#[test]
fn lists_of_values_are_cloned(rt: HostRuntime) {
    let mut values = Values::new(rt.alloc());
    values
        .push(value(&rt, rt.alloc(), Given::Text("a")).expect(&rt, "memory"))
        .expect(&rt, "memory");
    let mut lists = ValueLists::new(rt.alloc());
    lists
        .push(values.clone().expect(&rt, "memory"))
        .expect(&rt, "memory");
    let copy = lists.clone().expect(&rt, "memory");
    values.push(Value::Truth(true)).expect(&rt, "memory");
    assert_eq!(rt; values.len(), 2);
    let list = copy.get(0).expect(&rt, "a list");
    assert_eq!(rt;
        list.as_slice(),
        [value(&rt, rt.alloc(), Given::Text("a")).expect(&rt, "memory")].as_slice()
    );
}

// A literal knows its number, a text of a run reads it, and both are alike.
#[test]
fn texts_know_their_numbers(rt: HostRuntime) {
    let alloc = rt.alloc();
    for (text, number) in [
        (" 1e1 ", of_whole(10)),
        ("cat", Num::Nan),
        ("", of_whole(0)),
    ] {
        let literal = BoundText::literal(alloc, text)
            .expect(&rt, "memory")
            .expect(&rt, "a short text");
        let made = BoundText::from_str(alloc, text)
            .expect(&rt, "memory")
            .expect(&rt, "a short text");
        assert_eq!(rt; literal.number(), number, "{text}");
        assert_eq!(rt; made.number(), number, "{text}");
        assert_eq!(rt; literal, made, "{text}");
        assert_eq!(rt;
            literal.clone().expect(&rt, "memory").number(),
            number,
            "{text}"
        );
    }
}

#[test]
fn a_text_is_taken_out(rt: HostRuntime) {
    let text = BoundText::from_short(
        rt.alloc(),
        Text::from_str(rt.alloc(), "cat").expect(&rt, "memory"),
    )
    .expect(&rt, "memory");
    let copy = text.clone().expect(&rt, "memory");
    assert_eq!(rt; copy.into_text().expect(&rt, "memory").as_str(), "cat");
    assert_eq!(rt; text.into_text().expect(&rt, "memory").as_str(), "cat");
}

#[test]
fn texts_are_bounded(rt: HostRuntime) {
    let mut long = String::new(rt.alloc());
    for _ in 0..LONGEST {
        long.push('a').expect(&rt, "memory");
    }
    let text = Text::from_str(rt.alloc(), long.as_str()).expect(&rt, "memory");
    assert!(rt;
        BoundText::new(rt.alloc(), text)
            .expect(&rt, "memory")
            .is_some()
    );
    assert!(rt;
        BoundText::from_str(rt.alloc(), long.as_str())
            .expect(&rt, "memory")
            .is_some()
    );
    assert!(rt;
        BoundText::literal(rt.alloc(), long.as_str())
            .expect(&rt, "memory")
            .is_some()
    );
    long.push('a').expect(&rt, "memory");
    let text = Text::from_str(rt.alloc(), long.as_str()).expect(&rt, "memory");
    assert!(rt;
        BoundText::new(rt.alloc(), text)
            .expect(&rt, "memory")
            .is_none()
    );
    assert!(rt;
        BoundText::from_str(rt.alloc(), long.as_str())
            .expect(&rt, "memory")
            .is_none()
    );
    assert!(rt;
        BoundText::literal(rt.alloc(), long.as_str())
            .expect(&rt, "memory")
            .is_none()
    );
}

// Two thirds, an infinity and not-a-number, as a division gives them.
#[test]
fn quotients(rt: HostRuntime) {
    let alloc = rt.alloc();
    let two_thirds = Value::Number(div(of_whole(2), of_whole(3)));
    assert_eq!(rt;
        to_text(alloc, &two_thirds).expect(&rt, "memory").as_str(),
        "0.666667"
    );
    let infinity = Value::Number(div(of_whole(1), of_whole(0)));
    let five = Value::Number(of_whole(5));
    assert_eq!(rt;
        compare(alloc, &infinity, &five).expect(&rt, "memory"),
        Greater
    );
    let nan = Value::Number(div(of_whole(0), of_whole(0)));
    let zero = Value::Number(of_whole(0));
    assert_ne!(rt; compare(alloc, &nan, &zero).expect(&rt, "memory"), Equal);
}

// What is a number in a comparison, and what is none.
#[test]
fn numbers_of_a_comparison(rt: HostRuntime) {
    let rows = [
        (Given::Text(" 5 "), Some(of_whole(5))),
        (Given::Text(" "), None),
        (Given::Text("cat"), None),
        (Given::Truth(true), Some(of_whole(1))),
        (Given::Nan, None),
        (Given::NegInf, Some(Num::NegInf)),
    ];
    for (given, number) in rows {
        assert_eq!(rt;
            numeric(&value(&rt, rt.alloc(), given).expect(&rt, "memory")),
            number,
            "{given:?}"
        );
    }
}
