//! Members: their order, repeated names, and how they are found.

use super::{is_number, tree};
use project_json::{Json, Member, digits_of, member, members_of};
use std::alloc::{AllocError, Global};
use std::process::Abort;

// An object whose values are numbers, and its members one after another.
static OBJECTS: [(&str, &str); 17] = [
    ("{}", ""),
    (r#"{"a":1}"#, "a=1;"),
    (r#"{"b":1,"a":2}"#, "b=1;a=2;"),
    (r#"{"10":1,"9":2}"#, "10=1;9=2;"),
    (r#"{"a":1,"A":2,"a ":3}"#, "a=1;A=2;a =3;"),
    // A repeated name keeps its earlier place and takes the later value.
    (r#"{"a":1,"b":2,"a":3}"#, "a=3;b=2;"),
    (r#"{"a":1,"a":2,"a":3}"#, "a=3;"),
    (
        r#"{"a":1,"b":2,"c":3,"b":4,"a":5,"d":6}"#,
        "a=5;b=4;c=3;d=6;",
    ),
    (r#"{"b":1,"a":2,"b":3,"a":4}"#, "b=3;a=4;"),
    (r#"{"":1}"#, "=1;"),
    (r#"{"":1,"a":2,"":3}"#, "=3;a=2;"),
    // A name is the text that its escapes stand for.
    (r#"{"a":1,"\u0061":2}"#, "a=2;"),
    (r#"{"\u0061":1,"b":2,"a":3}"#, "a=3;b=2;"),
    (
        "{\"\u{e9}\":1,\"\\u00E9\":2,\"e\u{301}\":3}",
        "\u{e9}=2;e\u{301}=3;",
    ),
    ("{\"\\ud83d\\ude00\":1,\"\u{1f600}\":2}", "\u{1f600}=2;"),
    (
        r#"{"\ud83d":1,"\ude00":2,"\ud83d\ude00":3}"#,
        "\u{fffd}=2;\u{1f600}=3;",
    ),
    (r#"{"a":1,"a\u0000":2,"\t":3}"#, "a=1;a\0=2;\t=3;"),
];

// A text, a name, and the number that stands there.
static FOUND: [(&str, &str, Option<&str>); 16] = [
    (r#"{"a":1,"b":2,"a":3}"#, "a", Some("3")),
    (r#"{"a":1,"b":2,"a":3}"#, "b", Some("2")),
    (r#"{"a":1,"b":2,"a":3}"#, "c", None),
    (r#"{"a":1,"b":2,"a":3}"#, "", None),
    (r#"{"a":1}"#, "A", None),
    (r#"{"ab":1}"#, "a", None),
    (r#"{"":-0.50}"#, "", Some("-0.50")),
    (r#"{"\u0061":2}"#, "a", Some("2")),
    (r#"{"\u0061":2}"#, r"\u0061", None),
    (r#"{"b":{"a":1}}"#, "a", None),
    ("{}", "", None),
    (r#"["a",1]"#, "a", None),
    (r#""a""#, "a", None),
    ("1", "1", None),
    ("null", "null", None),
    ("true", "true", None),
];

// The members of an object of numbers, one after another.
fn written(rt: &(impl Abort + AllocGlobal), json: &Json) -> String {
    let mut text = String::new(rt.alloc());
    for member in members_of(json).expect(rt, "an object") {
        let digits = digits_of(member.value()).expect(rt, "a number");
        let pair = format!(in rt.alloc(); "{}={};", member.name().as_str(), digits.as_str());
        let pair = pair.expect(rt, "memory");
        text.push_str(pair.as_str()).expect(rt, "memory");
    }
    text
}

#[test]
fn members_keep_their_order(rt: HostRuntime) {
    for (text, want) in &OBJECTS {
        let json = tree(&rt, text);
        assert!(rt; written(&rt, &json).as_str() == *want, "{text}");
    }
}

// The number that an object has under a name.
fn found<'j>(rt: &impl Abort, json: &'j Json, name: &str) -> Option<&'j str> {
    match member(json, name) {
        None => None,
        Some(value) => Some(digits_of(value).expect(rt, "a number").as_str()),
    }
}

#[test]
fn members_are_found_by_name(rt: HostRuntime) {
    for (text, name, want) in &FOUND {
        let json = tree(&rt, text);
        assert!(rt; found(&rt, &json, name) == *want, "{text} {name}");
    }
}

// The name of the member at this place of a large object.
fn name_at(alloc: Global, place: usize) -> Result<String, AllocError> {
    let number = place % 2000 * 1117 % 2000;
    format!(in alloc; "m{number}")
}

// 2,000 names in no order and with numbers from 0, and again with numbers from 2,000.
fn large_object(alloc: Global) -> Result<String, AllocError> {
    let mut text = String::from_str(alloc, "{")?;
    for i in 0..4000 {
        let name = name_at(alloc, i)?;
        let member = format!(in alloc; "\"{name}\":{i},")?;
        text.push_str(member.as_str())?;
    }
    text.push_str("\"\":0}")?;
    Ok(text)
}

// One name 2,000 times, at last with the number 3.
fn one_name(alloc: Global) -> Result<String, AllocError> {
    let mut text = String::from_str(alloc, "{")?;
    for _ in 0..1999 {
        text.push_str("\"a\":7,")?;
    }
    text.push_str("\"a\":3}")?;
    Ok(text)
}

// The member has the name and the number of this place.
fn is_at(rt: &(impl Abort + AllocGlobal), member: &Member, place: usize) {
    let name = name_at(rt.alloc(), place).expect(rt, "memory");
    assert!(rt; member.name().as_str() == name.as_str());
    let number = format!(in rt.alloc(); "{}", place.saturating_add(2000)).expect(rt, "memory");
    is_number(rt, member.value(), number.as_str());
}

#[test]
fn keeps_2000_members(rt: HostRuntime) {
    let text = large_object(rt.alloc()).expect(&rt, "memory");
    let json = tree(&rt, text.as_str());
    let members = members_of(&json).expect(&rt, "an object");
    assert!(rt; members.len() == 2001);
    for i in 0..2000 {
        is_at(&rt, &members[i], i);
    }
    assert!(rt; members[2000].name().as_str() == "");
}

#[test]
fn keeps_the_last_of_2000_values(rt: HostRuntime) {
    let text = one_name(rt.alloc()).expect(&rt, "memory");
    let json = tree(&rt, text.as_str());
    assert!(rt; written(&rt, &json).as_str() == "a=3;");
}
