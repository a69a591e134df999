//! Worked texts with their trees, and worked faults with their places.

use lists::ListOf;
use project_json::{
    Items, Json, JsonRefusal, Text, Texts, digits_of, is_null, items_of, later_value_is_found,
    member, members_of, no_more_than_bytes, one_fault, one_tree, read, text_has_no_fault, text_of,
    text_or_fault, truth_of, value_named,
};
use std::alloc::Global;
use std::process::Abort;

mod faults;
mod members;
mod nesting;
mod numbers;
mod strings;
mod utf8;

// As the library reads. Nothing of its contract is needed here: a test compares as it runs.
fn tried(alloc: Global, bytes: &[u8]) -> Result<Json, JsonRefusal> {
    read(alloc, bytes)
}

fn tree(rt: &(impl Abort + AllocGlobal), text: &str) -> Json {
    let json = tried(rt.alloc(), text.as_bytes()).ok();
    json.expect(rt, "a JSON text")
}

fn refusal(alloc: Global, bytes: &[u8]) -> Option<JsonRefusal> {
    tried(alloc, bytes).err()
}

fn is_text(rt: &impl Abort, json: &Json, want: &str) {
    let text = text_of(json).expect(rt, "a text");
    assert!(rt; text.as_str() == want, "{want}");
}

fn is_number(rt: &impl Abort, json: &Json, want: &str) {
    let digits = digits_of(json).expect(rt, "a number");
    assert!(rt; digits.as_str() == want, "{want}");
}

fn has_items(rt: &impl Abort, json: &Json, want: usize) {
    let items = items_of(json).expect(rt, "a list");
    assert!(rt; items.len() == want);
}

fn has_members(rt: &impl Abort, json: &Json, want: usize) {
    let members = members_of(json).expect(rt, "an object");
    assert!(rt; members.len() == want);
}

fn at_name<'j>(rt: &impl Abort, json: &'j Json, name: &str) -> &'j Json {
    member(json, name).expect(rt, "a member")
}

fn at_place<'j>(rt: &impl Abort, json: &'j Json, place: usize) -> &'j Json {
    let items = items_of(json).expect(rt, "a list");
    items.get(place).expect(rt, "an item")
}

// The text is no JSON text, and the longest prefix that begins one has `at` bytes.
fn stops(rt: &impl Abort, alloc: Global, text: &str, at: usize) {
    let refusal = refusal(alloc, text.as_bytes());
    assert!(rt; refusal == Some(JsonRefusal::Syntax { at }), "{text:?}");
}

// Each text stops at its place.
fn each_stops(rt: &impl Abort, alloc: Global, rows: &[(&str, usize)]) {
    for (text, at) in rows {
        stops(rt, alloc, text, *at);
    }
}

#[test]
fn reads_each_kind(rt: HostRuntime) {
    let json = tree(
        &rt,
        " { \"n\" : null, \"t\":true,\r\n\t\"f\":false , \"d\": -12, \"s\":\"a\x7fb\", \"l\":[0,[ ]] } ",
    );
    has_members(&rt, &json, 6);
    assert!(rt; is_null(at_name(&rt, &json, "n")));
    assert!(rt; truth_of(at_name(&rt, &json, "t")) == Some(true));
    assert!(rt; truth_of(at_name(&rt, &json, "f")) == Some(false));
    is_number(&rt, at_name(&rt, &json, "d"), "-12");
    is_text(&rt, at_name(&rt, &json, "s"), "a\x7fb");
    let items = at_name(&rt, &json, "l");
    has_items(&rt, items, 2);
    has_items(&rt, at_place(&rt, items, 1), 0);
}

#[test]
fn a_value_of_another_kind_is_not_taken(rt: HostRuntime) {
    let json = tree(&rt, "{\"l\":[]}");
    assert!(rt; text_of(&json).is_none());
    assert!(rt; digits_of(&json).is_none());
    assert!(rt; truth_of(&json) == None);
    assert!(rt; items_of(&json).is_none());
    assert!(rt; members_of(at_name(&rt, &json, "l")).is_none());
    assert!(rt; !is_null(&json));
}

#[test]
fn says_why_it_refuses(rt: HostRuntime) {
    let rows = [
        (JsonRefusal::NotUtf8 { at: 7 }, "not UTF-8 at byte 7"),
        (
            JsonRefusal::Syntax { at: 0 },
            "no JSON text goes on so at byte 0",
        ),
        (
            JsonRefusal::TooDeep { at: 256 },
            "nested deeper than 256 at byte 256",
        ),
        (JsonRefusal::NoMemory, "out of memory"),
    ];
    for (refusal, want) in rows {
        let said = format!(in rt.alloc(); "{refusal}").expect(&rt, "memory");
        assert_eq!(rt; said.as_str(), want);
    }
}

#[test]
fn makes_texts(rt: HostRuntime) {
    let empty = Text::new(rt.alloc());
    assert_eq!(rt; empty.as_str(), "");
    let text = Text::from_str(rt.alloc(), "flag").expect(&rt, "memory");
    assert_eq!(rt; text.as_str(), "flag");
    assert!(rt; text == text.clone().expect(&rt, "memory"));
    assert!(rt; text != empty);
}

#[test]
fn takes_strings_over(rt: HostRuntime) {
    let string = String::from_str(rt.alloc(), "na\u{ef}ve").expect(&rt, "memory");
    let text = Text::from_string(string);
    assert_eq!(rt; text.as_str(), "na\u{ef}ve");
    let mut texts: Texts = ListOf::new(rt.alloc());
    texts.push(text).expect(&rt, "memory");
    let copy = texts.clone().expect(&rt, "memory");
    assert_eq!(rt; copy.len(), 1);
    assert!(rt; copy.iter().all(|text| text.as_str() == "na\u{ef}ve"));
}

#[test]
fn copies_documents(rt: HostRuntime) {
    let json = tree(
        &rt,
        r#"{"a":[null,true,-1.50,"x",[],{}],"b":{"c":"d","e":0}}"#,
    );
    let copy = json.clone().expect(&rt, "memory");
    has_members(&rt, &copy, 2);
    let list = at_name(&rt, &copy, "a");
    has_items(&rt, list, 6);
    assert!(rt; is_null(at_place(&rt, list, 0)));
    assert!(rt; truth_of(at_place(&rt, list, 1)) == Some(true));
    is_number(&rt, at_place(&rt, list, 2), "-1.50");
    is_text(&rt, at_place(&rt, list, 3), "x");
    has_items(&rt, at_place(&rt, list, 4), 0);
    has_members(&rt, at_place(&rt, list, 5), 0);
    let inner = at_name(&rt, &copy, "b");
    is_text(&rt, at_name(&rt, inner, "c"), "d");
    assert!(rt; member(inner, "f").is_none());
}

#[test]
fn finds_values_among_members(rt: HostRuntime) {
    let json = tree(&rt, r#"{"c":"d","e":0}"#);
    let members = members_of(&json).expect(&rt, "an object");
    is_number(&rt, value_named(members, "e").expect(&rt, "a value"), "0");
    assert!(rt; value_named(members, "f").is_none());
}

#[test]
fn makes_lists(rt: HostRuntime) {
    let mut items = Vec::new(rt.alloc());
    items.push(Json::Truth(false)).expect(&rt, "memory");
    let list = Json::List(Items::new(items));
    has_items(&rt, &list, 1);
    assert!(rt; truth_of(at_place(&rt, &list, 0)) == Some(false));
}

#[test]
fn laws_can_be_called() {
    one_tree();
    no_more_than_bytes();
    later_value_is_found();
    text_or_fault();
    text_has_no_fault();
    one_fault();
}
