//! Mutations of prototypes and calls, and those that are refused.

use mutations::{FilePrototype, read_call, read_prototype};
use project_json::{Json, Text, read};
use project_spec::{FileValue, MutationRefusal};
use std::alloc::Global;
use std::process::Abort;

fn tree(rt: &(impl Abort + AllocGlobal), text: &str) -> Json {
    match read(rt.alloc(), text.as_bytes()) {
        Ok(json) => json,
        Err(_) => panic!(rt; "no JSON text"),
    }
}

// What a prototype and a call give; nothing of the contracts is needed here.
fn prototype(alloc: Global, json: &Json) -> Result<FilePrototype, MutationRefusal> {
    read_prototype(alloc, json)
}

fn code(alloc: Global, json: &Json) -> Result<Text, MutationRefusal> {
    read_call(alloc, json)
}

static ROWS: [(&str, MutationRefusal); 14] = [
    ("{}", MutationRefusal::Missing),
    (r#"{"proccode":1}"#, MutationRefusal::Missing),
    (r#"{"proccode":"p"}"#, MutationRefusal::Missing),
    (
        r#"{"proccode":"p","argumentids":"[]"}"#,
        MutationRefusal::Missing,
    ),
    // What is missing comes before a text that is none of its kind, and that before the lengths.
    (
        r#"{"proccode":"p","argumentids":"["}"#,
        MutationRefusal::Missing,
    ),
    (
        r#"{"proccode":"p","argumentids":"[","argumentnames":"[]"}"#,
        MutationRefusal::BadText,
    ),
    (
        r#"{"proccode":"p","argumentids":"[1]","argumentnames":"[]"}"#,
        MutationRefusal::BadText,
    ),
    (
        r#"{"proccode":"p","argumentids":"{}","argumentnames":"[]"}"#,
        MutationRefusal::BadText,
    ),
    (
        r#"{"proccode":"p","argumentids":"[\"a\"]","argumentnames":"[]","warp":"yes"}"#,
        MutationRefusal::BadText,
    ),
    (
        r#"{"proccode":"p","argumentids":"[]","argumentnames":"[]","warp":1}"#,
        MutationRefusal::BadText,
    ),
    (
        r#"{"proccode":"p","argumentids":"[]","argumentnames":"[]","argumentdefaults":"[null]"}"#,
        MutationRefusal::BadText,
    ),
    (
        r#"{"proccode":"p","argumentids":"[]","argumentnames":"[]","argumentdefaults":[]}"#,
        MutationRefusal::BadText,
    ),
    (
        r#"{"proccode":"p","argumentids":"[\"a\"]","argumentnames":"[]"}"#,
        MutationRefusal::LengthsDiffer,
    ),
    (
        r#"{"proccode":"p","argumentids":"[]","argumentnames":"[]","argumentdefaults":"[\"x\"]"}"#,
        MutationRefusal::LengthsDiffer,
    ),
];

#[test]
fn unfit_prototypes_are_refused(rt: HostRuntime) {
    for (text, want) in &ROWS {
        let refusal = prototype(rt.alloc(), &tree(&rt, text)).err();
        assert!(rt; refusal == Some(*want), "{text}");
    }
}

static FULL: &str =
    r#"{"proccode":"go %s %b","argumentids":"[\"i\", \"j\"]","argumentnames":"[\"n\",\"m\"]","argumentdefaults":"[\"\", false]","warp":"true"}"#;

#[test]
fn a_prototype_is_read(rt: HostRuntime) {
    let made = prototype(rt.alloc(), &tree(&rt, FULL)).ok();
    let made = made.expect(&rt, "a prototype");
    assert!(rt; made.code.as_str() == "go %s %b");
    assert!(rt; made.ids.len() == 2);
    assert!(rt; made.names.get(1).expect(&rt, "a name").as_str() == "m");
    assert!(rt; matches!(made.defaults.get(1), Some(FileValue::Truth(false))));
    assert!(rt; made.warp);
}

static SHORT: &str =
    r#"{"proccode":"p","argumentids":"[\"i\"]","argumentnames":"[\"n\"]","argumentdefaults":null,"warp":"null"}"#;

#[test]
fn absent_defaults_are_empty_texts(rt: HostRuntime) {
    let made = prototype(rt.alloc(), &tree(&rt, SHORT)).ok();
    let made = made.expect(&rt, "a prototype");
    assert!(rt; made.defaults.len() == 1);
    match made.defaults.get(0) {
        Some(FileValue::Text(text)) => assert!(rt; text.as_str() == ""),
        _ => panic!(rt; "no text"),
    }
    assert!(rt; !made.warp);
}

#[test]
fn a_call_has_a_code(rt: HostRuntime) {
    let told = code(rt.alloc(), &tree(&rt, r#"{"proccode":"go %s"}"#)).ok();
    assert!(rt; told.expect(&rt, "a code").as_str() == "go %s");
    let refusal = code(rt.alloc(), &tree(&rt, r#"{"proccode":null}"#)).err();
    assert!(rt; refusal == Some(MutationRefusal::Missing));
}
