//! Texts at the limit of 1,048,576 bytes, and past it.

use super::{fault, table};
use project_json::Text;
use std::alloc::{AllocError, Global};
use std::process::Abort;

// As many letters, times a power of two.
fn letters(alloc: Global, count: usize, doublings: u32) -> Result<String, AllocError> {
    let mut text = String::new(alloc);
    for _ in 0..count {
        text.push_str("x")?;
    }
    for _ in 0..doublings {
        let copy = text.clone()?;
        text.push_str(copy.as_str())?;
    }
    Ok(text)
}

// Blocks whose long text, of more bytes than 1,048,576 by so many, stands between the two parts.
fn with_text(alloc: Global, before: &str, more: usize, behind: &str) -> Result<Text, AllocError> {
    let long = letters(alloc, 1, 20)?;
    let rest = letters(alloc, more, 0)?;
    let mut text = String::from_str(alloc, before)?;
    text.push_str(long.as_str())?;
    text.push_str(rest.as_str())?;
    text.push_str(behind)?;
    Ok(Text::from_string(text))
}

// The text before, the text behind, and the path that is told of a long one between them.
static ROWS: [(&str, &str, &str); 5] = [
    (
        r#"{"b":{"opcode":"looks_say","inputs":{"MESSAGE":[1,[10,""#,
        r#""]]}}}"#,
        "long targets/0/blocks/b/inputs/MESSAGE/1/1",
    ),
    (
        r#"{"b":{"opcode":"q","fields":{"F":[""#,
        r#"",null]}}}"#,
        "long targets/0/blocks/b/fields/F/0",
    ),
    (r#"{"b":[12,""#, r#"","v"]}"#, "long targets/0/blocks/b/1"),
    (
        r#"{"p":{"opcode":"procedures_prototype","mutation":{"proccode":"p","argumentids":"[\"i\"]","argumentnames":"[\"n\"]","argumentdefaults":"[\""#,
        r#"\"]"}}}"#,
        "long targets/0/blocks/p/mutation/argumentdefaults",
    ),
    // A shape that does not fit is told before a text that is too long.
    (
        r#"{"b":{"opcode":"q","fields":{"F":[""#,
        r#"",null]}},"c":{}}"#,
        "targets/0/blocks/c/opcode",
    ),
];

fn is_told(rt: &impl Abort, alloc: Global, row: &(&str, &str, &str)) {
    let (before, behind, path) = row;
    let text = with_text(alloc, before, 1, behind).expect(rt, "memory");
    let told = fault(rt, alloc, text.as_str());
    assert!(rt; told.as_str() == *path, "{path}");
}

#[test]
fn a_text_past_the_limit_is_told_by_its_path(rt: HostRuntime) {
    for row in &ROWS {
        is_told(&rt, rt.alloc(), row);
    }
}

#[test]
fn a_text_at_the_limit_is_read(rt: HostRuntime) {
    for (before, behind, _) in &ROWS[..4] {
        let text = with_text(rt.alloc(), before, 0, behind).expect(&rt, "memory");
        let table = table(&rt, rt.alloc(), text.as_str());
        assert_eq!(rt; table.len(), 1);
        drop(table);
    }
}
