//! Worked rows: the blocks of targets as their files have them, and what they are told.

use block_checks::test_blocks;
use block_table::{BlockTable, build};
use project_json::{Text, members_of, read};
use project_spec::Refusal;
use std::alloc::{AllocError, Global};
use std::process::Abort;

// The table of a target's blocks.
fn table(rt: &impl Abort, alloc: Global, text: &str) -> BlockTable {
    let json = read(alloc, text.as_bytes()).expect(rt, "JSON");
    let members = members_of(&json).expect(rt, "an object");
    assert!(rt; members.len() < 1_000);
    let path = Text::from_str(alloc, "targets/0/blocks").expect(rt, "memory");
    build(alloc, &json, &path).expect(rt, "blocks")
}

// The kind of a refusal, with its target, its block and its text.
fn told(refusal: &Refusal) -> Option<(&'static str, u32, u32, &str)> {
    match refusal {
        Refusal::Mutation(at, _) => Some(("mutation", at.target, at.block, "")),
        Refusal::Dangling { at, to } => Some(("dangling", at.target, at.block, to.as_str())),
        Refusal::Cyclic { at } => Some(("cyclic", at.target, at.block, "")),
        Refusal::Opcode { at, name } => Some(("opcode", at.target, at.block, name.as_str())),
        Refusal::MissingInput { at, input } => {
            Some(("missing", at.target, at.block, input.as_str()))
        }
        Refusal::Field { at, field } => Some(("field", at.target, at.block, field.as_str())),
        Refusal::TooDeep { at } => Some(("deep", at.target, at.block, "")),
        _ => None,
    }
}

// Whether the blocks of a target, beside another target without blocks, are told this; `None` where they pass.
fn is_told(
    rt: &impl Abort,
    alloc: Global,
    text: &str,
    expected: Option<(&'static str, u32, u32, &str)>,
) -> bool {
    let tables = [table(rt, alloc, "{}"), table(rt, alloc, text)];
    match test_blocks(alloc, &tables) {
        Ok(_) => expected.is_none(),
        Err(refusal) => expected.is_some() && told(&refusal) == expected,
    }
}

static LOOSE: &str =
    r#"{"a": {"opcode": "control_if", "inputs": {"CONDITION": [2, "b"]}}, "b": {"opcode": "sensing_touchingobject"}}"#;

static HAT: &str = r#""hat": {"opcode": "event_whenflagclicked", "next": "a", "topLevel": true}"#;

// What stands below a hat, whose next is the block `a`, and what it is told in target 1.
static ROWS: [(&str, &str, u32, &str); 9] = [
    (
        r#""a": {"opcode": "motion_setx", "next": "a", "inputs": {"X": [1, [4, "1"]]}}"#,
        "cyclic",
        1,
        "",
    ),
    (
        r#""a": {"opcode": "motion_setx", "next": "z", "inputs": {"X": [1, [4, "1"]]}}"#,
        "dangling",
        1,
        "z",
    ),
    (
        r#""a": {"opcode": "control_if", "inputs": {"CONDITION": [2, "b"]}}, "b": {"opcode": "sensing_touchingobject"}"#,
        "opcode",
        2,
        "sensing_touchingobject",
    ),
    (
        r#""a": {"opcode": "control_repeat"}"#,
        "missing",
        1,
        "TIMES",
    ),
    (
        r#""a": {"opcode": "motion_setx", "inputs": {"X": [2, "b"]}}, "b": {"opcode": "operator_mathop", "inputs": {"NUM": [1, [4, "1"]]}, "fields": {"OPERATOR": ["LN", null]}}"#,
        "field",
        2,
        "OPERATOR",
    ),
    (
        r#""a": {"opcode": "procedures_prototype", "mutation": {"argumentids": "[]", "argumentnames": "[]"}}"#,
        "mutation",
        1,
        "",
    ),
    // a link that names no block, in a loose block, before a block that does not fit its place
    (
        r#""a": {"opcode": "control_if", "inputs": {"CONDITION": [2, "b"]}}, "b": {"opcode": "sensing_touchingobject"}, "c": {"opcode": "motion_setx", "next": "z"}"#,
        "dangling",
        3,
        "z",
    ),
    // a head that a link reaches
    (
        r#""a": {"opcode": "control_start_as_clone", "topLevel": true}"#,
        "opcode",
        1,
        "control_start_as_clone",
    ),
    // two loose blocks that name each other
    (
        r#""a": {"opcode": "looks_show"}, "b": {"opcode": "x", "next": "c"}, "c": {"opcode": "y", "next": "b"}"#,
        "cyclic",
        2,
        "",
    ),
];

#[test]
fn the_first_refusal_is_told(rt: HostRuntime) {
    let alloc = rt.alloc();
    assert!(rt; is_told(&rt, alloc, LOOSE, None));
    for (below, kind, block, text) in ROWS {
        let blocks = format!(in alloc; "{{{HAT}, {below}}}").expect(&rt, "memory");
        let expected = Some((kind, 1, block, text));
        assert!(rt; is_told(&rt, alloc, blocks.as_str(), expected), "{below}");
    }
}

// A hat, a command that takes the first of so many reporters, and in each of these all but the last take the next in
// these inputs.
fn nested(
    alloc: Global,
    reporters: u32,
    opcode: &str,
    inputs: &[&str],
    last: &str,
) -> Result<String, AllocError> {
    let mut text = format!(in alloc;
        r#"{{{HAT}, "a": {{"opcode": "looks_say", "inputs": {{"MESSAGE": [3, "r0"]}}}}"#
    )?;
    for place in 0..reporters {
        let next = place + 1;
        let mut taken = String::new(alloc);
        for input in inputs {
            let comma = if taken.is_empty() { "" } else { ", " };
            if next < reporters {
                write!(taken, r#"{comma}"{input}": [3, "r{next}"]"#)?;
            } else {
                write!(taken, r#"{comma}"{input}": {last}"#)?;
            }
        }
        write!(
            text,
            r#", "r{place}": {{"opcode": "{opcode}", "inputs": {{{taken}}}}}"#
        )?;
    }
    text.push_str("}")?;
    Ok(text)
}

#[test]
fn reporters_nest_at_most_256_deep(rt: HostRuntime) {
    let alloc = rt.alloc();
    let sum = nested(
        alloc,
        200,
        "operator_add",
        &["NUM1", "NUM2"],
        r#"[1, [4, "1"]]"#,
    );
    let sum = sum.expect(&rt, "memory");
    assert!(rt; is_told(&rt, alloc, sum.as_str(), None));
    let deep = nested(alloc, 256, "operator_not", &["OPERAND"], "[1, null]").expect(&rt, "memory");
    assert!(rt; is_told(&rt, alloc, deep.as_str(), None));
    let deep = nested(alloc, 257, "operator_not", &["OPERAND"], "[1, null]").expect(&rt, "memory");
    assert!(rt; is_told(&rt, alloc, deep.as_str(), Some(("deep", 1, 1, ""))));
}

#[test]
fn ranks_and_checked_blocks_are_kept(rt: HostRuntime) {
    let alloc = rt.alloc();
    let blocks = format!(in alloc;
        r#"{{{HAT}, "a": {{"opcode": "looks_show"}}, "b": {{"opcode": "looks_hide", "next": "a"}}}}"#
    );
    let tables = [table(&rt, alloc, blocks.expect(&rt, "memory").as_str())];
    let kept = test_blocks(alloc, &tables).expect(&rt, "well linked");
    let links = kept.first().expect(&rt, "one target");
    assert_eq!(rt; links.checked(), [true, true, false].as_slice());
    assert!(rt; links.is_checked(1) && !links.is_checked(2));
}
