//! Blocks that have not their shape, each with the path that is told.

use super::fault;
use std::alloc::Global;
use std::process::Abort;

static ROWS: [(&str, &str); 47] = [
    (r#"null"#, "targets/0/blocks/a/b"),
    (r#""x""#, "targets/0/blocks/a/b"),
    (r#"[]"#, "targets/0/blocks/a/b/0"),
    (r#"[12]"#, "targets/0/blocks/a/b/1"),
    (r#"[12,"n"]"#, "targets/0/blocks/a/b/2"),
    (r#"[12,"n",null]"#, "targets/0/blocks/a/b/2"),
    (r#"[11,"n","v"]"#, "targets/0/blocks/a/b/0"),
    (r#"["12","n","v"]"#, "targets/0/blocks/a/b/0"),
    (r#"[13,1,"k"]"#, "targets/0/blocks/a/b/1"),
    (r#"{}"#, "targets/0/blocks/a/b/opcode"),
    (r#"{"opcode":1}"#, "targets/0/blocks/a/b/opcode"),
    (
        r#"{"opcode":"q","inputs":0}"#,
        "targets/0/blocks/a/b/inputs",
    ),
    (
        r#"{"opcode":"q","inputs":null}"#,
        "targets/0/blocks/a/b/inputs",
    ),
    (
        r#"{"opcode":"q","fields":[null]}"#,
        "targets/0/blocks/a/b/fields",
    ),
    (
        r#"{"opcode":"q","fields":null}"#,
        "targets/0/blocks/a/b/fields",
    ),
    (
        r#"{"opcode":"q","shadow":0}"#,
        "targets/0/blocks/a/b/shadow",
    ),
    (
        r#"{"opcode":"q","shadow":null}"#,
        "targets/0/blocks/a/b/shadow",
    ),
    (
        r#"{"opcode":"q","topLevel":{}}"#,
        "targets/0/blocks/a/b/topLevel",
    ),
    (
        r#"{"opcode":"q","topLevel":null}"#,
        "targets/0/blocks/a/b/topLevel",
    ),
    (
        r#"{"opcode":"q","mutation":true}"#,
        "targets/0/blocks/a/b/mutation",
    ),
    (
        r#"{"opcode":"q","inputs":{"A":[1,[10,"x"]],"B c":5}}"#,
        "targets/0/blocks/a/b/inputs/B c",
    ),
    (
        r#"{"opcode":"q","inputs":{"A":[1,[10,"x"]],"B c":[]}}"#,
        "targets/0/blocks/a/b/inputs/B c",
    ),
    (
        r#"{"opcode":"q","inputs":{"A":[1,[10,"x"]],"B c":[1]}}"#,
        "targets/0/blocks/a/b/inputs/B c",
    ),
    (
        r#"{"opcode":"q","inputs":{"A":[1,[10,"x"]],"B c":[4,null]}}"#,
        "targets/0/blocks/a/b/inputs/B c/0",
    ),
    (
        r#"{"opcode":"q","inputs":{"A":[1,[10,"x"]],"B c":[1,5]}}"#,
        "targets/0/blocks/a/b/inputs/B c/1",
    ),
    (
        r#"{"opcode":"q","inputs":{"A":[1,[10,"x"]],"B c":[1,[4]]}}"#,
        "targets/0/blocks/a/b/inputs/B c/1/1",
    ),
    (
        r#"{"opcode":"q","inputs":{"A":[1,[10,"x"]],"B c":[1,[3,"x"]]}}"#,
        "targets/0/blocks/a/b/inputs/B c/1/0",
    ),
    (
        r#"{"opcode":"q","inputs":{"A":[1,[10,"x"]],"B c":[1,[10,[]]]}}"#,
        "targets/0/blocks/a/b/inputs/B c/1/1",
    ),
    (
        r#"{"opcode":"q","inputs":{"A":[1,[10,"x"]],"B c":[1,[11,1]]}}"#,
        "targets/0/blocks/a/b/inputs/B c/1/1",
    ),
    (
        r#"{"opcode":"q","inputs":{"A":[1,[10,"x"]],"B c":[1,[12,"n"]]}}"#,
        "targets/0/blocks/a/b/inputs/B c/1/2",
    ),
    (
        r#"{"opcode":"q","inputs":{"A":[1,[10,"x"]],"B c":[1,[12,1,"v"]]}}"#,
        "targets/0/blocks/a/b/inputs/B c/1/1",
    ),
    (
        r#"{"opcode":"q","inputs":{"A":[1,[10,"x"]],"B c":[1,[13,"n",null]]}}"#,
        "targets/0/blocks/a/b/inputs/B c/1/2",
    ),
    (
        r#"{"opcode":"q","inputs":{"A":[1,[10,"x"]],"B c":[null,null]}}"#,
        "targets/0/blocks/a/b/inputs/B c/0",
    ),
    (
        r#"{"opcode":"q","inputs":{"A":[1,[10,"x"]],"B c":[2,{}]}}"#,
        "targets/0/blocks/a/b/inputs/B c/1",
    ),
    (
        r#"{"opcode":"q","inputs":{"A":[1,[10,"x"]],"B c":[1,[14,"x","y"]]}}"#,
        "targets/0/blocks/a/b/inputs/B c/1/0",
    ),
    (
        r#"{"opcode":"q","inputs":{"A":[1,[10,"x"]],"B c":null}}"#,
        "targets/0/blocks/a/b/inputs/B c",
    ),
    (
        r#"{"opcode":"q","fields":{"A":["x"],"F":5}}"#,
        "targets/0/blocks/a/b/fields/F",
    ),
    (
        r#"{"opcode":"q","fields":{"A":["x"],"F":[]}}"#,
        "targets/0/blocks/a/b/fields/F",
    ),
    (
        r#"{"opcode":"q","fields":{"A":["x"],"F":[[]]}}"#,
        "targets/0/blocks/a/b/fields/F/0",
    ),
    (
        r#"{"opcode":"q","fields":{"A":["x"],"F":[{}]}}"#,
        "targets/0/blocks/a/b/fields/F/0",
    ),
    (
        r#"{"opcode":"q","fields":{"A":["x"],"F":["x",5]}}"#,
        "targets/0/blocks/a/b/fields/F/1",
    ),
    (
        r#"{"opcode":"q","fields":{"A":["x"],"F":null}}"#,
        "targets/0/blocks/a/b/fields/F",
    ),
    (
        r#"{"opcode":"q","mutation":1,"topLevel":1}"#,
        "targets/0/blocks/a/b/topLevel",
    ),
    (
        r#"{"opcode":"q","fields":1,"inputs":1}"#,
        "targets/0/blocks/a/b/inputs",
    ),
    (
        r#"{"opcode":"q","fields":1,"mutation":1}"#,
        "targets/0/blocks/a/b/fields",
    ),
    (
        r#"{"opcode":"q","topLevel":1,"fields":1}"#,
        "targets/0/blocks/a/b/fields",
    ),
    (
        r#"{"opcode":"q","fields":1,"next":1}"#,
        "targets/0/blocks/a/b/next",
    ),
];

// A block stands behind another, under an id with a step in it.
fn is_told(rt: &impl Abort, alloc: Global, block: &str, path: &str) {
    let text = format!(in alloc; r#"{{"z":{{"opcode":"q"}},"a/b":{block}}}"#).expect(rt, "memory");
    let told = fault(rt, alloc, text.as_str());
    assert!(rt; told.as_str() == path, "{block}");
}

#[test]
fn the_first_shape_that_does_not_fit_is_told(rt: HostRuntime) {
    for (block, path) in &ROWS {
        is_told(&rt, rt.alloc(), block, path);
    }
}

#[test]
fn what_is_no_object_is_told_by_the_path_of_all(rt: HostRuntime) {
    let told = fault(&rt, rt.alloc(), "[]");
    assert_eq!(rt; told.as_str(), "targets/0/blocks");
}
