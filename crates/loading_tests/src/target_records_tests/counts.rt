//! How many targets, monitors and items there may be, and how long texts.

use super::refused;
use std::alloc::{AllocError, Global};

// A text, a piece that is repeated so many times, the rest, and what is told.
static ROWS: [(&str, &str, u32, &str, &str); 13] = [
    (
        r#"{"targets":[{"isStage":true,"name":"S","costumes":[{"name":"b"}]}"#,
        r#",{"isStage":false,"name":"C","costumes":[{"name":"c"}]}"#,
        999,
        "]}",
        "",
    ),
    (
        r#"{"targets":[{"isStage":true,"name":"S","costumes":[{"name":"b"}]}"#,
        r#",{"isStage":false,"name":"C","costumes":[{"name":"c"}]}"#,
        1000,
        "]}",
        "many targets",
    ),
    (
        r#"{"targets":[{"isStage":true,"name":"S","costumes":[{"name":"b"}]}],"monitors":[{"id":"","opcode":""}"#,
        r#",{"id":"","opcode":""}"#,
        9_999,
        "]}",
        "",
    ),
    (
        r#"{"targets":[{"isStage":true,"name":"S","costumes":[{"name":"b"}]}],"monitors":[{"id":"","opcode":""}"#,
        r#",{"id":"","opcode":""}"#,
        10_000,
        "]}",
        "many monitors",
    ),
    (
        r#"{"targets":[{"isStage":true,"name":"S","costumes":[{"name":"b"}],"lists":{"k":["l",[0"#,
        ",0",
        199_999,
        "]]}}]}",
        "",
    ),
    (
        r#"{"targets":[{"isStage":true,"name":"S","costumes":[{"name":"b"}],"lists":{"k":["l",[0"#,
        ",0",
        200_000,
        "]]}}]}",
        "many targets/0/lists/k/1",
    ),
    (
        r#"{"targets":[{"isStage":true,"name":"S","costumes":[{"name":"b"}],"variables":{"q":["n",""#,
        "aaaaaaaa",
        131_072,
        r#""]}}]}"#,
        "",
    ),
    (
        r#"{"targets":[{"isStage":true,"name":"S","costumes":[{"name":"b"}],"variables":{"q":["n","a"#,
        "aaaaaaaa",
        131_072,
        r#""]}}]}"#,
        "many targets/0/variables/q/1",
    ),
    (
        r#"{"targets":[{"isStage":true,"name":"S","costumes":[{"name":"b"}],"lists":{"k":["l",[0,"a"#,
        "aaaaaaaa",
        131_072,
        r#""]]}}]}"#,
        "many targets/0/lists/k/1/1",
    ),
    (
        r#"{"targets":[{"isStage":true,"name":"S","costumes":[{"name":"b"},{"name":"a"#,
        "aaaaaaaa",
        131_072,
        r#""}]}]}"#,
        "many targets/0/costumes/1/name",
    ),
    // Names of variables and of targets may be of any length, and so may what the monitors say.
    (
        r#"{"targets":[{"isStage":true,"name":"S","costumes":[{"name":"b"}],"variables":{"q":["a"#,
        "aaaaaaaa",
        131_072,
        r#"",0]}}]}"#,
        "",
    ),
    (
        r#"{"targets":[{"isStage":true,"name":"a"#,
        "aaaaaaaa",
        131_072,
        r#"","costumes":[{"name":"b"}]}]}"#,
        "",
    ),
    // The number of stages comes before lengths.
    (
        r#"{"targets":[{"isStage":false,"name":"S","costumes":[{"name":"a"#,
        "aaaaaaaa",
        131_072,
        r#""}]}]}"#,
        "stages 0",
    ),
];

fn repeated(
    alloc: Global,
    before: &str,
    piece: &str,
    count: u32,
    after: &str,
) -> Result<String, AllocError> {
    let mut text = String::new(alloc);
    text.push_str(before)?;
    for _ in 0..count {
        text.push_str(piece)?;
    }
    text.push_str(after)?;
    Ok(text)
}

#[test]
fn what_is_too_many_is_told(rt: HostRuntime) {
    for (before, piece, count, after, want) in &ROWS {
        let text = repeated(rt.alloc(), before, piece, *count, after).expect(&rt, "memory");
        let told = refused(&rt, text.as_str());
        assert_eq!(rt; told.as_str(), *want, "{before} {count}");
    }
}
