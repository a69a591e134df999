//! How costumes, sizes, directions and styles of a file are kept.

use super::records;
use scratch_number::{Num, NumText, write_text};
use std::alloc::{AllocError, Global};
use target_records::{Style, TargetRecord};

// Members of a target with three costumes, and its costume, size, direction, place, style and whether it is shown: as the
// stage, and as a sprite.
static ROWS: [(&str, &str, &str); 24] = [
    ("", "0 100 90 0 0 all true", "0 100 90 0 0 all true"),
    (
        r#","currentCostume":2"#,
        "2 100 90 0 0 all true",
        "2 100 90 0 0 all true",
    ),
    (
        r#","currentCostume":3"#,
        "0 100 90 0 0 all true",
        "0 100 90 0 0 all true",
    ),
    (
        r#","currentCostume":-1"#,
        "2 100 90 0 0 all true",
        "2 100 90 0 0 all true",
    ),
    // Rounded first, then wrapped.
    (
        r#","currentCostume":1.5"#,
        "2 100 90 0 0 all true",
        "2 100 90 0 0 all true",
    ),
    (
        r#","currentCostume":2.5"#,
        "0 100 90 0 0 all true",
        "0 100 90 0 0 all true",
    ),
    (
        r#","currentCostume":0.49"#,
        "0 100 90 0 0 all true",
        "0 100 90 0 0 all true",
    ),
    (
        r#","currentCostume":-0.51"#,
        "2 100 90 0 0 all true",
        "2 100 90 0 0 all true",
    ),
    (
        r#","currentCostume":1e400"#,
        "0 100 90 0 0 all true",
        "0 100 90 0 0 all true",
    ),
    (
        r#","size":20000"#,
        "0 100 90 0 0 all true",
        "0 10000 90 0 0 all true",
    ),
    (
        r#","size":-5"#,
        "0 100 90 0 0 all true",
        "0 0 90 0 0 all true",
    ),
    (
        r#","size":1e400"#,
        "0 100 90 0 0 all true",
        "0 10000 90 0 0 all true",
    ),
    (
        r#","size":50.25"#,
        "0 100 90 0 0 all true",
        "0 50.25 90 0 0 all true",
    ),
    (
        r#","direction":270"#,
        "0 100 90 0 0 all true",
        "0 100 -90 0 0 all true",
    ),
    (
        r#","direction":180"#,
        "0 100 90 0 0 all true",
        "0 100 180 0 0 all true",
    ),
    (
        r#","direction":-180"#,
        "0 100 90 0 0 all true",
        "0 100 180 0 0 all true",
    ),
    (
        r#","direction":-179"#,
        "0 100 90 0 0 all true",
        "0 100 -179 0 0 all true",
    ),
    (
        r#","direction":181"#,
        "0 100 90 0 0 all true",
        "0 100 -179 0 0 all true",
    ),
    (
        r#","direction":1e400"#,
        "0 100 90 0 0 all true",
        "0 100 90 0 0 all true",
    ),
    (
        r#","x":1e400,"y":-1e400"#,
        "0 100 90 0 0 all true",
        "0 100 90 Infinity -Infinity all true",
    ),
    (
        r#","x":-1.50,"y":2"#,
        "0 100 90 0 0 all true",
        "0 100 90 -1.5 2 all true",
    ),
    (
        r#","visible":false"#,
        "0 100 90 0 0 all true",
        "0 100 90 0 0 all false",
    ),
    (
        r#","rotationStyle":"left-right""#,
        "0 100 90 0 0 left-right true",
        "0 100 90 0 0 left-right true",
    ),
    (
        r#","rotationStyle":"don't rotate""#,
        "0 100 90 0 0 none true",
        "0 100 90 0 0 none true",
    ),
];

fn push_num(text: &mut String, number: Num) -> Result<(), AllocError> {
    let mut digits = NumText::new();
    write_text(number, &mut digits);
    text.push_str(digits.as_str())?;
    text.push_str(" ")
}

fn style_name(style: Style) -> &'static str {
    match style {
        Style::AllAround => "all",
        Style::LeftRight => "left-right",
        Style::DontRotate => "none",
    }
}

fn summary(alloc: Global, target: &TargetRecord) -> Result<String, AllocError> {
    let costume = target.costume;
    let mut text = format!(in alloc; "{costume} ")?;
    push_num(&mut text, target.size)?;
    push_num(&mut text, target.direction)?;
    push_num(&mut text, target.x)?;
    push_num(&mut text, target.y)?;
    text.push_str(style_name(target.style))?;
    let visible = target.visible;
    write!(&mut text, " {visible}")?;
    Ok(text)
}

fn document(alloc: Global, members: &str) -> Result<String, AllocError> {
    let mut text = String::new(alloc);
    text.push_str(
        r#"{"targets":[{"isStage":true,"name":"S","costumes":[{"name":"a"},{"name":"b"},{"name":"c"}]"#,
    )?;
    text.push_str(members)?;
    text.push_str(
        r#"},{"isStage":false,"name":"C","costumes":[{"name":"a"},{"name":"b"},{"name":"c"}]"#,
    )?;
    text.push_str(members)?;
    text.push_str("}]}")?;
    Ok(text)
}

#[test]
fn a_look_is_kept_in_its_range(rt: HostRuntime) {
    for (members, stage, sprite) in &ROWS {
        let text = document(rt.alloc(), members).expect(&rt, "memory");
        let records = records(&rt, text.as_str());
        let targets = records.all_targets();
        let first = targets.get(0).expect(&rt, "no stage");
        let second = targets.get(1).expect(&rt, "no sprite");
        assert_eq!(rt;
            summary(rt.alloc(), first).expect(&rt, "memory").as_str(),
            *stage,
            "{members}"
        );
        assert_eq!(rt;
            summary(rt.alloc(), second).expect(&rt, "memory").as_str(),
            *sprite,
            "{members}"
        );
        drop(records);
    }
}
