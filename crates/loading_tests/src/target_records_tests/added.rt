//! The records of a small project, and what is added to them.

use super::records;
use project_json::{Text, member, text_of};
use scratch_values::VarName;
use std::alloc::{AllocError, Global};
use std::process::Abort;
use target_records::{Records, TargetId};

static PROJECT: &str =
    r#"{"targets":[{"isStage":false,"name":"C","costumes":[{"name":"c"}],"variables":{"v":["n",1.50],"w":["m",null]}},{"isStage":true,"name":"S","costumes":[{"name":"b"}],"lists":{"k":["l",["x",true]]}}],"monitors":[{"id":"v","opcode":"data_variable","spriteName":"C","visible":true,"params":{"VARIABLE":"n"}},{"id":"k","opcode":"data_listcontents"}]}"#;

fn name(alloc: Global, text: &str) -> Result<VarName, AllocError> {
    let name = Text::from_str(alloc, text)?;
    Ok(VarName { name, id: None })
}

// Adds a variable and a list of the name to a target, where there is room.
fn add(rt: &impl Abort, records: &mut Records, target: TargetId, name: &VarName) -> (u32, u32) {
    assert!(rt; target.0 < records.targets());
    assert!(rt; records.target(target).variables.len() < 10);
    assert!(rt; records.target(target).lists.len() < 10);
    let list = records.add_list(target, name).expect(rt, "memory");
    let variable = records.add_variable(target, name).expect(rt, "memory");
    (variable, list)
}

#[test]
fn records_are_those_of_the_file_and_what_was_added(rt: HostRuntime) {
    let mut records = records(&rt, PROJECT);
    assert_eq!(rt; records.targets(), 2);
    assert_eq!(rt; records.stage(), TargetId(1));
    let n = name(rt.alloc(), "new").expect(&rt, "memory");
    assert!(rt; add(&rt, &mut records, TargetId(0), &n) == (2, 0));
    assert!(rt; add(&rt, &mut records, TargetId(1), &n) == (0, 1));
    assert!(rt; add(&rt, &mut records, TargetId(1), &n) == (1, 2));
    let sprite = records.all_targets().get(0).expect(&rt, "sprite");
    assert_eq!(rt; sprite.name.as_str(), "C");
    let added = sprite.variables.get(2).expect(&rt, "variable");
    assert_eq!(rt; added.name.name.as_str(), "new");
    assert!(rt; added.name.id.is_none());
    drop(records);
}

#[test]
fn monitors_are_those_of_the_file(rt: HostRuntime) {
    let records = records(&rt, PROJECT);
    let monitors = records.monitors();
    assert_eq!(rt; monitors.len(), 2);
    let first = monitors.get(0).expect(&rt, "first");
    assert_eq!(rt; first.id.as_str(), "v");
    assert_eq!(rt; first.opcode.as_str(), "data_variable");
    assert!(rt; first.visible);
    let sprite = first.sprite.as_ref().expect(&rt, "sprite");
    assert_eq!(rt; sprite.as_str(), "C");
    let shown = member(&first.params, "VARIABLE").expect(&rt, "params");
    assert_eq!(rt; text_of(shown).expect(&rt, "text").as_str(), "n");
    let second = monitors.get(1).expect(&rt, "second");
    assert!(rt; second.sprite.is_none());
    assert!(rt; !second.visible);
    assert!(rt; member(&second.params, "VARIABLE").is_none());
    drop(records);
}
