//! The shapes of documents, the order in which they are tested, and the number of stages.

use super::refused;
use std::alloc::{AllocError, Global};

static DOCUMENTS: [(&str, &str); 13] = [
    ("[]", "at "),
    ("null", "at "),
    ("5", "at "),
    (r#""x""#, "at "),
    ("{}", "at targets"),
    (r#"{"targets":{}}"#, "at targets"),
    (r#"{"targets":[5]}"#, "at targets/0"),
    (r#"{"targets":[{}]}"#, "at targets/0/isStage"),
    (
        r#"{"targets":[{"isStage":true,"costumes":[{"name":"b"}]}]}"#,
        "at targets/0/name",
    ),
    (
        r#"{"targets":[{"isStage":true,"name":"S"}]}"#,
        "at targets/0/costumes",
    ),
    (r#"{"targets":[]}"#, "stages 0"),
    (r#"{"targets":null}"#, "at targets"),
    (r#"{"targets":[],"monitors":[]}"#, "stages 0"),
];

#[test]
fn a_document_has_its_shape(rt: HostRuntime) {
    for (text, want) in &DOCUMENTS {
        let told = refused(&rt, text);
        assert_eq!(rt; told.as_str(), *want, "{text}");
    }
}

// Members beside those of the stage, of the sprite and of the document, and what is told; a member that is repeated has
// its later value.
static MEMBERS: [(&str, &str, &str, &str); 56] = [
    ("", "", "", ""),
    (r#","size":0"#, r#","visible":true"#, "", ""),
    ("", r#","rotationStyle":"x""#, "", ""),
    // Null is as absent, where there is a default.
    (
        r#","variables":null,"lists":null,"currentCostume":null,"layerOrder":null,"volume":null,"visible":null"#,
        r#","x":null,"y":null,"size":null,"direction":null,"rotationStyle":null"#,
        r#","monitors":null"#,
        "",
    ),
    (r#","isStage":null"#, "", "", "at targets/0/isStage"),
    ("", r#","isStage":"x""#, "", "at targets/1/isStage"),
    (r#","name":null"#, "", "", "at targets/0/name"),
    ("", r#","name":{}"#, "", "at targets/1/name"),
    ("", r#","costumes":null"#, "", "at targets/1/costumes"),
    ("", r#","costumes":{}"#, "", "at targets/1/costumes"),
    ("", r#","costumes":[]"#, "", "at targets/1/costumes"),
    (
        r#","costumes":[{"name":1}]"#,
        "",
        "",
        "at targets/0/costumes/0/name",
    ),
    (
        r#","costumes":[{"name":"a"},{"name":null}]"#,
        "",
        "",
        "at targets/0/costumes/1/name",
    ),
    (
        r#","costumes":[{"name":"a"},5]"#,
        "",
        "",
        "at targets/0/costumes/1",
    ),
    // Items of a list of objects are tested one by one, each together with its members.
    (
        r#","costumes":[{"name":5},5]"#,
        "",
        "",
        "at targets/0/costumes/0/name",
    ),
    ("", r#","variables":[1]"#, "", "at targets/1/variables"),
    (
        r#","variables":{"v":["n",0],"w":5}"#,
        "",
        "",
        "at targets/0/variables/w",
    ),
    (
        r#","variables":{"v":["n",0],"w":[]}"#,
        "",
        "",
        "at targets/0/variables/w/0",
    ),
    (
        r#","variables":{"v":["n",0],"w":["n"]}"#,
        "",
        "",
        "at targets/0/variables/w/1",
    ),
    (
        r#","variables":{"v":["n",0],"w":["n",[]]}"#,
        "",
        "",
        "at targets/0/variables/w/1",
    ),
    (
        r#","variables":{"w/x":[5,0]}"#,
        "",
        "",
        "at targets/0/variables/w/x/0",
    ),
    (
        r#","variables":{"v":["n",null],"w":["n",true],"x":["n",1.5],"y":["n","t"]}"#,
        "",
        "",
        "",
    ),
    ("", r#","lists":"x""#, "", "at targets/1/lists"),
    (
        r#","lists":{"k":["l",[1,"x"]],"m":[]}"#,
        "",
        "",
        "at targets/0/lists/m/0",
    ),
    (
        r#","lists":{"k":["l",[1,"x"]],"m":["l"]}"#,
        "",
        "",
        "at targets/0/lists/m/1",
    ),
    (
        r#","lists":{"m":["l",5]}"#,
        "",
        "",
        "at targets/0/lists/m/1",
    ),
    (
        r#","lists":{"m":["l",[0,{}]]}"#,
        "",
        "",
        "at targets/0/lists/m/1/1",
    ),
    (
        "",
        r#","currentCostume":[]"#,
        "",
        "at targets/1/currentCostume",
    ),
    ("", r#","layerOrder":"x""#, "", "at targets/1/layerOrder"),
    ("", r#","volume":true"#, "", "at targets/1/volume"),
    (r#","visible":1"#, "", "", "at targets/0/visible"),
    (r#","x":[1]"#, "", "", "at targets/0/x"),
    ("", r#","y":[]"#, "", "at targets/1/y"),
    ("", r#","size":"1""#, "", "at targets/1/size"),
    (r#","direction":{"a":1}"#, "", "", "at targets/0/direction"),
    (
        r#","rotationStyle":5"#,
        "",
        "",
        "at targets/0/rotationStyle",
    ),
    ("", "", r#","monitors":{}"#, "at monitors"),
    ("", "", r#","monitors":[5]"#, "at monitors/0"),
    ("", "", r#","monitors":[{}]"#, "at monitors/0/id"),
    (
        "",
        "",
        r#","monitors":[{"id":"v","opcode":"x"},{"id":"v"}]"#,
        "at monitors/1/opcode",
    ),
    (
        "",
        "",
        r#","monitors":[{"id":"v","opcode":"x"},{"id":"v","opcode":null}]"#,
        "at monitors/1/opcode",
    ),
    (
        "",
        "",
        r#","monitors":[{"id":"v","opcode":"x"},{"id":"v","opcode":"x","visible":null,"params":null}]"#,
        "",
    ),
    (
        "",
        "",
        r#","monitors":[{"id":"v","opcode":"x","spriteName":5}]"#,
        "at monitors/0/spriteName",
    ),
    (
        "",
        "",
        r#","monitors":[{"id":"v","opcode":"x","visible":0}]"#,
        "at monitors/0/visible",
    ),
    (
        "",
        "",
        r#","monitors":[{"id":"v","opcode":"x","params":[]}]"#,
        "at monitors/0/params",
    ),
    // The members of a target in their order, the targets before the monitors, all shapes before the number of stages.
    (
        r#","x":0,"name":5,"isStage":5"#,
        "",
        "",
        "at targets/0/isStage",
    ),
    (
        r#","rotationStyle":5,"direction":"""#,
        "",
        "",
        "at targets/0/direction",
    ),
    (
        r#","visible":5,"volume":"""#,
        r#","name":5"#,
        "",
        "at targets/0/volume",
    ),
    (
        r#","lists":5,"variables":5"#,
        "",
        "",
        "at targets/0/variables",
    ),
    (
        "",
        r#","rotationStyle":5"#,
        r#","monitors":5"#,
        "at targets/1/rotationStyle",
    ),
    ("", r#","isStage":true"#, r#","monitors":5"#, "at monitors"),
    (r#","isStage":false"#, "", "", "stages 0"),
    ("", r#","isStage":true"#, "", "stages 2"),
    (r#","isStage":false"#, r#","isStage":true"#, "", ""),
    ("", "", r#","meta":5,"extensions":7"#, ""),
    (r#","sounds":5,"broadcasts":5,"blocks":5"#, "", "", ""),
];

fn document(alloc: Global, stage: &str, sprite: &str, members: &str) -> Result<String, AllocError> {
    let mut text = String::new(alloc);
    text.push_str(r#"{"targets":[{"isStage":true,"name":"S","costumes":[{"name":"b"}]"#)?;
    text.push_str(stage)?;
    text.push_str(r#"},{"isStage":false,"name":"C","costumes":[{"name":"c"}]"#)?;
    text.push_str(sprite)?;
    text.push_str("}]")?;
    text.push_str(members)?;
    text.push_str("}")?;
    Ok(text)
}

#[test]
fn each_member_has_its_shape(rt: HostRuntime) {
    for (stage, sprite, members, want) in &MEMBERS {
        let text = document(rt.alloc(), stage, sprite, members).expect(&rt, "memory");
        let told = refused(&rt, text.as_str());
        assert_eq!(rt; told.as_str(), *want, "{stage} {sprite} {members}");
    }
}
