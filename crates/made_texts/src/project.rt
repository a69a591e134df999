//! The text of the made project.

ghost use Rattle.std.specs.Prelude.{◌≡◌, ◌++◌, ◌∷◌, map, OnOk, IfOk};
ghost use Rattle.std.specs.List.{range_with_len};
ghost use Rattle.made_texts.specs.MadeProject.{listed, stage, copy, made_end, made_project};

use crate::pieces::push_all;
use itoa::Buffer;
use std::alloc::{AllocError, Global};

// Appends the stage.
fn push_stage(out: &mut Vec<u8>) -> Result<(), AllocError>
    ensures { OnOk result (out.new.items ≡ out.old.items ++ stage) }
{
    push_all(
        out,
        &[
            r#"{"isStage":true,"name":"Stage","variables":{"v":["n",0]},"lists":{"k":["l",[]]},"broadcasts":{},"blocks":{"#,
            r#""a1":{"opcode":"event_whenflagclicked","next":"a2","inputs":{},"fields":{},"shadow":false,"topLevel":true},"#,
            r#""a2":{"opcode":"event_broadcast","next":null,"inputs":{"BROADCAST_INPUT":[1,[11,"a","m"]]},"fields":{},"shadow":false,"topLevel":false}"#,
            r#"},"comments":{},"currentCostume":0,"costumes":[{"name":"b1","dataFormat":"svg","assetId":"0","md5ext":"0.svg","rotationCenterX":240,"rotationCenterY":180}],"#,
            r#""sounds":[{"name":"pop","assetId":"1","dataFormat":"wav","md5ext":"1.wav"}],"volume":100,"layerOrder":0,"tempo":60}"#,
        ],
    )
}

// Appends the copy of this number.
fn push_copy(out: &mut Vec<u8>, number: u32) -> Result<(), AllocError>
    ensures { OnOk result (out.new.items ≡ out.old.items ++ copy number) }
{
    let mut buffer = Buffer::new();
    let number = buffer.format(number);
    push_all(
        out,
        &[
            r#"{"isStage":false,"name":"s"#,
            number,
            r#"","variables":{},"lists":{},"broadcasts":{},"blocks":{"#,
            r#""a1":{"opcode":"event_whenflagclicked","next":"a2","inputs":{},"fields":{},"shadow":false,"topLevel":true},"#,
            r#""a2":{"opcode":"control_repeat","next":null,"inputs":{"TIMES":[1,[6,"10"]],"SUBSTACK":[2,"a3"]},"fields":{},"shadow":false,"topLevel":false},"#,
            r#""a3":{"opcode":"data_changevariableby","next":null,"inputs":{"VALUE":[1,[4,""#,
            number,
            r#""]]},"fields":{"VARIABLE":["n","v"]},"shadow":false,"topLevel":false},"#,
            r#""a4":{"opcode":"event_whenbroadcastreceived","next":"a5","inputs":{},"fields":{"BROADCAST_OPTION":["a","m"]},"shadow":false,"topLevel":true},"#,
            r#""a5":{"opcode":"data_changevariableby","next":null,"inputs":{"VALUE":[1,[4,"1"]]},"fields":{"VARIABLE":["n","v"]},"shadow":false,"topLevel":false}"#,
            r#"},"comments":{},"currentCostume":0,"costumes":[{"name":"c1","dataFormat":"svg","assetId":"2","md5ext":"2.svg"}],"sounds":[],"volume":100,"layerOrder":"#,
            number,
            r#","visible":false,"x":0,"y":0,"size":100,"direction":90,"draggable":false,"rotationStyle":"all around"}"#,
        ],
    )
}

// Appends the stage and the copies, with a comma between each two.
fn push_targets(out: &mut Vec<u8>, copies: u32) -> Result<(), AllocError>
    ensures { OnOk result (out.new.items ≡ out.old.items ++ listed (stage ∷ map copy (range_with_len 1 copies))) }
{
    push_stage(out)?;
    for earlier in 0..copies {
        out.push(b',')?;
        push_copy(out, earlier + 1)?;
    }
    Ok(())
}

// Appends what stands behind the targets.
fn push_end(out: &mut Vec<u8>) -> Result<(), AllocError>
    ensures { OnOk result (out.new.items ≡ out.old.items ++ made_end) }
{
    push_all(
        out,
        &[
            r#"],"monitors":[{"id":"v","mode":"default","opcode":"data_variable","params":{"VARIABLE":"n"},"spriteName":null,"value":0,"visible":true}],"#,
            r#""extensions":[],"meta":{"semver":"3.0.0"}}"#,
        ],
    )
}

/// The made project with so many copies of its sprite. The only error is want of memory.
pub fn project_text(alloc: Global, copies: u32) -> Result<Vec<u8>, AllocError>
    ensures { IfOk result (λ bytes. bytes.items ≡ made_project copies) }
{
    let mut out = Vec::from_slice(alloc, br#"{"targets":["#)?;
    push_targets(&mut out, copies)?;
    push_end(&mut out)?;
    Ok(out)
}
