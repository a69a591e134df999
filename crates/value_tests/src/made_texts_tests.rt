//! The made project and the made script, against texts that are written out here once more.

use made_texts::{project_text, script_text};
use std::alloc::AllocError;
use std::test::Fail;

// The project of one copy, cut where its members begin and end.
static ONE_COPY: [&str; 19] = [
    r#"{"targets":["#,
    r#"{"isStage":true,"name":"Stage","variables":{"v":["n",0]},"lists":{"k":["l",[]]},"broadcasts":{},"#,
    r#""blocks":{"a1":{"opcode":"event_whenflagclicked","next":"a2","inputs":{},"fields":{},"shadow":false,"topLevel":true}"#,
    r#","a2":{"opcode":"event_broadcast","next":null,"inputs":{"BROADCAST_INPUT":[1,[11,"a","m"]]},"#,
    r#""fields":{},"shadow":false,"topLevel":false}},"comments":{},"currentCostume":0,"#,
    r#""costumes":[{"name":"b1","dataFormat":"svg","assetId":"0","md5ext":"0.svg","rotationCenterX":240,"rotationCenterY":180}],"#,
    r#""sounds":[{"name":"pop","assetId":"1","dataFormat":"wav","md5ext":"1.wav"}],"volume":100,"layerOrder":0,"tempo":60}"#,
    r#",{"isStage":false,"name":"s1","variables":{},"lists":{},"broadcasts":{},"#,
    r#""blocks":{"a1":{"opcode":"event_whenflagclicked","next":"a2","inputs":{},"fields":{},"shadow":false,"topLevel":true}"#,
    r#","a2":{"opcode":"control_repeat","next":null,"inputs":{"TIMES":[1,[6,"10"]],"SUBSTACK":[2,"a3"]},"#,
    r#""fields":{},"shadow":false,"topLevel":false}"#,
    r#","a3":{"opcode":"data_changevariableby","next":null,"inputs":{"VALUE":[1,[4,"1"]]},"fields":{"VARIABLE":["n","v"]},"shadow":false,"topLevel":false}"#,
    r#","a4":{"opcode":"event_whenbroadcastreceived","next":"a5","inputs":{},"fields":{"BROADCAST_OPTION":["a","m"]},"shadow":false,"topLevel":true}"#,
    r#","a5":{"opcode":"data_changevariableby","next":null,"inputs":{"VALUE":[1,[4,"1"]]},"fields":{"VARIABLE":["n","v"]},"shadow":false,"topLevel":false}"#,
    r#"},"comments":{},"currentCostume":0,"costumes":[{"name":"c1","dataFormat":"svg","assetId":"2","md5ext":"2.svg"}],"sounds":[],"volume":100,"#,
    r#""layerOrder":1,"visible":false,"x":0,"y":0,"size":100,"direction":90,"draggable":false,"rotationStyle":"all around"}"#,
    r#"],"monitors":[{"id":"v","mode":"default","opcode":"data_variable","params":{"VARIABLE":"n"},"#,
    r#""spriteName":null,"value":0,"visible":true}],"extensions":[],"#,
    r#""meta":{"semver":"3.0.0"}}"#,
];

fn joined(rt: &impl AllocGlobal, pieces: &[&str]) -> Result<Vec<u8>, AllocError> {
    let mut text = Vec::new(rt.alloc());
    for piece in pieces {
        text.extend_from_slice(piece.as_bytes())?;
    }
    Ok(text)
}

#[test]
fn the_project_of_one_copy_is_as_it_is_written_out(rt: HostRuntime) -> Result<(), Fail> {
    let text = project_text(rt.alloc(), 1)?;
    let wanted = joined(&rt, &ONE_COPY)?;
    assert!(rt; text.as_slice() == wanted.as_slice());
    Ok(())
}

#[test]
fn the_project_is_as_long_as_its_copies(rt: HostRuntime) -> Result<(), Fail> {
    let rows = [
        (0, 810),
        (1, 1827),
        (2, 2844),
        (9, 9963),
        (10, 10983),
        (100, 102_786),
        (500, 511_986),
    ];
    for (copies, length) in rows {
        let text = project_text(rt.alloc(), copies)?;
        assert_eq!(rt; text.len(), length, "{copies} copies");
    }
    Ok(())
}

#[test]
fn the_frames_of_the_script_are_33_milliseconds_apart(rt: HostRuntime) -> Result<(), Fail> {
    let two = script_text(rt.alloc(), 2)?;
    assert!(rt; two.as_slice() == b"flag\nframe 0 11 0\nflag\nframe 33 11 0\n".as_slice());
    let most = script_text(rt.alloc(), 1000)?;
    assert!(rt; most.ends_with(b"flag\nframe 32967 11 0\n"));
    for (frames, length) in [(0, 0), (1, 18), (4, 75), (5, 95), (1000, 21_660)] {
        let text = script_text(rt.alloc(), frames)?;
        assert_eq!(rt; text.len(), length, "{frames} frames");
    }
    Ok(())
}
