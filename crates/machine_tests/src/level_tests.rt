//! How many levels are open while a run goes on: what ends gives its levels back.

ghost use Rattle.std.specs.Prelude.{◌≡◌, false};
ghost use Rattle.sequencer.specs.Frames.{is_frame};
ghost use Rattle.sequencer.specs.Runs.{IsRunOf};

use machine_spec::{Budget, Key, Line};
use project_check::{Project, load};
use scratch_values::BoundText;
use script_words::{Rng, pcg};
use sequencer::Run;
use std::process::Abort;

// Clones that run for ever, ten of which the green flag makes; the space key deletes each.
static CLONES: &str =
    r#"{"targets":[{"isStage":true,"name":"Stage","costumes":[{"name":"b"}],"blocks":{}},
{"isStage":false,"name":"Cat","visible":false,"layerOrder":1,"costumes":[{"name":"c"}],"blocks":{
"h":{"opcode":"control_start_as_clone","topLevel":true,"next":"f"},
"f":{"opcode":"control_forever"},
"g":{"opcode":"event_whenflagclicked","topLevel":true,"next":"r"},
"r":{"opcode":"control_repeat","inputs":{"TIMES":[1,[6,"10"]],"SUBSTACK":[2,"c"]}},
"c":{"opcode":"control_create_clone_of","inputs":{"CLONE_OPTION":[1,"m"]}},
"m":{"opcode":"control_create_clone_of_menu","shadow":true,"fields":{"CLONE_OPTION":["_myself_",null]}},
"k":{"opcode":"event_whenkeypressed","topLevel":true,"fields":{"KEY_OPTION":["space",null]},"next":"d"},
"d":{"opcode":"control_delete_this_clone"}}}]}"#;

// A script that sends the message which starts it again: each time the running thread is detached.
static AGAIN: &str =
    r#"{"targets":[{"isStage":true,"name":"Stage","lists":{"l":["l",[]]},"broadcasts":{"a":"a"},"costumes":[{"name":"b"}],"blocks":{}},
{"isStage":false,"name":"Cat","visible":false,"layerOrder":1,"costumes":[{"name":"c"}],"blocks":{
"h":{"opcode":"event_whenbroadcastreceived","topLevel":true,"fields":{"BROADCAST_OPTION":["a","a"]},"next":"b"},
"b":{"opcode":"event_broadcast","inputs":{"BROADCAST_INPUT":[1,[11,"a","a"]]},"next":"d"},
"d":{"opcode":"data_addtolist","inputs":{"ITEM":[1,[10,"x"]]},"fields":{"LIST":["l","l"]}},
"g":{"opcode":"event_whenflagclicked","topLevel":true,"next":"s"},
"s":{"opcode":"event_broadcast","inputs":{"BROADCAST_INPUT":[1,[11,"a","a"]]}}}}]}"#;

// Two loops under the green flag; the space key stops the other scripts of the sprite, and then waits for ever.
static OTHERS: &str =
    r#"{"targets":[{"isStage":true,"name":"Stage","costumes":[{"name":"b"}],"blocks":{}},
{"isStage":false,"name":"Cat","visible":false,"layerOrder":1,"costumes":[{"name":"c"}],"blocks":{
"g":{"opcode":"event_whenflagclicked","topLevel":true,"next":"f"},
"f":{"opcode":"control_forever","inputs":{"SUBSTACK":[2,"e"]}},
"e":{"opcode":"control_forever"},
"h":{"opcode":"event_whenflagclicked","topLevel":true,"next":"i"},
"i":{"opcode":"control_forever"},
"k":{"opcode":"event_whenkeypressed","topLevel":true,"fields":{"KEY_OPTION":["space",null]},"next":"s"},
"s":{"opcode":"control_stop","mutation":{"hasnext":"true"},"fields":{"STOP_OPTION":["other scripts in sprite",null]},"next":"w"},
"w":{"opcode":"control_forever"}}}]}"#;

fn loaded(rt: &(impl Abort + AllocGlobal), text: &str) -> Project {
    assert!(rt; text.len() < 1 << 20);
    load(rt.alloc(), text.as_bytes()).expect(rt, "a project")
}

fn apply<R: Rng + Drop>(rt: &impl Abort, run: &mut Run<R>, project: &Project, line: &Line)
    requires run { IsRunOf project.now run.old }
    requires line { is_frame line.now ≡ false }
    ensures run { IsRunOf project.now run.new }
{
    match run.apply_line(project, line) {
        Ok(()) => {}
        Err(_) => panic!(rt; "stopped"),
    }
}

// How many levels are open after one more frame.
fn framed<R: Rng + Drop>(rt: &impl Abort, run: &mut Run<R>, project: &Project, passes: u32) -> u32
    requires run { IsRunOf project.now run.old }
    ensures run { IsRunOf project.now run.new }
{
    let budget = Budget {
        clock: run.clock(),
        passes,
        warp: 1000,
    };
    match run.frame(project, &budget) {
        Ok(()) => run.threads().levels(),
        Err(_) => panic!(rt; "stopped"),
    }
}

#[test]
fn each_clone_has_a_level_until_it_is_deleted_or_stopped(rt: HostRuntime) {
    let project = loaded(&rt, CLONES);
    let mut run = Run::open(rt.alloc(), &project, pcg(1, 0)).expect(&rt, "memory");
    apply(&rt, &mut run, &project, &Line::Flag);
    assert_eq!(rt; framed(&rt, &mut run, &project, 30), 10);
    apply(&rt, &mut run, &project, &Line::Stop);
    assert_eq!(rt; run.threads().levels(), 0);
    apply(&rt, &mut run, &project, &Line::Flag);
    assert_eq!(rt; framed(&rt, &mut run, &project, 30), 10);
    apply(&rt, &mut run, &project, &Line::KeyDown(Key::Space));
    assert_eq!(rt; framed(&rt, &mut run, &project, 30), 0);
    assert_eq!(rt; run.threads().len(), 0);
    drop(run);
    drop(project);
}

#[test]
fn a_detached_thread_leaves_no_level(rt: HostRuntime) {
    let project = loaded(&rt, AGAIN);
    let mut run = Run::open(rt.alloc(), &project, pcg(1, 0)).expect(&rt, "memory");
    apply(&rt, &mut run, &project, &Line::Flag);
    assert_eq!(rt; framed(&rt, &mut run, &project, 30), 1);
    assert_eq!(rt; framed(&rt, &mut run, &project, 30), 1);
    drop(run);
    drop(project);
}

#[test]
fn what_stops_other_scripts_leaves_them_no_level(rt: HostRuntime) {
    let project = loaded(&rt, OTHERS);
    let mut run = Run::open(rt.alloc(), &project, pcg(1, 0)).expect(&rt, "memory");
    apply(&rt, &mut run, &project, &Line::Flag);
    assert_eq!(rt; framed(&rt, &mut run, &project, 3), 3);
    apply(&rt, &mut run, &project, &Line::KeyDown(Key::Space));
    assert_eq!(rt; framed(&rt, &mut run, &project, 3), 1);
    apply(&rt, &mut run, &project, &Line::Flag);
    // the flag stops all scripts first
    assert_eq!(rt; framed(&rt, &mut run, &project, 3), 3);
    drop(run);
    drop(project);
}
