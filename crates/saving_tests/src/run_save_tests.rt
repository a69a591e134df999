//! The saved run of docs/formats.md, in which Cat is half on its way, and the changes of docs/refusals.md to it.

ghost use Rattle.std.specs.Prelude.{◌≡◌};
ghost use Rattle.sequencer.specs.Runs.{IsRunOf};

use machine_spec::{Budget, InstanceId};
use project_check::Project;
use rand_pcg::Pcg32;
use run_save::{load, save};
use saved_spec::SaveRefusal;
use scratch_number::{Num, of_whole};
use sequencer::Run;
use std::alloc::{AllocError, Global};
use std::process::Abort;

// The base file with a script of Cat: when the green flag is clicked, glide 1 second to x 100, y 0.
static PROJECT: &str =
    r#"{"targets":[{"isStage":true,"name":"Stage","variables":{"v":["n",0]},"lists":{"k":["l",[]]},"broadcasts":{},"blocks":{},"comments":{},"currentCostume":0,"costumes":[{"name":"b1","dataFormat":"svg","assetId":"0","md5ext":"0.svg","rotationCenterX":240,"rotationCenterY":180}],"sounds":[{"name":"pop","assetId":"1","dataFormat":"wav","md5ext":"1.wav"}],"volume":100,"layerOrder":0,"tempo":60},{"isStage":false,"name":"Cat","variables":{},"lists":{},"broadcasts":{},"blocks":{"a1":{"opcode":"event_whenflagclicked","next":"a2","inputs":{},"fields":{},"shadow":false,"topLevel":true},"a2":{"opcode":"motion_glidesecstoxy","next":null,"inputs":{"SECS":[1,[4,"1"]],"X":[1,[4,"100"]],"Y":[1,[4,"0"]]},"fields":{},"shadow":false,"topLevel":false}},"comments":{},"currentCostume":0,"costumes":[{"name":"c1","dataFormat":"svg","assetId":"2","md5ext":"2.svg"}],"sounds":[],"volume":100,"layerOrder":1,"visible":true,"x":0,"y":0,"size":100,"direction":90,"draggable":false,"rotationStyle":"all around"}],"monitors":[{"id":"v","mode":"default","opcode":"data_variable","params":{"VARIABLE":"n"},"spriteName":null,"value":0,"visible":true}],"extensions":[],"meta":{"semver":"3.0.0"}}"#;

// The SHA-256 of the project.
static DIGEST: [u8; 32] = [
    0x8d, 0xb5, 0x23, 0xd0, 0x5a, 0xfc, 0x44, 0xdd, 0x66, 0x49, 0x14, 0x38, 0xf2, 0xa0, 0xeb, 0x81,
    0x0d, 0xa6, 0xac, 0xbf, 0x15, 0xe4, 0x30, 0x3f, 0xc7, 0xf5, 0x90, 0xcb, 0x1f, 0x55, 0x8d, 0xa1,
];

// The run after half of the glide, with the seed 1.
static SAVED: &str =
    r#"{"answer":"","clock":500,"drawn":0,"frame":2,"instances":[{"bubble":["say","",0],"costume":0,"direction":90000000,"edges":[],"effects":[0,0,0,0,0,0,0],"lists":[[]],"number":0,"of":0,"size":100000000,"style":0,"variables":[[0]],"visible":true,"x":0,"y":0},{"bubble":["say","",0],"costume":0,"direction":90000000,"edges":[],"effects":[0,0,0,0,0,0,0],"lists":[],"number":1,"of":1,"size":100000000,"style":0,"variables":[],"visible":true,"x":50000000,"y":0}],"keys":[],"made":[],"monitors":[true],"mouse":[0,0,false],"next":[2,2,1],"project":"8db523d05afc44dd66491438f2a0eb810da6acbf15e4303fc7f590cb1f558da1","questions":[],"seed":1,"threads":[{"hat":0,"levels":[[1,["glide",0,1000000,0,0,100000000,0]]],"number":1,"of":1,"status":"run"}],"timer":0,"timers":[],"turbo":false,"version":1}"#;

fn project(rt: &(impl Abort + AllocGlobal)) -> Project {
    match project_check::load(rt.alloc(), PROJECT.as_bytes()) {
        Ok(project) => project,
        Err(_) => panic!(rt; "refused"),
    }
}

// Parts of the run, what stands in the place of each, and the seed of the run that is loaded.
static LOADED: [(&str, &str, u64); 12] = [
    ("", "", 1),
    (r#""seed":1"#, r#""seed":7"#, 7),
    (r#""drawn":0,"#, r#""drawn":4611686018427387903,"#, 1),
    (r#""keys":[]"#, r#""keys":["space","A"]"#, 1),
    ("[0,0,false]", "[-240,180,true]", 1),
    (r#""made":[]"#, r#""made":[["list",0,0,true]]"#, 1),
    (r#""monitors":[true]"#, r#""monitors":[false]"#, 1),
    ("[[0]]", r#"["\"\n"]"#, 1),
    (r#""lists":[[]]"#, r#""lists":[["a",false,["nan"]]]"#, 1),
    (
        r#""levels":[[1,["glide",0,1000000,0,0,100000000,0]]]"#,
        r#""levels":[[1,null]]"#,
        1,
    ),
    (
        r#""levels":[[1,["glide",0,1000000,0,0,100000000,0]]]"#,
        r#""levels":[[null,null]]"#,
        1,
    ),
    (r#""turbo":false"#, r#""turbo":true"#, 1),
];

// The text of a run is loaded with this seed, and written as it was.
fn is_written_as_before(rt: &(impl Abort + AllocGlobal), project: &Project, text: &str, want: u64) {
    match load(rt.alloc(), project, &DIGEST, text.as_bytes()) {
        Ok((run, seed)) => {
            assert!(rt; seed == want);
            let again = save(rt.alloc(), project, &run, seed, &DIGEST).expect(rt, "memory");
            assert!(rt; again.as_slice() == text.as_bytes(), "{text}");
            drop(run);
        }
        Err(_) => panic!(rt; "{text} is refused"),
    }
}

#[test]
fn a_run_that_is_loaded_is_written_as_before(rt: HostRuntime) {
    let project = project(&rt);
    for (part, instead, want) in &LOADED {
        let text = SAVED.replace(rt.alloc(), *part, instead);
        is_written_as_before(&rt, &project, text.expect(&rt, "memory").as_str(), *want);
    }
    drop(project);
}

// How far Cat is after one more frame.
fn framed(rt: &impl Abort, run: &mut Run<Pcg32>, project: &Project, clock: u64) -> Num
    requires run { IsRunOf project.now run.old }
    ensures run { IsRunOf project.now run.new }
{
    assert!(rt; run.clock() <= clock);
    let budget = Budget {
        clock,
        passes: 30,
        warp: 1000,
    };
    match run.frame(project, &budget) {
        Ok(()) => {}
        Err(_) => panic!(rt; "stopped"),
    }
    match run.targets().get(InstanceId(1)) {
        Some(cat) => cat.x,
        None => panic!(rt; "no Cat"),
    }
}

#[test]
fn a_run_that_is_loaded_goes_on(rt: HostRuntime) {
    let project = project(&rt);
    match load(rt.alloc(), &project, &DIGEST, SAVED.as_bytes()) {
        Ok((mut run, _seed)) => {
            assert!(rt; run.clock() == 500);
            assert!(rt; !run.redraw());
            assert!(rt; framed(&rt, &mut run, &project, 750) == of_whole(75));
            assert!(rt; run.threads().len() == 1);
            assert!(rt; framed(&rt, &mut run, &project, 1000) == of_whole(100));
            assert!(rt; run.threads().len() == 0);
            assert!(rt; run.frame_number() == 4);
            drop(run);
        }
        Err(_) => panic!(rt; "refused"),
    }
    drop(project);
}

// A refusal and what it carries.
fn told(alloc: Global, refusal: &SaveRefusal) -> Result<String, AllocError> {
    match refusal {
        SaveRefusal::Json => String::from_str(alloc, "Json"),
        SaveRefusal::Version { n } => format!(in alloc; "Version {n}"),
        SaveRefusal::Shape { path } => format!(in alloc; "Shape {}", path.as_str()),
        SaveRefusal::OtherProject { kept, given } => {
            format!(in alloc; "OtherProject {} {}", kept.as_str(), given.as_str())
        }
        SaveRefusal::BadReference { path } => format!(in alloc; "BadReference {}", path.as_str()),
        SaveRefusal::BadThread { serial } => format!(in alloc; "BadThread {serial}"),
        SaveRefusal::Spelling { at } => format!(in alloc; "Spelling {at}"),
        SaveRefusal::NoMemory => String::from_str(alloc, "no memory"),
    }
}

// What is said of a text.
fn said(alloc: Global, project: &Project, text: &[u8]) -> Result<String, AllocError> {
    match load(alloc, project, &DIGEST, text) {
        Ok((run, seed)) => {
            drop(run);
            format!(in alloc; "loaded {seed}")
        }
        Err(refusal) => told(alloc, &refusal),
    }
}

// Parts of the run, what stands in the place of each, and the refusal.
static REFUSED: [(&str, &str, &str); 21] = [
    (r#""version":1}"#, r#""version":1"#, "Json"),
    (r#""version":1"#, r#""version":2"#, "Version 2"),
    (
        r#""turbo":false,"version":1"#,
        r#""version":9"#,
        "Version 9",
    ),
    (r#""turbo":false,"#, "", "Shape turbo"),
    (r#","version":1"#, "", "Shape version"),
    (r#""x":50000000"#, r#""x":"100""#, "Shape instances/1/x"),
    (r#""clock":500"#, r#""clock":500.0"#, "Shape clock"),
    (
        "8db5",
        "7db5",
        "OtherProject 7db523d05afc44dd66491438f2a0eb810da6acbf15e4303fc7f590cb1f558da1 8db523d05afc44dd66491438f2a0eb810da6acbf15e4303fc7f590cb1f558da1",
    ),
    (r#""keys":[]"#, r#""keys":["a"]"#, "BadReference keys"),
    (r#""timer":0"#, r#""timer":501"#, "BadReference timer"),
    (
        r#""frame":2"#,
        r#""frame":4611686018427387904"#,
        "BadReference frame",
    ),
    (
        r#"},{"bubble":["say","",0],"costume":0"#,
        r#"},{"bubble":["say","",0],"costume":1"#,
        "BadReference instances",
    ),
    (
        r#""of":1,"status""#,
        r#""of":7,"status""#,
        "BadReference threads",
    ),
    (
        r#"}],"timer":0"#,
        r#"},{"hat":0,"levels":[[1,null]],"number":1,"of":1,"status":"run"}],"timer":0"#,
        "BadReference threads",
    ),
    (
        r#"[[1,["glide",0,1000000,0,0,100000000,0]]]"#,
        "[]",
        "BadThread 1",
    ),
    (r#"[[1,["glide""#, r#"[[0,["glide""#, "BadThread 1"),
    (r#"["glide",0,1000000"#, r#"["glide",0,0"#, "BadThread 1"),
    (r#""run""#, r#""tick""#, "BadThread 1"),
    (r#""version":1}"#, r#""version":1} "#, "Spelling 783"),
    (r#"{"answer""#, r#"{ "answer""#, "Spelling 1"),
    (r#""answer""#, r#""\u0061nswer""#, "Spelling 2"),
];

fn is_said(rt: &(impl Abort + AllocGlobal), project: &Project, text: &str, want: &str) {
    let said = said(rt.alloc(), project, text.as_bytes()).expect(rt, "memory");
    assert!(rt; said.as_str() == want, "{want}");
}

#[test]
fn changes_of_the_run_are_refused(rt: HostRuntime) {
    let project = project(&rt);
    for (part, instead, want) in &REFUSED {
        let text = SAVED.replace(rt.alloc(), *part, instead);
        is_said(&rt, &project, text.expect(&rt, "memory").as_str(), want);
    }
    drop(project);
}

// So many opening and closing brackets.
fn brackets(alloc: Global, count: usize) -> Result<String, AllocError> {
    let mut text = String::new(alloc);
    for _ in 0..count {
        text.push('[')?;
    }
    for _ in 0..count {
        text.push(']')?;
    }
    Ok(text)
}

#[test]
fn brackets_nest_at_most_127_deep(rt: HostRuntime) {
    let project = project(&rt);
    let deep = brackets(rt.alloc(), 127).expect(&rt, "memory");
    is_said(&rt, &project, deep.as_str(), "Shape ");
    let deeper = brackets(rt.alloc(), 128).expect(&rt, "memory");
    is_said(&rt, &project, deeper.as_str(), "Json");
    drop(project);
}
