//! A whole run, and the paths of runs that have another shape.

use json_shapes::Fault;
use machine_spec::{Count, Say, Status, Style};
use saved_parts::{ToldInstance, ToldKept, ToldLevel, ToldRun, ToldValue};
use saved_reading::read_run;
use serde_json::Value;
use std::alloc::Global;
use std::process::Abort;

static RUN: &str =
    r#"{"answer":"yes","clock":500,"drawn":3,"frame":2,"instances":[{"bubble":["think","hm",4],"costume":1,"direction":90000000,"edges":[[2,true],[5,false]],"effects":[0,1,2,3,4,5,"-inf"],"lists":[[],["a",false,[7]]],"number":8,"of":1,"size":100000000,"style":2,"variables":[[0],"b",true],"visible":true,"x":-50000000,"y":"nan"}],"keys":["Space","é"],"made":[["variable",1,2,true],["list",3,4,false]],"monitors":[true,false],"mouse":[-3,4,true],"next":[10,11,12],"project":"8db523d05afc44dd66491438f2a0eb810da6acbf15e4303fc7f590cb1f558da1","questions":[[8,9,"why?",true]],"seed":18446744073709551615,"threads":[{"hat":0,"levels":[[1,null],[2,["loop"]],[3,["repeat",-7]],[4,["repeat","inf"]],[5,["wait",6,1000000]],[6,["glide",1,2,3,4,5,6]],[7,["started",[8,9]]],[8,["asked"]],[9,["spoken"]],[null,["call",[["p",[1]],["q","r"]]]]],"number":9,"of":8,"status":"tick"}],"timer":5,"timers":[[2500000,8,9,4]],"turbo":false,"version":1}"#;

// What a text tells.
fn told(rt: &impl Abort, alloc: Global, text: &str) -> Result<ToldRun, Fault> {
    let value = Value::from_str(alloc, text).expect(rt, "a JSON text");
    read_run(alloc, &value)
}

fn has_numbers(rt: &impl Abort, run: &ToldRun) {
    assert!(rt; run.clock == 500);
    assert!(rt; run.drawn == 3);
    assert!(rt; run.frame == 2);
    assert!(rt; run.seed == 18446744073709551615);
    assert!(rt; run.timer == 5);
    assert!(rt; run.next.usage == 12);
    assert!(rt; !run.turbo);
}

fn has_devices(rt: &impl Abort, run: &ToldRun) {
    assert!(rt; run.answer.as_str() == "yes");
    assert!(rt; run.keys.get(1).is_some_and(|key| key.as_str() == "é"));
    assert!(rt; run.mouse.x == -3);
    assert!(rt; run.mouse.down);
    assert!(rt; run.project.as_str().len() == 64);
    let asked = run.questions.get(0).expect(rt, "a question");
    assert!(rt; asked.text.as_str() == "why?" && asked.bubble);
    let timer = run.timers.get(0).expect(rt, "a timer");
    assert!(rt; timer.of.0 == 8 && timer.usage == 4);
}

fn has_monitors(rt: &impl Abort, run: &ToldRun) {
    assert!(rt; run.monitors.as_slice() == [true, false].as_slice());
    let first = run.made.get(0).expect(rt, "a monitor");
    assert!(rt; !first.is_list && first.target == 1 && first.visible);
    let second = run.made.get(1).expect(rt, "a monitor");
    assert!(rt; second.is_list && second.index == 4 && !second.visible);
}

#[test]
fn a_run_is_told_part_by_part(rt: HostRuntime) {
    let run = told(&rt, rt.alloc(), RUN).expect(&rt, "a run");
    has_numbers(&rt, &run);
    has_devices(&rt, &run);
    has_monitors(&rt, &run);
}

fn is_the_instance(rt: &impl Abort, instance: &ToldInstance) {
    assert!(rt; matches!(instance.bubble.kind, Say::Think));
    assert!(rt; matches!(instance.style, Style::DontRotate));
    assert!(rt; instance.edges.as_slice() == [(2, true), (5, false)].as_slice());
    assert!(rt; instance.values.len() == 3);
    assert!(rt; matches!(instance.values.get(2), Some(ToldValue::Truth(true))));
    assert!(rt; instance.lists.get(1).is_some_and(|list| list.len() == 3));
    assert!(rt; instance.number == 8);
    assert!(rt; instance.of == 1);
}

#[test]
fn an_instance_is_told_part_by_part(rt: HostRuntime) {
    let run = told(&rt, rt.alloc(), RUN).expect(&rt, "a run");
    assert!(rt; run.instances.len() == 1);
    is_the_instance(&rt, run.instances.get(0).expect(&rt, "an instance"));
}

fn are_the_levels(rt: &impl Abort, levels: &[ToldLevel]) {
    assert!(rt; levels.len() == 10);
    assert!(rt; matches!(&levels[0].kept, ToldKept::Nothing));
    assert!(rt; matches!(&levels[2].kept, ToldKept::Repeat(Count::Whole(-7))));
    assert!(rt; matches!(&levels[3].kept, ToldKept::Repeat(Count::Infinite)));
    assert!(rt; matches!(&levels[7].kept, ToldKept::Asked));
    assert!(rt; levels[8].block == Some(9));
    assert!(rt; levels[9].block == None);
}

#[test]
fn a_thread_is_told_level_by_level(rt: HostRuntime) {
    let run = told(&rt, rt.alloc(), RUN).expect(&rt, "a run");
    let thread = run.threads.get(0).expect(&rt, "a thread");
    assert!(rt; matches!(thread.status, Status::YieldTick));
    assert!(rt; thread.serial == 9);
    are_the_levels(&rt, thread.levels.as_slice());
}

// A part of the run, what stands in its place, and the path that is told.
static ROWS: [(&str, &str, &str); 30] = [
    (r#""answer":"yes","#, "", "answer"),
    (r#""yes""#, "7", "answer"),
    (r#""clock":500"#, r#""clock":-5"#, "clock"),
    (r#""clock":500"#, r#""clock":5e2"#, "clock"),
    (r#""frame":2"#, r#""frame":"2""#, "frame"),
    ("18446744073709551615", "18446744073709551616", "seed"),
    (r#""instances":[{"#, r#""instances":[7,{"#, "instances/0"),
    (r#""think""#, r#""shout""#, "instances/0/bubble/0"),
    (r#""hm",4"#, r#""hm""#, "instances/0/bubble"),
    (
        r#""direction":90000000"#,
        r#""direction":9000000000000000001"#,
        "instances/0/direction",
    ),
    ("[5,false]", "[2,false]", "instances/0/edges"),
    (r#"5,"-inf"]"#, "5]", "instances/0/effects"),
    (r#"5,"-inf"]"#, r#"5,"minus"]"#, "instances/0/effects/6"),
    ("[7]", "[7,8]", "instances/0/lists/1/2"),
    (r#""style":2"#, r#""style":3"#, "instances/0/style"),
    (
        r#""variables":[[0]"#,
        r#""variables":[null"#,
        "instances/0/variables/0",
    ),
    (r#""é""#, "[]", "keys/1"),
    (r#"["list""#, r#"["lists""#, "made/1/0"),
    (r#""monitors":[true"#, r#""monitors":[0"#, "monitors/0"),
    ("[-3,4,true]", "[-3,9223372036854775808,true]", "mouse/1"),
    ("8db5", "8DB5", "project"),
    (r#""why?""#, "null", "questions/0/2"),
    (r#"[1,null]"#, r#"[1,[]]"#, "threads/0/levels/0/1"),
    (r#"["loop"]"#, r#"["loop",1]"#, "threads/0/levels/1/1"),
    (r#"["loop"]"#, r#"["loops"]"#, "threads/0/levels/1/1/0"),
    (r#"["loop"]"#, r#"[1]"#, "threads/0/levels/1/1/0"),
    (
        r#"["repeat",-7]"#,
        r#"["repeat",-9000000000001]"#,
        "threads/0/levels/2/1/1",
    ),
    (r#"["q","r"]"#, r#"["q"]"#, "threads/0/levels/9/1/1/1"),
    (r#""tick""#, r#""done""#, "threads/0/status"),
    (r#","version":1"#, "", "version"),
];

// This path is told of a text.
fn is_at(rt: &impl Abort, alloc: Global, text: &str, want: &str) {
    match told(rt, alloc, text) {
        Err(Fault::Shape { path }) => assert!(rt; path.as_str() == want, "{want}"),
        Err(Fault::NoMemory) => panic!(rt; "memory"),
        Ok(_) => panic!(rt; "{want} is read"),
    }
}

#[test]
fn the_first_part_of_another_shape_is_told(rt: HostRuntime) {
    for (part, instead, want) in &ROWS {
        let text = RUN.replace(rt.alloc(), *part, instead);
        is_at(&rt, rt.alloc(), text.expect(&rt, "memory").as_str(), want);
    }
}

#[test]
fn what_is_no_object_has_the_empty_path(rt: HostRuntime) {
    is_at(&rt, rt.alloc(), "[]", "");
}
