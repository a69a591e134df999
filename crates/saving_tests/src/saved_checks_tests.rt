//! Runs of a stage and a cat that keep all rules, but for one.

use lists::ListOf;
use machine_spec::{BubbleTimer, Effects, InstanceId, Say, Serial, Status, Style};
use project_check::{Project, load};
use project_json::Text;
use saved_checks::broken_rule;
use saved_parts::{
    ToldBubble, ToldInstance, ToldKept, ToldLevel, ToldMade, ToldMouse, ToldNext, ToldQuestion,
    ToldRun, ToldThread, ToldValue,
};
use scratch_number::of_whole;
use std::process::Abort;

static PROJECT: &str = r#"{"targets":[
{"isStage":true,"name":"Stage","variables":{"v":["n",0]},"lists":{"k":["l",[]]},"costumes":[{"name":"b"}],"layerOrder":0,"blocks":{}},
{"isStage":false,"name":"Cat","costumes":[{"name":"c"}],"layerOrder":1,"blocks":{
"a0":{"opcode":"event_whenflagclicked","topLevel":true,"next":"a1"},
"a1":{"opcode":"looks_hide"},
"a2":{"opcode":"event_whengreaterthan","topLevel":true,"fields":{"WHENGREATERTHANMENU":["TIMER"]},"inputs":{"VALUE":[1,[4,"10"]]}}}}],
"monitors":[{"id":"v","opcode":"data_variable","params":{"VARIABLE":"n"},"spriteName":null,"visible":true}]}"#;

fn project(rt: &(impl Abort + AllocGlobal)) -> Project {
    assert!(rt; PROJECT.len() < 4_000_000_000);
    match load(rt.alloc(), PROJECT.as_bytes()) {
        Ok(project) => project,
        Err(_) => panic!(rt; "refused"),
    }
}

fn text(rt: &(impl Abort + AllocGlobal), word: &str) -> Text {
    Text::from_str(rt.alloc(), word).expect(rt, "memory")
}

// An instance of a target that stands as the stage does.
fn instance(rt: &(impl Abort + AllocGlobal), number: u64, of: u64) -> ToldInstance {
    let bubble = ToldBubble {
        kind: Say::Say,
        text: text(rt, "hi"),
        usage: 3,
    };
    ToldInstance {
        number,
        of,
        x: of_whole(0),
        y: of_whole(0),
        direction: of_whole(90),
        size: of_whole(100),
        visible: true,
        costume: 0,
        style: Style::AllAround,
        effects: Effects::none(),
        bubble,
        edges: ListOf::new(rt.alloc()),
        values: ListOf::new(rt.alloc()),
        lists: ListOf::new(rt.alloc()),
    }
}

// The stage, with its variable and its list.
fn stage(rt: &(impl Abort + AllocGlobal)) -> ToldInstance {
    let mut stage = instance(rt, 0, 0);
    let value = ToldValue::Number(of_whole(0));
    stage.values.push(value).expect(rt, "memory");
    let list = ListOf::new(rt.alloc());
    stage.lists.push(list).expect(rt, "memory");
    stage
}

fn cat(rt: &(impl Abort + AllocGlobal)) -> ToldInstance {
    let mut cat = instance(rt, 1, 1);
    cat.edges.push((2, true)).expect(rt, "memory");
    cat
}

fn thread(rt: &(impl Abort + AllocGlobal), serial: u64, block: u64) -> ToldThread {
    let mut levels = ListOf::new(rt.alloc());
    let level = ToldLevel {
        block: Some(block),
        kept: ToldKept::Nothing,
    };
    levels.push(level).expect(rt, "memory");
    ToldThread {
        serial,
        of: 1,
        hat: 0,
        status: Status::Running,
        levels,
    }
}

// A run of nobody, with one monitor.
fn empty_run(rt: &(impl Abort + AllocGlobal)) -> ToldRun {
    let mut monitors = ListOf::new(rt.alloc());
    monitors.push(true).expect(rt, "memory");
    ToldRun {
        answer: text(rt, "yes"),
        clock: 500,
        drawn: 2,
        frame: 1,
        seed: 1,
        timer: 500,
        instances: ListOf::new(rt.alloc()),
        keys: ListOf::new(rt.alloc()),
        made: ListOf::new(rt.alloc()),
        monitors,
        mouse: ToldMouse {
            x: -240,
            y: 180,
            down: false,
        },
        next: ToldNext {
            thread: 8,
            instance: 2,
            usage: 4,
        },
        project: text(rt, "0"),
        questions: ListOf::new(rt.alloc()),
        threads: ListOf::new(rt.alloc()),
        timers: ListOf::new(rt.alloc()),
        turbo: false,
    }
}

fn add_key(rt: &(impl Abort + AllocGlobal), run: &mut ToldRun, name: &str) {
    run.keys.push(text(rt, name)).expect(rt, "memory");
}

fn add_instance(rt: &(impl Abort + AllocGlobal), run: &mut ToldRun, number: u64) {
    let clone = instance(rt, number, 1);
    run.instances.push(clone).expect(rt, "memory");
}

fn add_thread(rt: &(impl Abort + AllocGlobal), run: &mut ToldRun, serial: u64, block: u64) {
    let thread = thread(rt, serial, block);
    run.threads.push(thread).expect(rt, "memory");
}

// A run that keeps all rules.
fn good_run(rt: &(impl Abort + AllocGlobal)) -> ToldRun {
    let mut run = empty_run(rt);
    run.instances.push(stage(rt)).expect(rt, "memory");
    run.instances.push(cat(rt)).expect(rt, "memory");
    add_key(rt, &mut run, "left arrow");
    add_key(rt, &mut run, "A");
    add_thread(rt, &mut run, 7, 1);
    run
}

// This member is told of the run, or "none".
fn is_told(rt: &(impl Abort + AllocGlobal), run: &ToldRun, want: &str) {
    let project = project(rt);
    let member = broken_rule(rt.alloc(), &project, run).expect(rt, "memory");
    assert!(rt; member.unwrap_or("none") == want, "{want}");
    drop(project);
}

#[test]
fn a_run_that_keeps_all_rules_is_told_as_such(rt: HostRuntime) {
    is_told(&rt, &good_run(&rt), "none");
}

#[test]
fn tells_devices_and_counters(rt: HostRuntime) {
    let mut run = good_run(&rt);
    run.mouse.x = 241;
    is_told(&rt, &run, "mouse");
    run.timer = 501;
    is_told(&rt, &run, "timer");
    run.clock = 9_000_000_000_001;
    is_told(&rt, &run, "clock");
    drop(run);
}

// Names, held beside the left arrow and A, and what is told.
static KEYS: [(&str, &str); 5] = [
    ("left arrow", "keys"),
    ("b", "keys"),
    ("  ", "keys"),
    ("", "keys"),
    ("é", "none"),
];

#[test]
fn tells_keys(rt: HostRuntime) {
    for (name, want) in &KEYS {
        let mut run = good_run(&rt);
        add_key(&rt, &mut run, name);
        is_told(&rt, &run, want);
        drop(run);
    }
}

#[test]
fn tells_monitors_and_numbers(rt: HostRuntime) {
    let mut run = good_run(&rt);
    run.monitors.push(true).expect(&rt, "memory");
    is_told(&rt, &run, "monitors");
    let made = ToldMade {
        is_list: true,
        target: 1,
        index: 0,
        visible: true,
    };
    run.made.push(made).expect(&rt, "memory");
    is_told(&rt, &run, "made");
    run.next.instance = 1;
    is_told(&rt, &run, "next");
    run.drawn = 4_611_686_018_427_387_904;
    is_told(&rt, &run, "drawn");
    drop(run);
}

#[test]
fn tells_instances(rt: HostRuntime) {
    let mut run = good_run(&rt);
    run.next.instance = 4;
    add_instance(&rt, &mut run, 2);
    add_instance(&rt, &mut run, 3);
    is_told(&rt, &run, "none");
    add_instance(&rt, &mut run, 3);
    is_told(&rt, &run, "instances");
    drop(run);
}

#[test]
fn the_stage_and_each_number_stand_once(rt: HostRuntime) {
    is_told(&rt, &empty_run(&rt), "instances");
    let mut run = good_run(&rt);
    add_instance(&rt, &mut run, 1);
    is_told(&rt, &run, "instances");
    drop(run);
}

// Adds a bubble timer of Cat, with the usage 3.
fn add_timer(rt: &impl Abort, run: &mut ToldRun) {
    let timer = BubbleTimer {
        due: of_whole(2),
        of: InstanceId(1),
        thread: Serial(7),
        usage: 3,
    };
    run.timers.push(timer).expect(rt, "memory");
}

#[test]
fn tells_questions_and_timers(rt: HostRuntime) {
    let mut run = good_run(&rt);
    add_timer(&rt, &mut run);
    is_told(&rt, &run, "none");
    add_timer(&rt, &mut run);
    is_told(&rt, &run, "timers");
    let question = ToldQuestion {
        of: 9,
        thread: 7,
        text: text(&rt, "who?"),
        bubble: false,
    };
    run.questions.push(question).expect(&rt, "memory");
    is_told(&rt, &run, "questions");
    drop(run);
}

#[test]
fn tells_threads(rt: HostRuntime) {
    let mut run = good_run(&rt);
    add_thread(&rt, &mut run, 6, 2);
    is_told(&rt, &run, "none");
    add_thread(&rt, &mut run, 5, 3);
    is_told(&rt, &run, "threads");
    drop(run);
}

#[test]
fn a_number_of_a_thread_stands_once(rt: HostRuntime) {
    let mut run = good_run(&rt);
    add_thread(&rt, &mut run, 7, 1);
    is_told(&rt, &run, "threads");
    drop(run);
}
