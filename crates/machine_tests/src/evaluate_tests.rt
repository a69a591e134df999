//! The inputs of a block of a small project: nested reporters, variables, lists, menus and random words.

use devices::Devices;
use evaluate::{View, inputs};
use machine_spec::{BlockId, InstanceId, TargetId};
use project_check::{Project, load};
use scratch_number::{Num, of_whole};
use scratch_values::{Args, to_number};
use script_words::{CounterKind, Stop, pcg};
use std::process::Abort;
use targets::Targets;
use variables::Variables;

// The stage has n, 5, and the list l of a and b. Its script sets n to what is plugged in.
static BEFORE: &str =
    r#"{"targets":[{"isStage":true,"name":"Stage","variables":{"v":["n",5]},"lists":{"k":["l",["a","b"]]},"costumes":[{"name":"b"}],"blocks":{"h":{"opcode":"event_whenflagclicked","next":"s","topLevel":true},"s":{"opcode":"data_setvariableto","inputs":{"VALUE":"#;

// The blocks that can be plugged in.
static BEHIND: &str =
    r#"},"fields":{"VARIABLE":["n","v"]}},"product":{"opcode":"operator_multiply","inputs":{"NUM1":[3,"sum",[4,""]],"NUM2":[1,[4,"3"]]}},"sum":{"opcode":"operator_add","inputs":{"NUM1":[3,[12,"n","v"],[4,""]],"NUM2":[3,"length",[4,""]]}},"length":{"opcode":"data_lengthoflist","fields":{"LIST":["l","k"]}},"both":{"opcode":"operator_and","inputs":{"OPERAND1":[2,"less"],"OPERAND2":[2,"more"]}},"less":{"opcode":"operator_lt","inputs":{"OPERAND1":[1,[10,"2"]],"OPERAND2":[1,[10,"1"]]}},"more":{"opcode":"operator_gt","inputs":{"OPERAND1":[3,"third",[10,""]],"OPERAND2":[1,[10,"0"]]}},"either":{"opcode":"operator_or","inputs":{"OPERAND1":[2,"yes"],"OPERAND2":[2,"most"]}},"yes":{"opcode":"operator_not","inputs":{}},"most":{"opcode":"operator_gt","inputs":{"OPERAND1":[3,"fourth",[10,""]],"OPERAND2":[1,[10,"0"]]}},"none":{"opcode":"operator_not","inputs":{}},"forward":{"opcode":"operator_subtract","inputs":{"NUM1":[3,"first",[4,""]],"NUM2":[3,"second",[4,""]]}},"backward":{"opcode":"operator_subtract","inputs":{"NUM2":[3,"one",[4,""]],"NUM1":[3,"two",[4,""]]}},"first":{"opcode":"operator_random","inputs":{"FROM":[1,[4,"1"]],"TO":[1,[4,"10"]]}},"second":{"opcode":"operator_random","inputs":{"FROM":[1,[4,"1"]],"TO":[1,[4,"10"]]}},"one":{"opcode":"operator_random","inputs":{"FROM":[1,[4,"1"]],"TO":[1,[4,"10"]]}},"two":{"opcode":"operator_random","inputs":{"FROM":[1,[4,"1"]],"TO":[1,[4,"10"]]}},"third":{"opcode":"operator_random","inputs":{"FROM":[1,[4,"1"]],"TO":[1,[4,"10"]]}},"fourth":{"opcode":"operator_random","inputs":{"FROM":[1,[4,"1"]],"TO":[1,[4,"10"]]}},"menu":{"opcode":"words_menu","shadow":true,"fields":{"WORD":["7",null]}}}}]}"#;

// What is plugged in, the number that it gives, and how many words are drawn. The first words of seed 0 are 298703107 and
// 4236525527, which pick 1 and 10 from 1 to 10.
static ROWS: [(&str, i64, u64); 12] = [
    (r#"[1,[4,"41"]]"#, 41, 0),
    (r#"[3,[12,"n","v"],[4,""]]"#, 5, 0),
    (r#"[3,[13,"l","k"],[4,""]]"#, 0, 0),
    (r#"[1,"menu"]"#, 7, 0),
    (r#"[3,"length",[4,""]]"#, 2, 0),
    (r#"[3,"sum",[4,""]]"#, 7, 0),
    (r#"[3,"product",[4,""]]"#, 21, 0),
    // The second side is evaluated, whatever the first one is.
    (r#"[3,"both",[4,""]]"#, 0, 1),
    (r#"[3,"either",[4,""]]"#, 1, 1),
    // An input that is absent does not hold.
    (r#"[3,"none",[4,""]]"#, 1, 0),
    // The input that the document names first draws the first word.
    (r#"[3,"forward",[4,""]]"#, -9, 2),
    (r#"[3,"backward",[4,""]]"#, 9, 2),
];

// The stores of a run.
#[derive(Drop)]
pub struct Stores {
    targets: Targets,
    variables: Variables,
    devices: Devices,
}

// The project with an input of its block.
fn project(rt: &(impl Abort + AllocGlobal), plugged: &str) -> Project {
    let mut text = String::from_str(rt.alloc(), BEFORE).expect(rt, "memory");
    text.push_str(plugged).expect(rt, "memory");
    text.push_str(BEHIND).expect(rt, "memory");
    assert!(rt; text.len() < 100_000_000);
    load(rt.alloc(), text.as_bytes()).expect(rt, "a project")
}

fn opened(rt: &(impl Abort + AllocGlobal), project: &Project) -> Stores {
    let targets = Targets::open(rt.alloc(), project.records()).expect(rt, "memory");
    let variables = Variables::open(rt.alloc(), project.records()).expect(rt, "memory");
    let devices = Devices::new(rt.alloc()).expect(rt, "memory");
    Stores {
        targets,
        variables,
        devices,
    }
}

// The number of the one input of a block.
fn number_of(args: &Args<'_>) -> Num {
    match args.value("VALUE") {
        Some(value) => to_number(value),
        None => Num::Nan,
    }
}

// The number of the input of the stage's second block, behind so many words, and how many words were drawn then.
fn evaluated(
    rt: &(impl Abort + AllocGlobal),
    project: &Project,
    stores: &Stores,
    before: u64,
) -> (Result<Num, Stop>, u64) {
    assert!(rt; before < 1 << 62);
    let mut words = pcg(0, before);
    let view = View {
        project,
        targets: &stores.targets,
        variables: &stores.variables,
        devices: &stores.devices,
        here: InstanceId(0),
        target: TargetId(0),
        levels: None,
    };
    assert!(rt; project.target_count() > 0);
    assert!(rt; project.blocks(TargetId(0)).len() > 1);
    let number = match inputs(rt.alloc(), &view, BlockId(1), &mut words) {
        Ok(args) => Ok(number_of(&args)),
        Err(stop) => Err(stop),
    };
    (number, words.drawn())
}

#[test]
fn inputs_are_evaluated_once_each(rt: HostRuntime) {
    for (plugged, wanted, drawn) in &ROWS {
        let project = project(&rt, plugged);
        let stores = opened(&rt, &project);
        let told = evaluated(&rt, &project, &stores, 0);
        assert!(rt; told.0 == Ok(of_whole(*wanted)), "{plugged}");
        assert!(rt; told.1 == *drawn, "{plugged}");
        drop(stores);
        drop(project);
    }
}

#[test]
fn no_word_is_left(rt: HostRuntime) {
    let project = project(&rt, r#"[3,"forward",[4,""]]"#);
    let stores = opened(&rt, &project);
    let (told, drawn) = evaluated(&rt, &project, &stores, (1 << 62) - 2);
    let full = Stop::Counter {
        which: CounterKind::Words,
    };
    assert!(rt; told == Err(full));
    assert!(rt; drawn == (1 << 62) - 1);
    drop(stores);
    drop(project);
}
