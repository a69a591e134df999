//! Frames of small projects: how often a script has added 1 to the variable n.

ghost use Rattle.executions.specs.Resting.{IsIdle};

use executions::State;
use frames::frame;
use machine_spec::{Budget, Filter, InstanceId};
use project_check::{Project, load};
use scratch_number::{Num, of_whole};
use scratch_values::to_number;
use script_words::{Rng, pcg};
use std::process::Abort;

// The stage has n, 0. Under its green flag it adds 1 to n for ever.
static COUNTING: &str =
    r#"{"targets":[{"isStage":true,"name":"Stage","variables":{"v":["n",0]},"costumes":[{"name":"b"}],"blocks":{"h":{"opcode":"event_whenflagclicked","next":"f","topLevel":true},"f":{"opcode":"control_forever","inputs":{"SUBSTACK":[2,"c"]}},"c":{"opcode":"data_changevariableby","inputs":{"VALUE":[1,[4,"1"]]},"fields":{"VARIABLE":["n","v"]}}}}]}"#;

// The stage has n, 0. When the timer is above 0.05 it adds 1 to n.
static TIMED: &str =
    r#"{"targets":[{"isStage":true,"name":"Stage","variables":{"v":["n",0]},"costumes":[{"name":"b"}],"blocks":{"h":{"opcode":"event_whengreaterthan","next":"c","topLevel":true,"inputs":{"VALUE":[1,[4,"0.05"]]},"fields":{"WHENGREATERTHANMENU":["TIMER",null]}},"c":{"opcode":"data_changevariableby","inputs":{"VALUE":[1,[4,"1"]]},"fields":{"VARIABLE":["n","v"]}}}}]}"#;

fn loaded(rt: &(impl Abort + AllocGlobal), text: &str) -> Project {
    assert!(rt; text.len() < 1 << 20);
    load(rt.alloc(), text.as_bytes()).expect(rt, "a project")
}

// The number that n is after one more frame, at a clock and with 30 passes.
fn framed<R: Rng + Drop>(
    rt: &(impl Abort + AllocGlobal),
    state: &mut State<R>,
    project: &Project,
    clock: u64,
) -> Num
    requires idle { IsIdle project.now state.old }
    ensures { IsIdle project.now state.new }
{
    assert!(rt; state.frame < 1 << 62);
    assert!(rt; state.devices.clock() <= clock);
    let budget = Budget {
        clock,
        passes: 30,
        warp: 1000,
    };
    match frame(state, rt.alloc(), project, &budget) {
        Ok(()) => to_number(state.variables.value(InstanceId(0), 0)),
        Err(_) => panic!(rt; "stopped"),
    }
}

#[test]
fn a_script_has_a_turn_in_each_pass(rt: HostRuntime) {
    let project = loaded(&rt, COUNTING);
    let mut state = State::open(rt.alloc(), &project, pcg(1, 0)).expect(&rt, "memory");
    match state.begin(rt.alloc(), &project, &Filter::Flag) {
        Ok(()) => {}
        Err(_) => panic!(rt; "stopped"),
    }
    assert!(rt; framed(&rt, &mut state, &project, 0) == of_whole(30));
    assert_eq!(rt; state.frame, 1);
    drop(state);
    drop(project);
}

#[test]
fn an_edge_hat_is_started_once_while_it_is_true(rt: HostRuntime) {
    let project = loaded(&rt, TIMED);
    let mut state = State::open(rt.alloc(), &project, pcg(1, 0)).expect(&rt, "memory");
    assert!(rt; framed(&rt, &mut state, &project, 50) == of_whole(0));
    assert!(rt; framed(&rt, &mut state, &project, 51) == of_whole(1));
    assert!(rt; framed(&rt, &mut state, &project, 100) == of_whole(1));
    drop(state);
    drop(project);
}
