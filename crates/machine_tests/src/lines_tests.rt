//! Lines of scripts on a stage and a cat: hats that they start, devices that they set, and an answer.

ghost use Rattle.std.specs.Prelude.{◌≡◌, false, IfOk};
ghost use Rattle.executions.specs.Resting.{IsIdle};
ghost use Rattle.sequencer.specs.Frames.{is_frame};

use executions::State;
use frames::passes;
use machine_spec::{InstanceId, Key, Line, Which};
use project_check::{Project, load};
use rand_pcg::Pcg32;
use scratch_values::{BoundText, to_text};
use script_words::pcg;
use sequencer::apply_line;
use std::alloc::{AllocError, Global};
use std::process::Abort;
use thread_frames::Threads;

// A stage with the variable n and a clicked hat; a hidden cat that asks when the flag is clicked, and sets n to the answer, with
// hats for the space key, for any key, and for a click.
const PROJECT: &str = r#"{"targets":[
{"isStage":true,"name":"Stage","costumes":[{"name":"b"}],"layerOrder":0,"variables":{"v":["n",0]},"blocks":{
"s0":{"opcode":"event_whenstageclicked","topLevel":true}}},
{"isStage":false,"name":"Cat","costumes":[{"name":"c"}],"layerOrder":1,"visible":false,"blocks":{
"c0":{"opcode":"event_whenflagclicked","topLevel":true,"next":"c1"},
"c1":{"opcode":"sensing_askandwait","next":"c2","inputs":{"QUESTION":[1,[10,"q1"]]}},
"c2":{"opcode":"data_setvariableto","inputs":{"VALUE":[3,"c3",[10,""]]},"fields":{"VARIABLE":["n","v"]}},
"c3":{"opcode":"sensing_answer"},
"c4":{"opcode":"event_whenkeypressed","topLevel":true,"fields":{"KEY_OPTION":["space"]}},
"c5":{"opcode":"event_whenkeypressed","topLevel":true,"fields":{"KEY_OPTION":["any"]}},
"c6":{"opcode":"event_whenthisspriteclicked","topLevel":true}}}]}"#;

const STAGE: InstanceId = InstanceId(0);

// A line that a test applies.
#[derive(Clone, Copy)]
enum Act {
    Flag,
    Stop,
    Press(Key),
    Release(Key),
    Mouse(i32, i32),
    Button(bool),
    Click(u32),
    Turbo(bool),
    Nothing,
}

fn line(act: Act) -> Line
    ensures { is_frame result ≡ false }
{
    match act {
        Act::Flag => Line::Flag,
        Act::Stop => Line::Stop,
        Act::Press(key) => Line::KeyDown(key),
        Act::Release(key) => Line::KeyUp(key),
        Act::Mouse(x, y) => Line::Mouse { x, y },
        Act::Button(down) => Line::Button(down),
        Act::Click(place) => Line::Click(place),
        Act::Turbo(on) => Line::Turbo(on),
        Act::Nothing => Line::Nothing,
    }
}

fn project(rt: &(impl Abort + AllocGlobal)) -> Project {
    match load(rt.alloc(), PROJECT.as_bytes()) {
        Ok(project) => project,
        Err(_) => panic!(rt; "refused"),
    }
}

fn opened(alloc: Global, project: &Project) -> Result<State<Pcg32>, AllocError>
    ensures { IfOk result (λ state. IsIdle project.now state) }
{
    State::open(alloc, project, pcg(1, 0))
}

fn apply(
    state: &mut State<Pcg32>,
    alloc: Global,
    project: &Project,
    line: Line,
) -> Result<(), AllocError>
    requires idle { IsIdle project.now state.old }
    requires no_frame { is_frame line ≡ false }
    ensures { IfOk result (λ _. IsIdle project.now state.new) }
{
    match apply_line(state, alloc, project, &line) {
        Ok(()) => Ok(()),
        Err(_) => Err(AllocError),
    }
}

// The threads in order, each as its number, its instance and its hat.
fn shown(alloc: Global, threads: &Threads) -> Result<String, AllocError> {
    let mut text = String::new(alloc);
    for slot in 0..threads.len() {
        match threads.thread(Which::Slot(slot)) {
            Some(thread) => {
                let serial = thread.serial().0;
                let of = thread.of().0;
                let hat = thread.hat().0;
                let part = format!(in alloc; " {serial}:{of}/{hat}")?;
                text.push_str(part.as_str())?;
            }
            None => {}
        }
    }
    Ok(text)
}

// The threads behind two more lines.
fn threads_then(
    state: &mut State<Pcg32>,
    alloc: Global,
    project: &Project,
    first: Act,
    then: Act,
) -> Result<String, AllocError>
    requires { IsIdle project.now state.old }
{
    apply(state, alloc, project, line(first))?;
    apply(state, alloc, project, line(then))?;
    shown(alloc, &state.threads)
}

// The threads behind two lines, from the start of a run on.
fn threads_behind(
    alloc: Global,
    project: &Project,
    first: Act,
    then: Act,
) -> Result<String, AllocError> {
    let mut state = opened(alloc, project)?;
    let told = threads_then(&mut state, alloc, project, first, then);
    drop(state);
    told
}

#[test]
fn lines_start_their_hats(rt: HostRuntime) {
    let project = project(&rt);
    let rows = [
        (Act::Nothing, Act::Flag, " 1:1/0"),
        (Act::Flag, Act::Flag, " 2:1/0"),
        (Act::Flag, Act::Stop, ""),
        (Act::Nothing, Act::Press(Key::Space), " 1:1/4 2:1/5"),
        (Act::Nothing, Act::Press(Key::One('A')), " 1:1/5"),
        (Act::Flag, Act::Click(1), " 1:1/0 2:1/6"),
        (Act::Click(9), Act::Click(0), " 1:0/0"),
    ];
    for (first, then, want) in rows {
        let threads = threads_behind(rt.alloc(), &project, first, then).expect(&rt, "memory");
        assert_eq!(rt; threads.as_str(), want);
    }
    drop(project);
}

// Three lines.
fn apply_three(
    state: &mut State<Pcg32>,
    alloc: Global,
    project: &Project,
    first: Act,
    second: Act,
    third: Act,
) -> Result<(), AllocError>
    requires { IsIdle project.now state.old }
    ensures { IfOk result (λ _. IsIdle project.now state.new) }
{
    apply(state, alloc, project, line(first))?;
    apply(state, alloc, project, line(second))?;
    apply(state, alloc, project, line(third))
}

#[test]
fn lines_set_the_devices(rt: HostRuntime) {
    let alloc = rt.alloc();
    let project = project(&rt);
    let mut state = opened(alloc, &project).expect(&rt, "memory");
    let (space, up) = (Act::Press(Key::Space), Act::Press(Key::Up));
    apply_three(
        &mut state,
        alloc,
        &project,
        space,
        up,
        Act::Release(Key::Space),
    )
    .expect(&rt, "memory");
    let (mouse, turbo) = (Act::Mouse(3, -4), Act::Turbo(true));
    apply_three(&mut state, alloc, &project, mouse, Act::Button(true), turbo).expect(&rt, "memory");
    assert!(rt; !state.devices.is_down(&Key::Space));
    assert!(rt; state.devices.is_down(&Key::Up));
    assert_eq!(rt; state.devices.mouse_x(), 3);
    assert_eq!(rt; state.devices.mouse_y(), -4);
    assert!(rt; state.devices.button());
    assert!(rt; state.devices.turbo());
    drop(state);
    drop(project);
}

// One pass.
fn pass(state: &mut State<Pcg32>, alloc: Global, project: &Project) -> Result<(), AllocError>
    requires { IsIdle project.now state.old }
    ensures { IfOk result (λ _. IsIdle project.now state.new) }
{
    match passes(state, alloc, project, 0, 1) {
        Ok(()) => Ok(()),
        Err(_) => Err(AllocError),
    }
}

// The line of a short answer.
fn answer(alloc: Global, text: &str) -> Result<Line, AllocError>
    ensures { IfOk result (λ line. is_frame line ≡ false) }
{
    match BoundText::from_str(alloc, text)? {
        Some(text) => Ok(Line::Answer(text)),
        None => Err(AllocError),
    }
}

// The variable n of the stage, as a text.
fn value(alloc: Global, state: &State<Pcg32>) -> Result<BoundText, AllocError> {
    if state.variables.has_value(STAGE, 0) {
        to_text(alloc, state.variables.value(STAGE, 0))
    } else {
        Err(AllocError)
    }
}

// A click on the flag, and one pass.
fn ask(state: &mut State<Pcg32>, alloc: Global, project: &Project) -> Result<(), AllocError>
    requires { IsIdle project.now state.old }
    ensures { IfOk result (λ _. IsIdle project.now state.new) }
{
    apply(state, alloc, project, Line::Flag)?;
    pass(state, alloc, project)
}

// An answer.
fn say(
    state: &mut State<Pcg32>,
    alloc: Global,
    project: &Project,
    text: &str,
) -> Result<(), AllocError>
    requires { IsIdle project.now state.old }
    ensures { IfOk result (λ _. IsIdle project.now state.new) }
{
    let line = answer(alloc, text)?;
    apply(state, alloc, project, line)
}

#[test]
fn an_answer_goes_to_the_thread_that_asked(rt: HostRuntime) {
    let alloc = rt.alloc();
    let project = project(&rt);
    let mut state = opened(alloc, &project).expect(&rt, "memory");
    ask(&mut state, alloc, &project).expect(&rt, "memory");
    assert_eq!(rt; state.devices.questions().len(), 1);
    say(&mut state, alloc, &project, "7").expect(&rt, "memory");
    assert_eq!(rt; state.devices.questions().len(), 0);
    assert_eq!(rt; state.devices.last_answer().as_str(), "7");
    pass(&mut state, alloc, &project).expect(&rt, "memory");
    assert_eq!(rt; state.threads.len(), 0);
    let shown = value(alloc, &state).expect(&rt, "memory");
    assert_eq!(rt; shown.as_str(), "7");
    apply(&mut state, alloc, &project, Line::Flag).expect(&rt, "memory");
    assert_eq!(rt; state.devices.last_answer().as_str(), "");
    drop(state);
    drop(project);
}
