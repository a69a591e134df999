//! Each public function once: bubbles of two sprites, and questions that are shown as bubbles.

use devices::{Devices, Question};
use machine_spec::{BubbleText, InstanceId, Say, Serial};
use project_json::read as read_json;
use scratch_values::BoundText;
use speech_bubbles::{
    drop_questions, empty_bubble, first_taken, show_first_question, update_bubble,
};
use std::process::Abort;
use target_records::{Records, read};
use targets::Targets;

static PROJECT: &str =
    r#"{"targets":[{"isStage":true,"name":"Stage","costumes":[{"name":"b"}]},{"isStage":false,"name":"Ann","costumes":[{"name":"c"}],"layerOrder":1},{"isStage":false,"name":"Ben","costumes":[{"name":"c"}],"layerOrder":2}]}"#;

const ANN: InstanceId = InstanceId(1);

const BEN: InstanceId = InstanceId(2);

const NOBODY: InstanceId = InstanceId(9);

fn records(rt: &(impl Abort + AllocGlobal)) -> Records {
    assert!(rt; PROJECT.len() < 4_000_000_000);
    let document = read_json(rt.alloc(), PROJECT.as_bytes()).expect(rt, "a document");
    read(rt.alloc(), &document).expect(rt, "records")
}

fn opened(rt: &(impl Abort + AllocGlobal)) -> (Targets, Devices) {
    let targets = Targets::open(rt.alloc(), &records(rt)).expect(rt, "memory");
    let devices = Devices::new(rt.alloc()).expect(rt, "memory");
    (targets, devices)
}

// Asks a question that is shown as a bubble or not.
fn ask(
    rt: &(impl Abort + AllocGlobal),
    devices: &mut Devices,
    of: InstanceId,
    text: &str,
    bubble: bool,
) {
    let text = BoundText::from_str(rt.alloc(), text).expect(rt, "memory");
    let question = Question {
        of,
        thread: Serial(1),
        text: text.expect(rt, "a short text"),
        bubble,
    };
    devices.ask(question).expect(rt, "memory");
}

// The bubble of a sprite has this kind, this text and the number of this update.
fn has_bubble(
    rt: &impl Abort,
    targets: &Targets,
    of: InstanceId,
    (kind, text, usage): (Say, &str, u64),
) {
    let bubble = &targets.get(of).expect(rt, "a sprite").bubble;
    assert_eq!(rt; bubble.kind, kind);
    assert_eq!(rt; bubble.text.as_str(), text);
    assert_eq!(rt; bubble.usage, usage);
}

#[test]
fn updates_of_bubbles_are_numbered(rt: HostRuntime) {
    let (mut targets, mut devices) = opened(&rt);
    for (of, text) in [(ANN, "one"), (BEN, "two"), (NOBODY, "none"), (ANN, "three")] {
        let text = BubbleText::cut(rt.alloc(), text).expect(&rt, "memory");
        update_bubble(&mut targets, &mut devices, of, Say::Think, text).expect(&rt, "a number");
    }
    has_bubble(&rt, &targets, ANN, (Say::Think, "three", 3));
    has_bubble(&rt, &targets, BEN, (Say::Think, "two", 2));
    assert_eq!(rt; devices.usage(), 4);
    drop(devices);
    drop(targets);
}

#[test]
fn an_empty_bubble_has_its_kind(rt: HostRuntime) {
    let (mut targets, mut devices) = opened(&rt);
    let text = BubbleText::cut(rt.alloc(), "hm").expect(&rt, "memory");
    update_bubble(&mut targets, &mut devices, ANN, Say::Think, text).expect(&rt, "a number");
    for of in [ANN, BEN] {
        empty_bubble(rt.alloc(), &mut targets, &mut devices, of).expect(&rt, "a number");
    }
    has_bubble(&rt, &targets, ANN, (Say::Think, "", 2));
    has_bubble(&rt, &targets, BEN, (Say::Say, "", 3));
    drop(devices);
    drop(targets);
}

#[test]
fn the_next_question_is_shown_where_the_first_is_dropped(rt: HostRuntime) {
    let (mut targets, mut devices) = opened(&rt);
    ask(&rt, &mut devices, ANN, "Ann?", true);
    ask(&rt, &mut devices, BEN, "Ben?", true);
    show_first_question(rt.alloc(), &mut targets, &mut devices).expect(&rt, "a number");
    has_bubble(&rt, &targets, ANN, (Say::Say, "Ann?", 1));
    has_bubble(&rt, &targets, BEN, (Say::Say, "", 0));
    drop_questions(rt.alloc(), &mut targets, &mut devices, ANN).expect(&rt, "a number");
    has_bubble(&rt, &targets, ANN, (Say::Say, "", 2));
    has_bubble(&rt, &targets, BEN, (Say::Say, "Ben?", 3));
    assert_eq!(rt; devices.questions().len(), 1);
    drop(devices);
    drop(targets);
}

#[test]
fn nothing_is_shown_where_a_later_question_is_dropped(rt: HostRuntime) {
    let (mut targets, mut devices) = opened(&rt);
    ask(&rt, &mut devices, ANN, "Ann?", true);
    ask(&rt, &mut devices, BEN, "Ben?", true);
    drop_questions(rt.alloc(), &mut targets, &mut devices, BEN).expect(&rt, "a number");
    assert_eq!(rt; devices.questions().len(), 1);
    assert_eq!(rt; devices.usage(), 1);
    drop(devices);
    drop(targets);
}

// The first question was taken away, and one that is shown as the prompt has no bubble.
#[test]
fn a_question_that_was_taken_leaves_an_empty_bubble(rt: HostRuntime) {
    let (mut targets, mut devices) = opened(&rt);
    ask(&rt, &mut devices, BEN, "Ben?", false);
    first_taken(rt.alloc(), &mut targets, &mut devices, true, ANN).expect(&rt, "a number");
    has_bubble(&rt, &targets, ANN, (Say::Say, "", 1));
    has_bubble(&rt, &targets, BEN, (Say::Say, "", 0));
    first_taken(rt.alloc(), &mut targets, &mut devices, false, ANN).expect(&rt, "a number");
    assert_eq!(rt; devices.usage(), 2);
    drop(devices);
    drop(targets);
}
