//! Waiting for a time, for threads that were started, and for an answer.

use super::Given::{Of, Text};
use super::{ANN, BEN, Given, STAGE, World, executed, opened, word};
use machine_spec::{
    BlockId, Boxed, Context, Control, Filter, InstanceId, Serial, Serials, Status, TargetId, Which,
};
use opcode_table::Opcode;
use std::process::Abort;

fn at(rt: &impl Abort, world: &mut World, ms: u64) {
    assert!(rt; world.devices.clock() <= ms);
    world.devices.set_clock(ms);
}

// Waits from the clock 100 on: a duration, and the first millisecond at which it goes on.
static WAITS: [(Given, u64); 6] = [
    (Of(1_000_000), 1_100),
    (Of(1_500), 102),
    (Of(0), 100),
    (Of(-3_000_000), 100),
    (Text("cat"), 100),
    (Text("0.25"), 350),
];

// What a wait does at a clock, and whether it requests a redraw.
fn waited(
    rt: &(impl Abort + AllocGlobal),
    world: &mut World,
    ms: u64,
    duration: Given,
    context: &mut Context,
) -> (&'static str, bool) {
    at(rt, world, ms);
    let input = ("DURATION", duration);
    let (control, redraw) = executed(rt, world, Opcode::ControlWait, ANN, input, context);
    (word(&control), redraw)
}

#[test]
fn a_wait_yields_until_its_time_is_over(rt: HostRuntime) {
    for (duration, end) in &WAITS {
        let mut world = opened(&rt);
        let mut context = Context::Fresh;
        let first = waited(&rt, &mut world, 100, *duration, &mut context);
        assert!(rt; first == ("yield", true), "{duration:?}");
        if *end > 100 {
            let before = waited(&rt, &mut world, *end - 1, *duration, &mut context);
            assert!(rt; before == ("yield", false), "{duration:?}");
        }
        let last = waited(&rt, &mut world, *end, *duration, &mut context);
        assert!(rt; last == ("next", false), "{duration:?}");
        assert!(rt; matches!(context, Context::Fresh));
        drop(world);
    }
}

// Two threads that were started, as they stand, and what the block does that waits for them.
static STARTED: [(Status, Status, &str); 6] = [
    (Status::Running, Status::Done, "yield"),
    (Status::YieldTick, Status::Running, "yield"),
    (Status::YieldTick, Status::Done, "tick"),
    (Status::PromiseWait, Status::PromiseWait, "tick"),
    (Status::Done, Status::YieldTick, "tick"),
    (Status::Done, Status::Done, "tick"),
];

fn serials(rt: &(impl Abort + AllocGlobal), numbers: &[u64]) -> Context {
    let mut serials = Serials::new(rt.alloc());
    for number in numbers {
        serials.push(Serial(*number)).expect(rt, "memory");
    }
    Context::Started(Boxed::new(rt.alloc(), serials).expect(rt, "memory"))
}

// A thread of a hat, in the next slot.
fn append(rt: &impl Abort, world: &mut World, serial: u64) {
    let added = world
        .threads
        .append(Serial(serial), ANN, TargetId(1), BlockId(0), None);
    added.expect(rt, "room");
}

// What a block does that waits for the threads 10 and 11.
fn awaited(rt: &(impl Abort + AllocGlobal), world: &mut World) -> &'static str {
    let mut context = serials(rt, &[10, 11]);
    let input = ("BROADCAST_INPUT", Text("go"));
    let op = Opcode::EventBroadcastAndWait;
    let (control, redraw) = executed(rt, world, op, ANN, input, &mut context);
    assert!(rt; !redraw);
    assert!(rt; matches!(context, Context::Started(_)));
    word(&control)
}

#[test]
fn a_broadcast_waits_for_the_threads_that_it_started(rt: HostRuntime) {
    let mut world = opened(&rt);
    append(&rt, &mut world, 9);
    assert_eq!(rt; awaited(&rt, &mut world), "next");
    append(&rt, &mut world, 10);
    append(&rt, &mut world, 11);
    for (first, second, want) in &STARTED {
        world.threads.set_status(Which::Slot(1), *first);
        world.threads.set_status(Which::Slot(2), *second);
        assert_eq!(rt; awaited(&rt, &mut world), *want, "{first:?} {second:?}");
    }
    drop(world);
}

fn is_broadcast(hats: &Filter, message: &str) -> bool {
    match hats {
        Filter::Broadcast(text) => text.as_str() == message,
        _ => false,
    }
}

#[test]
fn a_broadcast_starts_the_hats_of_its_message(rt: HostRuntime) {
    let mut world = opened(&rt);
    for (op, waits) in [
        (Opcode::EventBroadcast, false),
        (Opcode::EventBroadcastAndWait, true),
    ] {
        let mut context = Context::Asked;
        let input = ("BROADCAST_INPUT", Text("go"));
        let (control, _) = executed(&rt, &mut world, op, ANN, input, &mut context);
        match control {
            Control::Start { hats, wait } => {
                assert!(rt; is_broadcast(hats.get(), "go"));
                assert_eq!(rt; wait, waits);
            }
            _ => panic!(rt; "no hat is started"),
        }
        assert!(rt; matches!(context, Context::Fresh));
    }
    drop(world);
}

// A question of an instance, and whether a redraw is requested.
fn asked(rt: &(impl Abort + AllocGlobal), world: &mut World, here: InstanceId) -> bool {
    let mut context = Context::Fresh;
    let input = ("QUESTION", Text("name?"));
    let op = Opcode::SensingAskAndWait;
    let (control, redraw) = executed(rt, world, op, here, input, &mut context);
    assert_eq!(rt; word(&control), "promise");
    assert!(rt; matches!(context, Context::Asked));
    redraw
}

#[test]
fn the_first_question_is_shown(rt: HostRuntime) {
    let mut world = opened(&rt);
    assert!(rt; asked(&rt, &mut world, ANN));
    assert!(rt; !asked(&rt, &mut world, ANN));
    let ann = world.targets.get(ANN).expect(&rt, "a sprite");
    assert_eq!(rt; ann.bubble.text.as_str(), "name?");
    assert_eq!(rt; ann.bubble.usage, 1);
    assert_eq!(rt; world.devices.usage(), 2);
    let questions = world.devices.questions();
    assert_eq!(rt; questions.len(), 2);
    assert!(rt;
        questions
            .get(1)
            .is_some_and(|q| q.bubble && q.thread.0 == 7)
    );
    drop(world);
}

// The stage and a hidden sprite ask by the prompt.
#[test]
fn a_question_that_is_no_bubble_requests_no_redraw(rt: HostRuntime) {
    for here in [STAGE, BEN] {
        let mut world = opened(&rt);
        assert!(rt; !asked(&rt, &mut world, here));
        assert_eq!(rt; world.devices.usage(), 1);
        let questions = world.devices.questions();
        assert!(rt; questions.get(0).is_some_and(|q| !q.bubble));
        drop(world);
    }
}

#[test]
fn the_timer_begins_at_the_clock(rt: HostRuntime) {
    let mut world = opened(&rt);
    at(&rt, &mut world, 500);
    let mut context = Context::Fresh;
    let input = ("OTHER", Of(0));
    let op = Opcode::SensingResetTimer;
    let (control, redraw) = executed(&rt, &mut world, op, ANN, input, &mut context);
    assert!(rt; matches!(control, Control::Next));
    assert!(rt; !redraw);
    assert_eq!(rt; world.devices.timer_start(), 500);
    drop(world);
}
