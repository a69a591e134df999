//! Bubbles and their timers.

use super::Given::{Of, Text, Truth};
use super::{
    ANN, BEN, Given, INFINITY, MINUS_INFINITY, NO_FIELD, NO_INPUT, PROJECT, World, executed,
    number, opened, run,
};
use machine_spec::{Context, Control, InstanceId, Say};
use opcode_table::Opcode;
use script_words::pcg;
use std::process::Abort;

// What is said, and the text of the bubble, as two programs outside found it; 2/3 is 0.666667.
static TEXTS: [(Given, &str); 18] = [
    (Of(666_667), "0.67"),
    (Of(-2_330_004), "-2.33"),
    (Of(4_999), "0.004999"),
    (Of(9_999), "0.009999"),
    (Of(10_000), "0.01"),
    (Of(15_000), "0.02"),
    (Of(-15_000), "-0.02"),
    (Of(994_999), "0.99"),
    (Of(995_000), "1.00"),
    (Of(-349_000_000), "-349"),
    (Of(8_999_999_999_999_999_999), "9000000000000.00"),
    (Of(-4_122_057_567_969_523_780), "-4122057567969.52"),
    (Of(0), "0"),
    (Of(INFINITY), "Infinity"),
    (Of(MINUS_INFINITY), "-Infinity"),
    (Truth(true), "true"),
    (Text(".648e3"), ".648e3"),
    (Text(""), ""),
];

#[test]
fn a_bubble_shows_two_decimals(rt: HostRuntime) {
    let mut world = opened(&rt, PROJECT);
    for (at, (said, text)) in TEXTS.iter().enumerate() {
        let given = (NO_FIELD, [("MESSAGE", *said), NO_INPUT]);
        assert!(rt;
            run(&rt, &mut world, Opcode::LooksSay, ANN, given),
            "row {at}"
        );
        let own = world.targets.get(ANN).expect(&rt, "a sprite");
        assert!(rt; own.bubble.text.as_str() == *text, "row {at}");
    }
    drop(world);
}

#[test]
fn a_bubble_is_cut(rt: HostRuntime) {
    let mut world = opened(&rt, PROJECT);
    let given = (NO_FIELD, [("MESSAGE", Text(LONG)), NO_INPUT]);
    assert!(rt; !run(&rt, &mut world, Opcode::LooksThink, BEN, given));
    let bubble = &world.targets.get(BEN).expect(&rt, "a sprite").bubble;
    assert_eq!(rt; bubble.kind, Say::Think);
    assert_eq!(rt; bubble.usage, 1);
    assert_eq!(rt; bubble.text.as_str().len(), 332);
    drop(world);
}

// 331 characters, the first of which has three bytes.
static LONG: &str =
    "€aaaaaaaaaaaaaaaaaaaaaaaaaaaaaaaaaaaaaaaaaaaaaaaaaaaaaaaaaaaaaaaaaaaaaaaaaaaaaaaaaaaaaaaaaaaaaaaaaaaaaaaaaaaaaaaaaaaaaaaaaaaaaaaaaaaaaaaaaaaaaaaaaaaaaaaaaaaaaaaaaaaaaaaaaaaaaaaaaaaaaaaaaaaaaaaaaaaaaaaaaaaaaaaaaaaaaaaaaaaaaaaaaaaaaaaaaaaaaaaaaaaaaaaaaaaaaaaaaaaaaaaaaaaaaaaaaaaaaaaaaaaaaaaaaaaaaaaaaaaaaaaaaaaaaaaaaaaaaaaaaaaaaaaaaa";

fn bubble_usage(rt: &impl Abort, world: &World, of: InstanceId) -> u64 {
    world.targets.get(of).expect(rt, "an instance").bubble.usage
}

// The seconds of a timed bubble, and when it is due where the clock stands at 1500 milliseconds.
static TIMED: [(Given, i64); 4] = [
    (Of(2_250_000), 3_750_000),
    (Of(-1_000_000), 1_500_000),
    (Text("cat"), 1_500_000),
    (Of(INFINITY), INFINITY),
];

#[test]
fn a_timed_bubble_waits_for_its_timer(rt: HostRuntime) {
    let mut world = opened(&rt, PROJECT);
    assert!(rt; world.devices.clock() <= 1_500);
    world.devices.set_clock(1_500);
    for (at, (secs, due)) in TIMED.iter().enumerate() {
        let given = (NO_FIELD, [("MESSAGE", Text("hm")), ("SECS", *secs)]);
        let mut words = pcg(1, 0);
        let mut context = Context::Fresh;
        let op = Opcode::LooksThinkForSecs;
        let (control, redraw) = executed(&rt, &mut world, &mut words, op, ANN, given, &mut context);
        assert!(rt; redraw && matches!(control, Control::Promise), "row {at}");
        assert!(rt; matches!(context, Context::Spoken), "row {at}");
        let timer = world.devices.timers().get(at).expect(&rt, "a timer");
        assert!(rt; timer.due == number(*due), "row {at}");
        assert!(rt; timer.of == ANN && timer.thread.0 == 7, "row {at}");
        assert!(rt; timer.usage == bubble_usage(&rt, &world, ANN), "row {at}");
    }
    drop(world);
}
