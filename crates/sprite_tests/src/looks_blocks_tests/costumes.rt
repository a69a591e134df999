//! Costumes and backdrops.

use super::Given::{Of, Text, Truth};
use super::{
    ANN, Given, INFINITY, NO_FIELD, NO_INPUT, PROJECT, STAGE, World, executed, opened, run,
};
use machine_spec::{
    BlockId, Boxed, Context, Control, Filter, InstanceId, Serial, Serials, TargetId,
};
use opcode_table::Opcode;
use script_words::pcg;
use std::process::Abort;

// The costumes of a sprite as JSON, the present one, what is asked for, and the costume then, as two programs outside found
// it.
static COSTUMES: [(&str, u32, Given, u32); 16] = [
    (r#"{"name":"1"},{"name":"c1"}"#, 0, Text("next backdrop"), 0),
    (r#"{"name":"1.5"},{"name":""}"#, 0, Truth(true), 0),
    (r#"{"name":"1"},{"name":"b1"}"#, 0, Truth(false), 1),
    (r#"{"name":"C1"},{"name":"c1"}"#, 0, Text("c1"), 1),
    (
        r#"{"name":"1"},{"name":"1"},{"name":"s"},{"name":""},{"name":""}"#,
        2,
        Text(""),
        3,
    ),
    (
        r#"{"name":"next costume"},{"name":"b"}"#,
        1,
        Text("next costume"),
        0,
    ),
    (
        r#"{"name":"b1"},{"name":"Infinity"},{"name":"2"}"#,
        2,
        Text("next costume"),
        0,
    ),
    (
        r#"{"name":"3"},{"name":"b1"},{"name":"Infinity"}"#,
        0,
        Text("previous costume"),
        2,
    ),
    (
        r#"{"name":"c2"},{"name":"3"},{"name":"b1"}"#,
        2,
        Text("random backdrop"),
        2,
    ),
    (
        r#"{"name":" "},{"name":"3"},{"name":"n"},{"name":"c1"},{"name":"t"}"#,
        4,
        Text("0x1"),
        0,
    ),
    (
        r#"{"name":"c1"},{"name":"3"},{"name":"c2"}"#,
        2,
        Of(2_500_000),
        2,
    ),
    (
        r#"{"name":"c1"},{"name":"3"},{"name":"c2"}"#,
        2,
        Of(1_499_999),
        0,
    ),
    (
        r#"{"name":"true"},{"name":"b1"},{"name":"3"},{"name":"b1"},{"name":"1"}"#,
        4,
        Of(-4_597_882_482),
        1,
    ),
    (
        r#"{"name":"c1"},{"name":"3"},{"name":"c2"}"#,
        1,
        Of(INFINITY),
        0,
    ),
    (
        r#"{"name":"c1"},{"name":"3"},{"name":"c2"}"#,
        1,
        Text("cat"),
        1,
    ),
    (
        r#"{"name":"c1"},{"name":"3"},{"name":"c2"}"#,
        1,
        Text("Infinity"),
        0,
    ),
];

// A stage with these costumes and a sprite with these.
fn dressed(rt: &(impl Abort + AllocGlobal), backdrops: &str, costumes: &str, now: u32) -> World {
    let alloc = rt.alloc();
    let project = format!(in alloc;
        "{{\"targets\":[{{\"isStage\":true,\"name\":\"S\",\"currentCostume\":{now},\"costumes\":[{backdrops}]}},{{\"isStage\":false,\"name\":\"A\",\"currentCostume\":{now},\"costumes\":[{costumes}]}}]}}"
    );
    opened(rt, project.expect(rt, "memory").as_str())
}

fn costume_of(rt: &impl Abort, world: &World, of: InstanceId) -> u32 {
    world.targets.get(of).expect(rt, "an instance").costume
}

#[test]
fn a_costume_is_chosen_by_a_value(rt: HostRuntime) {
    for (at, (names, now, asked, want)) in COSTUMES.iter().enumerate() {
        let mut world = dressed(&rt, r#"{"name":"b"}"#, names, *now);
        let given = (NO_FIELD, [("COSTUME", *asked), NO_INPUT]);
        run(&rt, &mut world, Opcode::LooksSwitchCostumeTo, ANN, given);
        assert!(rt; costume_of(&rt, &world, ANN) == *want, "row {at}");
        drop(world);
    }
}

// The backdrops as JSON, the present one, what is asked for, a seed and how many words were drawn, the backdrop then, and
// how many words were drawn then, as two programs outside found it or the words tell.
type Backdrop = (&'static str, u32, &'static str, (u64, u64), u32, u64);

static BACKDROPS: [Backdrop; 9] = [
    (
        r#"{"name":"2"},{"name":"1"},{"name":"random backdrop"}"#,
        0,
        "random backdrop",
        (1, 0),
        2,
        0,
    ),
    (r#"{"name":"b1"}"#, 0, "random backdrop", (42, 0), 0, 0),
    (
        r#"{"name":"c1"},{"name":""},{"name":"c1"}"#,
        2,
        "random backdrop",
        (42, 7),
        0,
        8,
    ),
    (
        r#"{"name":"3"},{"name":"C1"},{"name":""}"#,
        0,
        "random backdrop",
        (1, 2),
        2,
        3,
    ),
    (
        r#"{"name":"3"},{"name":"C1"},{"name":""}"#,
        0,
        "random backdrop",
        (1, 3),
        1,
        4,
    ),
    (
        r#"{"name":"1"},{"name":"C1"}"#,
        0,
        "next backdrop",
        (1, 1),
        1,
        1,
    ),
    (
        r#"{"name":"c1"},{"name":"c2"},{"name":"1"}"#,
        2,
        "previous backdrop",
        (42, 0),
        1,
        0,
    ),
    (
        r#"{"name":"3"},{"name":"s"},{"name":""}"#,
        0,
        "previous costume",
        (1, 0),
        0,
        0,
    ),
    (r#"{"name":"c1"},{"name":"2"}"#, 1, "03918.", (42, 7), 1, 7),
];

// Hats for a backdrop of this name are started, and waited for or not.
fn starts(control: &Control, name: &str, waited: bool) -> bool {
    match control {
        Control::Start { hats, wait } => match hats.get() {
            Filter::Backdrop(own) => own.as_str() == name && *wait == waited,
            _ => false,
        },
        _ => false,
    }
}

#[test]
fn a_backdrop_is_chosen_by_a_value(rt: HostRuntime) {
    for (at, row) in BACKDROPS.iter().enumerate() {
        let (names, now, asked, (seed, before), want, after) = *row;
        let mut world = dressed(&rt, names, r#"{"name":"c"}"#, now);
        let given = (NO_FIELD, [("BACKDROP", Text(asked)), NO_INPUT]);
        assert!(rt; before < 1 << 62);
        let mut words = pcg(seed, before);
        let mut context = Context::Fresh;
        let op = Opcode::LooksSwitchBackdropTo;
        let (_, redraw) = executed(&rt, &mut world, &mut words, op, ANN, given, &mut context);
        assert!(rt; redraw, "row {at}");
        assert!(rt; costume_of(&rt, &world, STAGE) == want, "row {at}");
        assert_eq!(rt; words.drawn(), after, "row {at}");
        drop(world);
    }
}

#[test]
fn hats_are_started_for_the_present_backdrop(rt: HostRuntime) {
    let mut world = opened(&rt, PROJECT);
    let mut words = pcg(1, 0);
    let mut context = Context::Fresh;
    let given = (NO_FIELD, [("BACKDROP", Text("cat")), NO_INPUT]);
    let op = Opcode::LooksSwitchBackdropToAndWait;
    let (control, _) = executed(&rt, &mut world, &mut words, op, ANN, given, &mut context);
    assert!(rt; starts(&control, "b1", true));
    let op = Opcode::LooksNextBackdrop;
    let (control, redraw) = executed(&rt, &mut world, &mut words, op, ANN, given, &mut context);
    assert!(rt; redraw && starts(&control, "b2", false));
    assert!(rt; matches!(context, Context::Fresh));
    drop(world);
}

#[test]
fn a_switch_waits_for_the_threads_that_it_started(rt: HostRuntime) {
    let mut world = opened(&rt, PROJECT);
    let first = Some(BlockId(1));
    let appended = world
        .threads
        .append(Serial(3), STAGE, TargetId(0), BlockId(0), first);
    appended.expect(&rt, "room");
    let given = (NO_FIELD, [("BACKDROP", Text("b2")), NO_INPUT]);
    let op = Opcode::LooksSwitchBackdropToAndWait;
    for (serial, yields) in [(3, true), (4, false)] {
        let mut serials = Serials::new(rt.alloc());
        serials.push(Serial(serial)).expect(&rt, "memory");
        let mut context = Context::Started(Boxed::new(rt.alloc(), serials).expect(&rt, "memory"));
        let mut words = pcg(1, 0);
        let (control, redraw) = executed(&rt, &mut world, &mut words, op, ANN, given, &mut context);
        assert!(rt; !redraw && matches!(control, Control::Yield) == yields);
        assert!(rt; matches!(context, Context::Started(_)));
        assert_eq!(rt; costume_of(&rt, &world, STAGE), 0);
    }
    drop(world);
}

#[test]
fn the_next_costume_is_wrapped(rt: HostRuntime) {
    let mut world = opened(&rt, PROJECT);
    for want in [1, 2, 0] {
        let given = (NO_FIELD, [NO_INPUT, NO_INPUT]);
        assert!(rt; run(&rt, &mut world, Opcode::LooksNextCostume, ANN, given));
        assert_eq!(rt; costume_of(&rt, &world, ANN), want);
    }
    drop(world);
}
