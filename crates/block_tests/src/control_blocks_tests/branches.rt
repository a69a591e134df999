//! Loops and choices.

use super::Given::{Of, Text, Truth};
use super::{ANN, Given, World, executed, opened, said, word};
use machine_spec::{Context, Control};
use opcode_table::Opcode;
use std::process::Abort;

// The blocks of a condition, with what each does where it holds and where it does not.
static CONDITIONS: [(Opcode, &str, &str); 5] = [
    (Opcode::ControlIf, "first", "next"),
    (Opcode::ControlIfElse, "first", "second"),
    (Opcode::ControlRepeatUntil, "next", "again"),
    (Opcode::ControlWaitUntil, "next", "yield"),
    (Opcode::ControlForever, "again", "again"),
];

#[test]
fn a_condition_decides(rt: HostRuntime) {
    let mut world = opened(&rt);
    for (op, holds, fails) in &CONDITIONS {
        let yes = said(&rt, &mut world, *op, ANN, ("CONDITION", Truth(true)));
        assert_eq!(rt; yes, *holds, "{op:?}");
        let no = said(&rt, &mut world, *op, ANN, ("CONDITION", Truth(false)));
        assert_eq!(rt; no, *fails, "{op:?}");
        let absent = said(&rt, &mut world, *op, ANN, ("OTHER", Truth(true)));
        assert_eq!(rt; absent, *fails, "{op:?}");
    }
    drop(world);
}

// How often a repeat of a number enters its branch, up to 10 times.
fn turns(rt: &(impl Abort + AllocGlobal), world: &mut World, times: Given) -> u32 {
    let mut context = Context::Fresh;
    for turn in 0..10 {
        let (control, redraw) = executed(
            rt,
            world,
            Opcode::ControlRepeat,
            ANN,
            ("TIMES", times),
            &mut context,
        );
        assert!(rt; !redraw);
        if word(&control) != "again" {
            return turn;
        }
    }
    10
}

// Numbers of turns: halves are rounded up, and below 0 there is none.
static REPEATS: [(Given, u32); 12] = [
    (Of(0), 0),
    (Of(1_000_000), 1),
    (Of(3_000_000), 3),
    (Of(2_499_999), 2),
    (Of(2_500_000), 3),
    (Of(500_000), 1),
    (Of(499_999), 0),
    (Of(-500_000), 0),
    (Of(-1_000_000), 0),
    (Text("cat"), 0),
    (Truth(true), 1),
    (Text("Infinity"), 10),
];

#[test]
fn a_repeat_takes_its_rounded_number_of_turns(rt: HostRuntime) {
    let mut world = opened(&rt);
    for (times, want) in &REPEATS {
        assert_eq!(rt; turns(&rt, &mut world, *times), *want, "{times:?}");
    }
    drop(world);
}

// The number is read once, when the loop begins.
#[test]
fn a_repeat_keeps_its_first_number(rt: HostRuntime) {
    let mut world = opened(&rt);
    let mut context = Context::Fresh;
    let rows = [(2, "again"), (9, "again"), (9, "next"), (1, "again")];
    for (times, want) in rows {
        let (control, _) = executed(
            &rt,
            &mut world,
            Opcode::ControlRepeat,
            ANN,
            ("TIMES", Of(times * 1_000_000)),
            &mut context,
        );
        assert_eq!(rt; word(&control), want);
    }
    assert!(rt; matches!(context, Context::Repeat(_)));
    drop(world);
}

#[test]
fn a_block_of_another_group_goes_on_and_keeps_nothing(rt: HostRuntime) {
    let mut world = opened(&rt);
    let mut context = Context::Asked;
    let (control, redraw) = executed(
        &rt,
        &mut world,
        Opcode::MotionSetX,
        ANN,
        ("X", Of(0)),
        &mut context,
    );
    assert!(rt; matches!(control, Control::Next));
    assert!(rt; matches!(context, Context::Fresh));
    assert!(rt; !redraw);
    drop(world);
}
