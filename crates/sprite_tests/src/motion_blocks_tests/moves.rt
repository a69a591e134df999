//! Blocks that move and turn their instance.

use super::Given::Of;
use super::{ANN, CAT, Input, NO_INPUT, STAGE, direction, is_at, number, opened, put, run};
use machine_spec::Style;
use opcode_table::Opcode;

// A place and a direction, a block with two inputs, and the place and the direction behind it, as two programs outside found
// them, or as plain sums.
type Row = ([i64; 3], Opcode, (Input, Input), [i64; 3]);

static ROWS: [Row; 17] = [
    (
        [116_000_000, 67_144_426, 90_000_000],
        Opcode::MotionMoveSteps,
        (("STEPS", Of(10_000_000)), NO_INPUT),
        [126_000_000, 67_144_426, 90_000_000],
    ),
    (
        [-201_000_000, 222_000_000, -58_721_287],
        Opcode::MotionMoveSteps,
        (("STEPS", Of(-30_000_000)), NO_INPUT),
        [-175_361_250, 206_424_420, -58_721_287],
    ),
    (
        [103_000_000, 4_527_785_546, 65_670_602],
        Opcode::MotionMoveSteps,
        (("STEPS", Of(10_000_000)), NO_INPUT),
        [112_111_610, 4_531_905_226, 65_670_602],
    ),
    (
        [0, 0, 0],
        Opcode::MotionTurnRight,
        (("DEGREES", Of(257_000_000)), NO_INPUT),
        [0, 0, -103_000_000],
    ),
    (
        [0, 0, 0],
        Opcode::MotionTurnRight,
        (("DEGREES", Of(i64::MAX)), NO_INPUT),
        [0, 0, 0],
    ),
    (
        [0, 0, 0],
        Opcode::MotionTurnLeft,
        (("DEGREES", Of(388_362_360)), NO_INPUT),
        [0, 0, -28_362_360],
    ),
    (
        [0, 0, 5_000_000],
        Opcode::MotionPointInDirection,
        (("DIRECTION", Of(3_187_207_353)), NO_INPUT),
        [0, 0, -52_792_647],
    ),
    (
        [0, 0, 5_000_000],
        Opcode::MotionPointInDirection,
        (("DIRECTION", Of(-180_000_000)), NO_INPUT),
        [0, 0, 180_000_000],
    ),
    (
        [0, 0, 5_000_000],
        Opcode::MotionPointInDirection,
        (("DIRECTION", Of(181_000_000)), NO_INPUT),
        [0, 0, -179_000_000],
    ),
    (
        [0, 0, 5_000_000],
        Opcode::MotionPointInDirection,
        (("DIRECTION", Of(-179_000_001)), NO_INPUT),
        [0, 0, 180_999_999],
    ),
    (
        [1_000_000, 2_000_000, 0],
        Opcode::MotionGoToXY,
        (("X", Of(30_500_000)), ("Y", Of(-4_000_000))),
        [30_500_000, -4_000_000, 0],
    ),
    (
        [1_000_000, 2_000_000, 0],
        Opcode::MotionGoToXY,
        (NO_INPUT, NO_INPUT),
        [0, 0, 0],
    ),
    (
        [1_000_000, 2_000_000, 0],
        Opcode::MotionChangeXBy,
        (("DX", Of(10_000_000)), NO_INPUT),
        [11_000_000, 2_000_000, 0],
    ),
    (
        [1_000_000, 2_000_000, 0],
        Opcode::MotionSetX,
        (("X", Of(10_000_000)), NO_INPUT),
        [10_000_000, 2_000_000, 0],
    ),
    (
        [1_000_000, 2_000_000, 0],
        Opcode::MotionChangeYBy,
        (("DY", Of(10_000_000)), NO_INPUT),
        [1_000_000, 12_000_000, 0],
    ),
    (
        [1_000_000, 2_000_000, 0],
        Opcode::MotionSetY,
        (("Y", Of(10_000_000)), NO_INPUT),
        [1_000_000, 10_000_000, 0],
    ),
    (
        [1_000_000, 2_000_000, 3_000_000],
        Opcode::ControlForever,
        (NO_INPUT, NO_INPUT),
        [1_000_000, 2_000_000, 3_000_000],
    ),
];

#[test]
fn a_sprite_moves_and_turns(rt: HostRuntime) {
    for (at, row) in ROWS.iter().enumerate() {
        let (before, op, inputs, after) = *row;
        let mut world = opened(&rt);
        put(&mut world, ANN, before[0], before[1]);
        world.targets.set_direction(ANN, number(before[2]));
        let given = ("", [inputs.0, inputs.1, NO_INPUT]);
        assert!(rt; run(&rt, &mut world, op, ANN, given), "row {at}");
        assert!(rt; is_at(&rt, &world, ANN, after[0], after[1]), "row {at}");
        assert!(rt; direction(&rt, &world) == number(after[2]), "row {at}");
        drop(world);
    }
}

#[test]
fn the_stage_does_nothing(rt: HostRuntime) {
    for (at, row) in ROWS.iter().enumerate() {
        let (_, op, inputs, _) = *row;
        let mut world = opened(&rt);
        let given = ("", [inputs.0, inputs.1, NO_INPUT]);
        assert!(rt; !run(&rt, &mut world, op, STAGE, given), "row {at}");
        assert!(rt; is_at(&rt, &world, STAGE, 0, 0), "row {at}");
        drop(world);
    }
}

#[test]
fn a_hidden_sprite_requests_no_redraw(rt: HostRuntime) {
    let mut world = opened(&rt);
    let given = ("", [("X", Of(7_000_000)), NO_INPUT, NO_INPUT]);
    assert!(rt; !run(&rt, &mut world, Opcode::MotionSetX, CAT, given));
    assert!(rt; is_at(&rt, &world, CAT, 7_000_000, 0));
    drop(world);
}

// The text of a rotation style, the style, and whether a redraw is requested.
static STYLES: [(&str, Style, bool); 4] = [
    ("left-right", Style::LeftRight, true),
    ("Left-right", Style::LeftRight, false),
    ("don't rotate", Style::DontRotate, true),
    ("all around", Style::AllAround, true),
];

#[test]
fn a_rotation_style_is_set_by_its_name(rt: HostRuntime) {
    let mut world = opened(&rt);
    for (text, style, redraw) in &STYLES {
        let given = (*text, [NO_INPUT, NO_INPUT, NO_INPUT]);
        let op = Opcode::MotionSetRotationStyle;
        assert!(rt; run(&rt, &mut world, op, ANN, given) == *redraw, "{text}");
        let own = world.targets.get(ANN).expect(&rt, "a sprite");
        assert!(rt; own.style == *style, "{text}");
    }
    drop(world);
}
