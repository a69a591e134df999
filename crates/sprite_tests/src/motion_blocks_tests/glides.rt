//! Glides that begin, and those that go on.

use super::Given::{Of, Text};
use super::{ANN, CAT, INFINITY, Input, NO_INPUT, World, executed, is_at, number, opened, put};
use machine_spec::{Boxed, Context, Control, GlideState};
use opcode_table::Opcode;
use script_words::pcg;
use std::process::Abort;

// Executes a block of the visible sprite, which may yield, and tells whether it does and whether a redraw is requested.
fn yields(
    rt: &(impl Abort + AllocGlobal),
    world: &mut World,
    op: Opcode,
    inputs: [Input; 3],
    context: &mut Context,
) -> (bool, bool) {
    let mut words = pcg(1, 0);
    let given = ("", inputs);
    let (control, redraw) = executed(rt, world, &mut words, op, ANN, given, context);
    (matches!(control, Control::Yield), redraw)
}

fn at(rt: &impl Abort, world: &mut World, ms: u64) {
    assert!(rt; world.devices.clock() <= ms);
    world.devices.set_clock(ms);
}

// When a glide began, how long it lasts, its two ends, the clock, and where it is then; whether it yields.
type Row = (u64, i64, [i64; 2], [i64; 2], u64, [i64; 2], bool);

static LATER: [Row; 8] = [
    (
        1000,
        1_114_114,
        [190_000_000, -4_958_740_948],
        [-163_000_000, -165_000_000],
        1001,
        [189_683_006, -4_954_436_169],
        true,
    ),
    (
        1000,
        333_333,
        [-106_000_000, 5_000_000],
        [100_000_000, -163_000_000],
        1033,
        [-85_606_000, -11_632_000],
        true,
    ),
    (
        0,
        100_000,
        [-21_000_000, -206_000_000],
        [46_000_000, -134_000_000],
        50,
        [12_500_000, -170_000_000],
        true,
    ),
    (
        1000,
        1,
        [2_453_629_333_213_085_114, -29_000_000],
        [246_971_796, 11_000_000],
        1001,
        [246_971_796, 11_000_000],
        false,
    ),
    (
        0,
        300_000,
        [52_000_000, -120_498_719],
        [-175_000_000, -75_000_000],
        301,
        [-175_000_000, -75_000_000],
        false,
    ),
    (
        33,
        INFINITY,
        [-149_000_000, -17_000_000],
        [-170_967_495, 206_409_729],
        1_000_000_033,
        [-149_000_000, -17_000_000],
        true,
    ),
    (
        0,
        1_000_000,
        [142_122_900, -232_417_810],
        [106_000_000, 91_057_710],
        1000,
        [106_000_000, 91_057_710],
        false,
    ),
    (
        1000,
        1,
        [-198_000_000, -221_930_799],
        [-65_000_000, -141_310_039],
        1000,
        [-198_000_000, -221_930_799],
        true,
    ),
];

fn kept(rt: &(impl Abort + AllocGlobal), row: &Row) -> Context {
    let (start, duration, [x0, y0], [x1, y1], _, _, _) = *row;
    let state = GlideState {
        start,
        duration: number(duration),
        x0: number(x0),
        y0: number(y0),
        x1: number(x1),
        y1: number(y1),
    };
    Context::Glide(Boxed::new(rt.alloc(), state).expect(rt, "memory"))
}

// The inputs of a glide that has begun count no longer.
const OTHER_INPUTS: [Input; 3] = [
    ("SECS", Of(9_000_000)),
    ("X", Of(5_000_000)),
    ("Y", Of(6_000_000)),
];

#[test]
fn a_glide_is_where_the_clock_says(rt: HostRuntime) {
    for (place, row) in LATER.iter().enumerate() {
        let mut world = opened(&rt);
        let (_, _, _, _, clock, [x, y], yielding) = *row;
        at(&rt, &mut world, clock);
        let mut context = kept(&rt, row);
        let op = Opcode::MotionGlideSecsToXY;
        let told = yields(&rt, &mut world, op, OTHER_INPUTS, &mut context);
        assert!(rt; told == (yielding, true), "row {place}");
        assert!(rt; is_at(&rt, &world, ANN, x, y), "row {place}");
        assert!(rt;
            matches!(context, Context::Glide(_)) == yielding,
            "row {place}"
        );
        drop(world);
    }
}

// The seconds of a glide, its two ends, and where it is first; whether it yields.
static FIRST: [(i64, [i64; 2], [i64; 2], [i64; 2], bool); 4] = [
    (
        767_898,
        [121_000_000, -198_928_610],
        [-12_860_848, -287_429_476],
        [121_000_000, -198_928_610],
        true,
    ),
    (
        1,
        [-1_000_000, -175_000_000],
        [-148_264_035, 56_000_000],
        [-1_000_000, -175_000_000],
        true,
    ),
    (
        -1_000_000,
        [164_382_960, 110_830_004],
        [56_936_429, -187_000_000],
        [56_936_429, -187_000_000],
        false,
    ),
    (
        0,
        [-106_000_000, 2_057_352],
        [45_000_000, -1_000_000],
        [45_000_000, -1_000_000],
        false,
    ),
];

#[test]
fn a_glide_that_begins_stays_and_one_of_no_time_is_over(rt: HostRuntime) {
    for (place, (seconds, start, end, first, yielding)) in FIRST.iter().enumerate() {
        let mut world = opened(&rt);
        put(&mut world, ANN, start[0], start[1]);
        let inputs = [("SECS", Of(*seconds)), ("X", Of(end[0])), ("Y", Of(end[1]))];
        let mut context = Context::Fresh;
        let op = Opcode::MotionGlideSecsToXY;
        let told = yields(&rt, &mut world, op, inputs, &mut context);
        assert!(rt; told == (*yielding, !*yielding), "row {place}");
        assert!(rt; is_at(&rt, &world, ANN, first[0], first[1]), "row {place}");
        assert!(rt;
            matches!(context, Context::Glide(_)) == *yielding,
            "row {place}"
        );
        drop(world);
    }
}

#[test]
fn a_glide_to_a_sprite_ends_where_that_was(rt: HostRuntime) {
    let mut world = opened(&rt);
    put(&mut world, CAT, 40_000_000, -20_000_000);
    let inputs = [("SECS", Of(1_000_000)), ("TO", Text("cat")), NO_INPUT];
    let mut context = Context::Fresh;
    let op = Opcode::MotionGlideTo;
    assert!(rt; yields(&rt, &mut world, op, inputs, &mut context) == (true, false));
    put(&mut world, CAT, 0, 0);
    at(&rt, &mut world, 500);
    assert!(rt; yields(&rt, &mut world, op, inputs, &mut context) == (true, true));
    assert!(rt; is_at(&rt, &world, ANN, 20_000_000, -10_000_000));
    at(&rt, &mut world, 1000);
    assert!(rt; yields(&rt, &mut world, op, inputs, &mut context) == (false, true));
    assert!(rt; is_at(&rt, &world, ANN, 40_000_000, -20_000_000));
    let nowhere = [("SECS", Of(1_000_000)), ("TO", Text("Cat")), NO_INPUT];
    assert!(rt; yields(&rt, &mut world, op, nowhere, &mut context) == (false, false));
    drop(world);
}
