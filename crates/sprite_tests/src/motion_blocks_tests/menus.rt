//! Places and directions that a menu names.

use super::Given::Text;
use super::{
    ANN, CAT, Given, INFINITY, NO_INPUT, direction, executed, is_at, number, opened, put, run,
};
use machine_spec::{Context, Control};
use opcode_table::Opcode;
use script_words::pcg;

// A name, the place of the mouse, a seed and how many words were drawn, the place, and how many were drawn then, as two
// programs outside found them. The sprite `cat` is at 36.292971 and 190; without a place Ann stays at 1 and 2.
type Row = (&'static str, [i32; 2], (u64, u64), [i64; 2], u64);

static PLACES: [Row; 10] = [
    (
        "_random_",
        [-167, 34],
        (42, 0),
        [140_000_000, 101_000_000],
        2,
    ),
    (
        "_random_",
        [51, -152],
        (42, 1),
        [134_000_000, -137_000_000],
        3,
    ),
    ("_random_", [23, -122], (1, 1), [-4_000_000, 105_000_000], 3),
    (
        "_random_",
        [127, -59],
        (2, 1000),
        [60_000_000, 1_000_000],
        1002,
    ),
    (
        "_random_",
        [204, 74],
        (0, 0),
        [-207_000_000, 175_000_000],
        2,
    ),
    (
        "_mouse_",
        [-41, -154],
        (1, 1),
        [-41_000_000, -154_000_000],
        1,
    ),
    (
        "_mouse_",
        [-173, 150],
        (2, 1000),
        [-173_000_000, 150_000_000],
        1000,
    ),
    ("cat", [-112, -53], (42, 7), [36_292_971, 190_000_000], 7),
    ("Cat", [128, 36], (42, 7), [1_000_000, 2_000_000], 7),
    ("Stage", [115, 3], (42, 1), [1_000_000, 2_000_000], 1),
];

#[test]
fn a_sprite_goes_to_the_place_of_a_name(rt: HostRuntime) {
    for (at, row) in PLACES.iter().enumerate() {
        let (name, [x, y], (seed, before), [end_x, end_y], after) = *row;
        let mut world = opened(&rt);
        put(&mut world, ANN, 1_000_000, 2_000_000);
        put(&mut world, CAT, 36_292_971, 190_000_000);
        world.devices.set_mouse(x, y);
        assert!(rt; before < 1 << 62);
        let mut words = pcg(seed, before);
        let given = ("", [("TO", Text(name)), NO_INPUT, NO_INPUT]);
        let mut context = Context::Fresh;
        let op = Opcode::MotionGoTo;
        let (control, _) = executed(&rt, &mut world, &mut words, op, ANN, given, &mut context);
        assert!(rt; matches!(control, Control::Next), "row {at}");
        assert!(rt; is_at(&rt, &world, ANN, end_x, end_y), "row {at}");
        assert_eq!(rt; words.drawn(), after, "row {at}");
        drop(world);
    }
}

// The place and direction of Ann, the place of `cat`, and the direction towards it.
static TOWARDS: [([i64; 3], [i64; 2], i64); 7] = [
    (
        [58_000_000, -207_000_000, 90_000_000],
        [-162_000_000, -3_845_461_234],
        -176_539_667,
    ),
    (
        [175_522_172, -163_000_000, 90_000_000],
        [276_840_154, 500_000],
        31_786_708,
    ),
    (
        [0, 27_754_165, -161_000_000],
        [62_818_692, -46_000_000],
        139_576_143,
    ),
    (
        [115_000_000, -204_000_000, 0],
        [115_000_000, -204_000_000],
        90_000_000,
    ),
    (
        [65_837_978, 148_000_000, 90_000_000],
        [10_000_000, INFINITY],
        90_000_000,
    ),
    (
        [-167_000_000, 21_000_000, 0],
        [53_000_000, -115_000_000],
        121_724_682,
    ),
    (
        [228_000_000, 227_965_016, 0],
        [-132_649_139, 178_949_246],
        -97_739_887,
    ),
];

const CAT_NAME: Given = Text("cat");

#[test]
fn a_sprite_points_towards_another(rt: HostRuntime) {
    for (at, (own, [x, y], want)) in TOWARDS.iter().enumerate() {
        let mut world = opened(&rt);
        put(&mut world, ANN, own[0], own[1]);
        put(&mut world, CAT, *x, *y);
        world.targets.set_direction(ANN, number(own[2]));
        let given = ("", [("TOWARDS", CAT_NAME), NO_INPUT, NO_INPUT]);
        run(&rt, &mut world, Opcode::MotionPointTowards, ANN, given);
        assert!(rt; direction(&rt, &world) == number(*want), "row {at}");
        drop(world);
    }
}

#[test]
fn a_random_direction_takes_one_word(rt: HostRuntime) {
    let mut world = opened(&rt);
    let mut words = pcg(42, 5);
    let mut context = Context::Fresh;
    let given = ("", [("TOWARDS", Text("_random_")), NO_INPUT, NO_INPUT]);
    let op = Opcode::MotionPointTowards;
    let (_, redraw) = executed(&rt, &mut world, &mut words, op, ANN, given, &mut context);
    assert!(rt; redraw);
    assert_eq!(rt; words.drawn(), 6);
    drop(world);
}
