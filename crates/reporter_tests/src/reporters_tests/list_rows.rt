//! Lists of the instance and of the stage.

use super::Given::{Of, Text, Truth};
use super::{
    ANN, Given, LIST, NO_INPUT, STAGE_LIST, World, gives, gives_in, hold, of_one, opened, picks,
    sight, value,
};
use opcode_table::Opcode;
use std::process::Abort;

// A place, how many items a list has of the numbers from 1, the seed, the words drawn before, the item at the place, and
// the words drawn behind it.
type Place = (Given, usize, u64, u64, Given, u64);

// Items, and the contents as a text.
static CONTENTS: [(&'static [Given], Given); 12] = [
    (&[], Text("")),
    (
        &[Text(""), Text(""), Text("1"), Text("43E+519")],
        Text("  1 43E+519"),
    ),
    (&[Text("1"), Text("b"), Text("4")], Text("1b4")),
    (&[Text("\u{3c3}")], Text("\u{3c3}")),
    (&[Text("4e-7")], Text("4e-7")),
    (&[Text(" "), Text(""), Text("1"), Text("b")], Text("   1 b")),
    (&[Text("last"), Text(""), Text("1")], Text("last  1")),
    (
        &[
            Text("\u{df}"),
            Text("1e-400"),
            Text("\u{200b}"),
            Truth(false),
        ],
        Text("\u{df} 1e-400 \u{200b} false"),
    ),
    (&[Text("1"), Text("\t"), Text(" ")], Text("1\t ")),
    (&[Text("1e1"), Text("b")], Text("1e1 b")),
    (&[Text("NaN"), Text("ffi")], Text("NaN ffi")),
    (&[Text("\u{1e9e}")], Text("\u{1e9e}")),
];

// Items, a value, and the place of the first item that is equal to it, or 0.
static FOUND: [(&'static [Given], Given, Given); 24] = [
    (&[], Text("\n-.110E-23\u{2028}"), Of(0)),
    (
        &[Of(-327000000), Of(9000000000000000000), Of(-36703660)],
        Of(-327000000),
        Of(1000000),
    ),
    (&[Text("\u{df}")], Text("\u{df}"), Of(1000000)),
    (
        &[Of(-5073889248139925964), Text(""), Text("a"), Text(" ")],
        Text("SPACE"),
        Of(0),
    ),
    (&[Text("1"), Text("a")], Of(-6990418519551453674), Of(0)),
    (&[Text("b")], Text("b"), Of(1000000)),
    (
        &[Text("1"), Text("4")],
        Text("0E99999999999999999999"),
        Of(0),
    ),
    (
        &[
            Text("+.074E-0"),
            Text(" "),
            Text("\u{df}"),
            Text("\u{1f600}"),
        ],
        Text(" "),
        Of(2000000),
    ),
    (&[], Text("TRUE"), Of(0)),
    (&[Text("2")], Text("2"), Of(1000000)),
    (
        &[Text("\u{1f600}"), Text("1"), Text(""), Text("1e1")],
        Text("1"),
        Of(2000000),
    ),
    (&[Of(-6702725898603036147)], Text("-Infinity"), Of(0)),
    (&[], Text("s"), Of(0)),
    (&[Text("\u{df}"), Text("\u{3c2}")], Of(-89000000), Of(0)),
    (
        &[
            Text("\u{df}"),
            Text("1e-400"),
            Text("\u{200b}"),
            Truth(false),
        ],
        Text("\u{200b}"),
        Of(3000000),
    ),
    (
        &[Text("b"), Text("\u{1e9e}"), Text(" ")],
        Text(" "),
        Of(3000000),
    ),
    (&[], Truth(true), Of(0)),
    (&[Text("\u{df}")], Text("SS"), Of(1000000)),
    (&[], Text("-0.5"), Of(0)),
    (&[Text("1e1"), Text("b")], Text("b"), Of(2000000)),
    (
        &[
            Text(" "),
            Text("\u{3c3}\u{3b1}\u{3c2}"),
            Of(2443470467),
            Text("1"),
        ],
        Text("\u{1f431}"),
        Of(0),
    ),
    (&[Text("b"), Text(" "), Text(" ")], Text(" "), Of(2000000)),
    (&[], Text("1E1"), Of(0)),
    (&[Of(213199)], Text("0.213199"), Of(1000000)),
];

// Places that values name.
static PLACES: [Place; 40] = [
    (Of(5000000), 3, 16932550538403524664, 1, Text(""), 1),
    (Of(8000000), 2, 2, 0, Text(""), 0),
    (
        Of(-9000000000000000000),
        0,
        11843820382128674449,
        0,
        Text(""),
        0,
    ),
    (Truth(false), 3, 42, 1, Text(""), 1),
    (Text("-Infinity"), 2, 0, 1, Text(""), 1),
    (Truth(false), 0, 2, 0, Text(""), 0),
    (Of(2860942), 3, 4841961452785366655, 0, Of(2000000), 0),
    (Of(-837802), 1, 15491094336415060167, 1000, Text(""), 1000),
    (Of(8000000), 2, 1, 0, Text(""), 0),
    (Truth(false), 2, 14306697170162779006, 7, Text(""), 7),
    (Of(11577515), 2, 1, 1000, Text(""), 1000),
    (Truth(false), 3, 0, 0, Text(""), 0),
    (Text("all"), 0, 1, 1000, Text(""), 1000),
    (Text("1"), 3, 1928200221283299795, 7, Of(1000000), 7),
    (Text("all"), 3, 2, 0, Text(""), 0),
    (Text("0"), 0, 3816608591971431581, 1, Text(""), 1),
    (Text("abc"), 0, 0, 0, Text(""), 0),
    (Text("all"), 3, 11149062467770722160, 1000, Text(""), 1000),
    (Of(-4257388914), 3, 0, 7, Text(""), 7),
    (Truth(false), 3, 1, 0, Text(""), 0),
    (Text("1e0"), 0, 2, 0, Text(""), 0),
    (Of(10000000), 2, 3736768023539980607, 1, Text(""), 1),
    (Text("1"), 2, 42, 0, Of(1000000), 0),
    (Of(8158051), 2, 1, 7, Text(""), 7),
    (Of(5000000), 1, 12151588243764108685, 7, Text(""), 7),
    (Text("all"), 3, 17122740586443045840, 1000, Text(""), 1000),
    (Of(8144546), 2, 14465492884879456618, 1000, Text(""), 1000),
    (Text("4294967297"), 2, 2, 1000, Text(""), 1000),
    (Truth(true), 3, 2, 0, Of(1000000), 0),
    (Truth(false), 2, 1, 1000, Text(""), 1000),
    (Text("-Infinity"), 0, 4552426772784884598, 1, Text(""), 1),
    (Of(8000000), 1, 17149971876894420430, 0, Text(""), 0),
    (Of(234000000), 0, 13986165689886634379, 0, Text(""), 0),
    (Text("random"), 2, 42, 0, Of(2000000), 1),
    (Of(1407237), 1, 11104171418101684274, 7, Of(1000000), 7),
    (Of(1000000), 3, 42, 1000, Of(1000000), 1000),
    (Text("1"), 1, 17505290920152394461, 0, Of(1000000), 0),
    (Of(4000000), 0, 42, 0, Text(""), 0),
    (Of(6831972), 2, 0, 7, Text(""), 7),
    (Text("4294967297"), 1, 0, 1, Text(""), 1),
];

// A world in which Ann's list has these items.
fn with_items(rt: &(impl Abort + AllocGlobal), items: &[Given]) -> World {
    let mut world = opened(rt);
    world.variables.clear(ANN, 0);
    for item in items {
        let pushed = world.variables.push(ANN, 0, value(rt, *item));
        pushed.expect(rt, "memory");
    }
    world
}

// A reporter of Ann's list gives this value.
fn is(
    rt: &(impl Abort + AllocGlobal),
    items: &[Given],
    op: Opcode,
    item: Given,
    wanted: Given,
) -> bool {
    let asked = of_one(op, LIST, ("ITEM", item));
    gives_in(rt, &with_items(rt, items), asked, wanted)
}

#[test]
fn contents_are_joined(rt: HostRuntime) {
    for (at, (items, wanted)) in CONTENTS.iter().enumerate() {
        let told = is(&rt, items, Opcode::DataListContents, Of(0), *wanted);
        hold(&rt, told, at);
    }
}

#[test]
fn items_are_counted(rt: HostRuntime) {
    for (at, (items, _)) in CONTENTS.iter().enumerate() {
        assert!(rt; items.len() < 10);
        let count = Of(items.len() as i64 * 1_000_000);
        let told = is(&rt, items, Opcode::DataLengthOfList, Of(0), count);
        hold(&rt, told, at);
    }
}

#[test]
fn items_are_found(rt: HostRuntime) {
    for (at, (items, item, place)) in FOUND.iter().enumerate() {
        let told = is(&rt, items, Opcode::DataItemNumOfList, *item, *place);
        hold(&rt, told, at);
        let held = Truth(!matches!(place, Of(0)));
        let told = is(&rt, items, Opcode::DataListContainsItem, *item, held);
        hold(&rt, told, at);
    }
}

// The item of a list of so many numbers from 1 at a place that may be drawn.
fn is_item(
    rt: &(impl Abort + AllocGlobal),
    count: usize,
    place: Given,
    words: (u64, u64),
    wanted: (Given, u64),
) -> bool {
    let numbers = [
        Of(1_000_000),
        Of(2_000_000),
        Of(3_000_000),
        Of(4_000_000),
        Of(5_000_000),
    ];
    assert!(rt; count <= 5);
    let world = with_items(rt, &numbers[..count]);
    let asked = of_one(Opcode::DataItemOfList, LIST, ("INDEX", place));
    let is_picked = picks(rt, &sight(&world, None), asked, words, wanted);
    drop(world);
    is_picked
}

#[test]
fn items_are_picked(rt: HostRuntime) {
    for (at, (place, count, seed, before, wanted, after)) in PLACES.iter().enumerate() {
        let (words, wanted) = ((*seed, *before), (*wanted, *after));
        hold(&rt, is_item(&rt, *count, *place, words, wanted), at);
    }
}

#[test]
fn a_list_of_the_stage_is_told(rt: HostRuntime) {
    let asked = of_one(Opcode::DataListContents, STAGE_LIST, NO_INPUT);
    hold(&rt, gives(&rt, asked, Text("one")), 0);
}
