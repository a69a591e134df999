//! Texts, functions by name and random numbers: a few rows of each. What they make of values is tried in `operators`.

use super::Given::{Inf, Nan, NegInf, Of, Text, Truth};
use super::{
    Given, Pair, Single, gives, hold, of_one, of_two, opened, picks, sight, told, try_pairs,
    try_singles,
};
use opcode_table::Opcode;
use script_words::{CounterKind, Stop, pcg};
use std::process::Abort;

// Two bounds, the seed, the words drawn before, the number that is picked, and the words drawn behind it.
type Picked = (Given, Given, u64, u64, Given, u64);

// Joined texts.
static JOINED: [Pair; 10] = [
    (Text("ss"), Text("5\u{200b}"), Text("ss5\u{200b}")),
    (Text("10"), Truth(false), Text("10false")),
    (Of(-500000), Of(108000000), Text("-0.5108")),
    (Text("all"), Truth(true), Text("alltrue")),
    (
        Text("36893488147419103232e-7"),
        Text("0X1f"),
        Text("36893488147419103232e-70X1f"),
    ),
    (Of(-240000000), Text("0x0"), Text("-2400x0")),
    (Text("_stage_"), Text("\u{ff15}"), Text("_stage_\u{ff15}")),
    (
        Text("-2.5"),
        Text("421746.93992250"),
        Text("-2.5421746.93992250"),
    ),
    (
        Of(-865776852),
        Text("0.333333"),
        Text("-865.7768520.333333"),
    ),
    (Text(".5"), Of(71000000), Text(".571")),
];

// A place, a text and its character there.
static LETTERS: [Pair; 16] = [
    (Of(1000000), Text("1000000000"), Text("1")),
    (Of(-282000000), Truth(true), Text("")),
    (Of(7461395), Text("space"), Text("")),
    (
        Text("0x2"),
        Text(
            "\u{e9}\u{e9}\u{e9}\u{e9}\u{e9}\u{e9}\u{e9}\u{e9}\u{e9}\u{e9}\u{e9}\u{e9}\u{e9}\u{e9}\u{e9}x",
        ),
        Text("\u{e9}"),
    ),
    (Of(3587271), Truth(true), Text("u")),
    (Text("1.9"), Of(-78000000), Text("-")),
    (Of(251000000), Text("  Infinity "), Text("")),
    (Of(1524905), Text("\u{345}"), Text("\u{345}")),
    (Text("3"), Text("-1"), Text("")),
    (Of(2967788), Text("ABC"), Text("B")),
    (Of(79000000), Text("100"), Text("")),
    (Of(6969747), Of(201949095), Text("4")),
    (Text("5"), Of(132000000), Text("")),
    (Of(4270626721), Text("aBc"), Text("")),
    (Text("1.9"), Of(236000000), Text("2")),
    (Of(4822164154), Text("3"), Text("")),
];

// Texts and how many characters they have.
static LENGTHS: [Single; 10] = [
    (Of(-1507830430), Of(11000000)),
    (Text("true"), Of(4000000)),
    (Text("00"), Of(2000000)),
    (Text("\u{c}1e1\u{c}"), Of(5000000)),
    (Text("STRASSE"), Of(7000000)),
    (Text("-1e400"), Of(6000000)),
    (Text("0O7"), Of(3000000)),
    (Of(-670595), Of(9000000)),
    (Text("0x0"), Of(3000000)),
    (Of(-8434480685436515072), Of(21000000)),
];

// Texts and parts of them.
static PARTS: [Pair; 16] = [
    (Text("1e-1"), Truth(true), Truth(false)),
    (Of(-3680299433), Text("9"), Truth(true)),
    (Text("2999999.999999"), Of(4786148045), Truth(false)),
    (Of(454768), Text("54"), Truth(true)),
    (Text("1.9"), Text("1e5.0"), Truth(false)),
    (Text("-0X59f"), Text("ffi"), Truth(false)),
    (Text("-2.5"), Text("5"), Truth(true)),
    (Text("ABC"), Text("-0.000001"), Truth(false)),
    (Text("false"), Text("\n398\r"), Truth(false)),
    (Of(0), Text("all"), Truth(false)),
    (Of(186000000), Text("86"), Truth(true)),
    (Text("ALL"), Of(4103328406), Truth(false)),
    (Text("2"), Text("\u{e5}"), Truth(false)),
    (Text("9000000000000.000001"), Text("1E1"), Truth(false)),
    (Text("Last"), Text("FI"), Truth(false)),
    (Text("0b"), Text("\u{ff15}"), Truth(false)),
];

// The name of a function, a number, and what is told.
static FUNCTIONS: [(&'static str, Given, Given); 24] = [
    ("ceiling", Text("\u{3a9}"), Of(0)),
    ("asin", Of(-11000000), Nan),
    ("abs", Text("+.5"), Of(500000)),
    ("sqrt", Text("-1"), Nan),
    ("floor", Of(-209000000), Of(-209000000)),
    ("sin", Of(-3378824038), Of(-658359)),
    ("", Of(-236000000), Of(0)),
    ("cos", Of(-277762681), Of(135066)),
    ("unknown", Of(-394772651), Of(0)),
    ("\u{17f}in", Text("571691934668"), Of(-788011)),
    ("tan", Text("random"), Of(0)),
    ("a\u{17f}in", Of(-270995345), Nan),
    ("ABS", Of(75000000), Of(75000000)),
    ("abs ", Of(-331000000), Of(0)),
    ("sqrt", Of(814852347729098687), Of(902691723529)),
    ("sin", Text("7"), Of(121869)),
    ("atan", Of(-291707921), Of(-89803576)),
    ("ceiling", Of(-1539979), Of(-1000000)),
    ("tan", Text("ABC"), Of(0)),
    ("floor", Of(-347000000), Of(-347000000)),
    ("asin", Text("9223372036854775808"), Nan),
    ("cos", Text("5"), Of(996195)),
    ("acos", Text("0X"), Of(90000000)),
    ("atan", Of(-389124928), Of(-89852739)),
];

// Picked numbers.
static PICKED: [Picked; 12] = [
    (Of(-10000000), Nan, 1, 1000, Of(-8000000), 1001),
    (
        Text("1e0"),
        Of(1000000),
        10633418046919013884,
        0,
        Of(1000000),
        0,
    ),
    (Truth(true), Truth(true), 0, 1000, Of(1000000), 1000),
    (Of(-5000000), Text("-Infinity"), 2, 0, NegInf, 0),
    (Of(-4656310822), Nan, 2, 1, Of(-264852260), 2),
    (
        Of(127000000),
        Of(202000000),
        799915734750447757,
        7,
        Of(134000000),
        8,
    ),
    (Text("Infinity"), Of(-3502322073188455533), 1, 0, Inf, 0),
    (Text("9e12"), Nan, 1, 0, Of(1815909092780000000), 1),
    (
        Text("9e12"),
        Of(-1723647889396350296),
        1,
        0,
        Of(440037633951212054),
        1,
    ),
    (Text("Infinity"), Text("1"), 2, 0, Inf, 0),
    (Of(-12000000), Of(9000000), 1, 0, Of(-8000000), 1),
    (Truth(false), Nan, 42, 0, Of(0), 0),
];

#[test]
fn texts_are_joined(rt: HostRuntime) {
    try_pairs(&rt, Opcode::OperatorJoin, ("STRING1", "STRING2"), &JOINED);
}

#[test]
fn letters_are_found_by_place(rt: HostRuntime) {
    try_pairs(
        &rt,
        Opcode::OperatorLetterOf,
        ("LETTER", "STRING"),
        &LETTERS,
    );
}

#[test]
fn characters_are_counted(rt: HostRuntime) {
    try_singles(&rt, Opcode::OperatorLength, "STRING", &LENGTHS);
}

#[test]
fn a_text_stands_within_another(rt: HostRuntime) {
    try_pairs(
        &rt,
        Opcode::OperatorContains,
        ("STRING1", "STRING2"),
        &PARTS,
    );
}

#[test]
fn functions_are_found_by_name(rt: HostRuntime) {
    for (at, (name, number, wanted)) in FUNCTIONS.iter().enumerate() {
        let field = ("OPERATOR", *name, None);
        let asked = of_one(Opcode::OperatorMathOp, field, ("NUM", *number));
        hold(&rt, gives(&rt, asked, *wanted), at);
    }
}

// A number is picked in the world that begins.
fn is_picked(
    rt: &(impl Abort + AllocGlobal),
    bounds: (Given, Given),
    words: (u64, u64),
    wanted: (Given, u64),
) -> bool {
    let asked = of_two(Opcode::OperatorRandom, ("FROM", "TO"), bounds);
    let world = opened(rt);
    let is_picked = picks(rt, &sight(&world, None), asked, words, wanted);
    drop(world);
    is_picked
}

#[test]
fn numbers_are_picked(rt: HostRuntime) {
    for (at, (from, to, seed, before, wanted, after)) in PICKED.iter().enumerate() {
        let (words, wanted) = ((*seed, *before), (*wanted, *after));
        hold(&rt, is_picked(&rt, (*from, *to), words, wanted), at);
    }
}

#[test]
fn no_word_is_left(rt: HostRuntime) {
    let world = opened(&rt);
    let mut words = pcg(1, (1 << 62) - 1);
    let bounds = (Of(1_000_000), Of(2_000_000));
    let asked = of_two(Opcode::OperatorRandom, ("FROM", "TO"), bounds);
    let told = told(&rt, &sight(&world, None), asked, &mut words);
    let full = Stop::Counter {
        which: CounterKind::Words,
    };
    hold(&rt, told == Err(full), 0);
    drop(world);
}
