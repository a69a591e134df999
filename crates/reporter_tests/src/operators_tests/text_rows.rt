//! Texts and their characters.

use super::Given::{Inf, Nan, Of, Text, Truth};
use super::{Given, number, text, value};
use operators::{char_count, has_text, joined, letter};
use scratch_values::Value;
use script_words::Stop;
use std::process::Abort;

// Two values, and their texts joined.
static JOINED: [(Given, Given, &'static str); 30] = [
    (Text("ss"), Text("5\u{200b}"), "ss5\u{200b}"),
    (Text("++Infinity"), Of(1000000), "++Infinity1"),
    (
        Text("11E-9"),
        Of(-2543164321580831640),
        "11E-9-2543164321580.83164",
    ),
    (Text("10"), Truth(false), "10false"),
    (Truth(false), Text("2"), "false2"),
    (Text("+"), Text("0x10"), "+0x10"),
    (Of(-500000), Of(108000000), "-0.5108"),
    (Text("\u{fb01}"), Truth(false), "\u{fb01}false"),
    (Text("any"), Text("5."), "any5."),
    (Text("all"), Truth(true), "alltrue"),
    (Of(3330754090), Truth(false), "3330.75409false"),
    (Inf, Text("3"), "Infinity3"),
    (
        Text("36893488147419103232e-7"),
        Text("0X1f"),
        "36893488147419103232e-70X1f",
    ),
    (Text("2"), Text(" 10 "), "2 10 "),
    (Text("\u{3a3}"), Of(-343485), "\u{3a3}-0.343485"),
    (Of(-240000000), Text("0x0"), "-2400x0"),
    (Text("fAlSe"), Text(" "), "fAlSe "),
    (
        Of(-866775026202910152),
        Text("\u{200b}-0"),
        "-866775026202.910152\u{200b}-0",
    ),
    (Text("_stage_"), Text("\u{ff15}"), "_stage_\u{ff15}"),
    (Text("19"), Text("\u{e5}"), "19\u{e5}"),
    (Text("space"), Truth(false), "spacefalse"),
    (Text("-2.5"), Text("421746.93992250"), "-2.5421746.93992250"),
    (Of(-9000000000000000000), Text("."), "-9000000000000."),
    (Text("48410"), Text("5f"), "484105f"),
    (Of(-865776852), Text("0.333333"), "-865.7768520.333333"),
    (Text("\u{fffd}"), Truth(false), "\u{fffd}false"),
    (Truth(true), Text("false"), "truefalse"),
    (Text(".5"), Of(71000000), ".571"),
    (
        Truth(false),
        Text(
            "\u{df}\u{df}\u{df}\u{df}\u{df}\u{df}\u{df}\u{df}\u{df}\u{df}\u{df}\u{df}\u{df}\u{df}\u{df}\u{df}",
        ),
        "false\u{df}\u{df}\u{df}\u{df}\u{df}\u{df}\u{df}\u{df}\u{df}\u{df}\u{df}\u{df}\u{df}\u{df}\u{df}\u{df}",
    ),
    (Text(" "), Text("1e400"), " 1e400"),
];

// A place, a value, and the character of its text there.
static LETTERS: [(Given, Given, &'static str); 40] = [
    (Of(1000000), Text("1000000000"), "1"),
    (Of(-282000000), Truth(true), ""),
    (Of(3000000), Truth(true), "u"),
    (Of(3866046447116360665), Truth(false), ""),
    (Of(0), Text("0b"), ""),
    (Of(2182786869800096723), Text("9223372036854775807"), ""),
    (Of(5366139), Text("-0.000001"), "0"),
    (Of(3886606), Text(" false"), "a"),
    (Of(3587271), Truth(true), "u"),
    (Of(1000000), Of(-127000000), "-"),
    (Of(1332866), Text("-0O8F"), "-"),
    (Of(1000000), Of(-932580635), "-"),
    (Of(-285000000), Truth(false), ""),
    (Of(4000000), Text("27330.9774616"), "3"),
    (Of(0), Text("-2.5"), ""),
    (Of(4715799852), Of(101000000), ""),
    (Of(-7095545095428385658), Text("2"), ""),
    (Of(1524905), Text("\u{345}"), "\u{345}"),
    (Of(3078740), Text("abc"), "c"),
    (Of(7106140), Of(1196056474), "5"),
    (Of(1564595611), Text("abc"), ""),
    (Of(5000000), Text("\u{a0}"), ""),
    (Of(6000000), Text("-2"), ""),
    (Of(1000000), Text("\u{fb03}"), "\u{fb03}"),
    (Of(2000000), Of(8999999999999999999), "9"),
    (Of(3000000), Of(-206391), "."),
    (Of(729209), Text("+5"), ""),
    (Of(6969747), Of(201949095), "4"),
    (Of(4000000), Of(-367000000), "7"),
    (Inf, Truth(false), ""),
    (Of(1000000), Text("019.02589431E+399"), "0"),
    (Of(3063043), Text("\u{c5}"), ""),
    (Of(-500000), Text(" 2 "), ""),
    (Of(7000000), Text(""), ""),
    (Of(5590632), Text(" 0x10\r"), "0"),
    (Of(-3040154281), Text("0x10"), ""),
    (Of(4822164154), Text("3"), ""),
    (Of(7000000), Text("-0.5"), ""),
    (
        Of(5000000),
        Text(
            "\u{e9}\u{e9}\u{e9}\u{e9}\u{e9}\u{e9}\u{e9}\u{e9}\u{e9}\u{e9}\u{e9}\u{e9}\u{e9}\u{e9}\u{e9}x",
        ),
        "\u{e9}",
    ),
    (Of(4705106), Nan, ""),
];

// A value, and how many characters its text has.
static LENGTHS: [(Given, Given); 30] = [
    (Of(-1507830430), Of(11000000)),
    (Of(1207684267460117833), Of(20000000)),
    (Of(437671869), Of(10000000)),
    (Text("true"), Of(4000000)),
    (Truth(false), Of(5000000)),
    (Text("I"), Of(1000000)),
    (Text("00"), Of(2000000)),
    (Text("\u{1f}"), Of(1000000)),
    (Text("45.6789e2"), Of(9000000)),
    (Text("\u{c}1e1\u{c}"), Of(5000000)),
    (Of(-2004244681), Of(12000000)),
    (Text("\u{e9}"), Of(1000000)),
    (Text("STRASSE"), Of(7000000)),
    (Text(".439E-9"), Of(7000000)),
    (Text("all"), Of(3000000)),
    (Text("-1e400"), Of(6000000)),
    (
        Text(
            "\u{e9}\u{e9}\u{e9}\u{e9}\u{e9}\u{e9}\u{e9}\u{e9}\u{e9}\u{e9}\u{e9}\u{e9}\u{e9}\u{e9}\u{e9}x",
        ),
        Of(16000000),
    ),
    (Text("\u{663}"), Of(1000000)),
    (Text("0O7"), Of(3000000)),
    (Text("\u{3a3}"), Of(1000000)),
    (Text("\u{200b}"), Of(1000000)),
    (Of(-670595), Of(9000000)),
    (Text("007"), Of(3000000)),
    (Of(25000000), Of(2000000)),
    (Text("0x0"), Of(3000000)),
    (Text("_stage_"), Of(7000000)),
    (Truth(true), Of(4000000)),
    (Of(-8434480685436515072), Of(21000000)),
    (Text(""), Of(0)),
    (Text("\u{1f600}"), Of(1000000)),
];

// Two values, and whether the text of the second stands within that of the first.
static PARTS: [(Given, Given, bool); 40] = [
    (Text("1e-1"), Truth(true), false),
    (Truth(true), Text("UE"), true),
    (Of(1066875), Text("1e1"), false),
    (Of(236000000), Text("\u{80}"), false),
    (Text("-0.000001"), Text("0"), true),
    (Of(-3369869052), Text("\u{1f}"), false),
    (Text("3.13"), Text("."), true),
    (Of(0), Of(1700898), false),
    (Of(454768), Text("54"), true),
    (Text("aBc"), Text("4611686018427387904"), false),
    (Text("s"), Of(333000000), false),
    (Of(386000000), Text("0.5"), false),
    (Of(-269315), Text("1"), true),
    (Of(500000), Text(".5"), true),
    (
        Text("\u{130}"),
        Text(
            "\u{df}\u{df}\u{df}\u{df}\u{df}\u{df}\u{df}\u{df}\u{df}\u{df}\u{df}\u{df}\u{df}\u{df}\u{df}\u{df}",
        ),
        false,
    ),
    (Text("-2.5"), Text("5"), true),
    (Of(-1501133127250762451), Of(6274640781546269500), false),
    (Text("5f"), Text("F"), true),
    (Truth(false), Text("E"), true),
    (Text("1"), Truth(false), false),
    (Of(-136000000), Text("36"), true),
    (
        Text("\u{ab70}"),
        Text(
            "\u{df}\u{df}\u{df}\u{df}\u{df}\u{df}\u{df}\u{df}\u{df}\u{df}\u{df}\u{df}\u{df}\u{df}\u{df}\u{df}",
        ),
        false,
    ),
    (Text("0e99999999999999999999"), Text("99999"), true),
    (Truth(false), Text("ls"), true),
    (Of(-3262531567), Text("3"), true),
    (Text("aBc"), Text("\u{2028}5"), false),
    (Text("false"), Text("L"), true),
    (Text("7"), Text("-9000000000000.000001"), false),
    (Text("9e12"), Text("9"), true),
    (Of(1197485419), Truth(false), false),
    (Truth(false), Of(-4712426481), false),
    (Of(186000000), Text("1"), true),
    (Text("NaN"), Text("all"), false),
    (Text("Infinity1"), Text("_stage_"), false),
    (
        Text(
            "\u{e9}\u{e9}\u{e9}\u{e9}\u{e9}\u{e9}\u{e9}\u{e9}\u{e9}\u{e9}\u{e9}\u{e9}\u{e9}\u{e9}\u{e9}x",
        ),
        Text("\u{e9}\u{e9}"),
        true,
    ),
    (Truth(false), Text("ALSE"), true),
    (Of(-22000000), Text("FI"), false),
    (Text("544.71059408E+503"), Text("+5"), true),
    (Truth(false), Text("0.000001"), false),
    (Text("-0"), Text("-0"), true),
];

#[test]
fn texts_are_joined(rt: HostRuntime) {
    for (at, (a, b, wanted)) in JOINED.iter().enumerate() {
        let (a, b) = (value(&rt, *a), value(&rt, *b));
        let told = joined(rt.alloc(), &a, &b);
        assert!(rt; told == Ok(text(&rt, wanted)), "row {at}");
    }
}

#[test]
fn letters_are_found_by_place(rt: HostRuntime) {
    for (at, (place, of, wanted)) in LETTERS.iter().enumerate() {
        let of = value(&rt, *of);
        let told = letter(rt.alloc(), &of, number(*place));
        assert!(rt; told == Ok(text(&rt, wanted)), "row {at}");
    }
}

#[test]
fn characters_are_counted(rt: HostRuntime) {
    for (at, (of, wanted)) in LENGTHS.iter().enumerate() {
        let of = value(&rt, *of);
        assert!(rt; char_count(&of) == number(*wanted), "row {at}");
    }
}

#[test]
fn a_text_stands_within_another(rt: HostRuntime) {
    for (at, (whole, part, wanted)) in PARTS.iter().enumerate() {
        let (whole, part) = (value(&rt, *whole), value(&rt, *part));
        let told = has_text(rt.alloc(), &whole, &part);
        assert!(rt; told == Ok(*wanted), "row {at}");
    }
}

// A text of this many letters.
fn letters(rt: &(impl Abort + AllocGlobal), count: usize) -> Value {
    let mut text = String::new(rt.alloc());
    for _ in 0..count {
        text.push('x').expect(rt, "memory");
    }
    super::text(rt, text.as_str())
}

#[test]
fn a_text_is_joined_up_to_its_limit(rt: HostRuntime) {
    let long = letters(&rt, 1_048_575);
    let whole = joined(rt.alloc(), &long, &letters(&rt, 1));
    assert!(rt; whole == Ok(letters(&rt, 1_048_576)));
    let over = joined(rt.alloc(), &long, &letters(&rt, 2));
    assert!(rt; over == Err(Stop::Text { length: 1_048_577 }));
}
