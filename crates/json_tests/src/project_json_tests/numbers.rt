//! Numbers: those that keep their own text, and those that are refused.

use super::{at_place, has_items, is_number, stops, tree};
use std::process::Abort;

static READ: [&str; 30] = [
    "0",
    "-0",
    "7",
    "10",
    "-12",
    "100",
    "1234567890",
    "1.5",
    "0.50",
    "0.0",
    "-0.0",
    "1.000",
    "-10.010",
    "0.1234567890",
    "1E+2",
    "1e2",
    "1E2",
    "1e400",
    "1e-07",
    "12e5",
    "0e0",
    "-0e-0",
    "0E+00",
    "1e0123456789",
    "1.5e10",
    "-1.50E-300",
    "9007199254740993",
    "18446744073709551616",
    "123456789012345678901234567890",
    "0.1000000000000000055511151231257827",
];

// No number, and the place where it stops to begin one. None has a comma, so that a list stops
// at the same place behind its bracket.
static REFUSED: [(&str, usize); 66] = [
    ("-", 1),
    ("-x", 1),
    ("- 1", 1),
    ("--1", 1),
    ("-+1", 1),
    ("-.5", 1),
    ("-.", 1),
    ("-e5", 1),
    ("-Infinity", 1),
    ("-NaN", 1),
    ("+1", 0),
    ("+Infinity", 0),
    ("00", 1),
    ("01", 1),
    ("-00", 2),
    ("-01", 2),
    ("00.5", 1),
    ("01e5", 1),
    ("0x10", 1),
    ("0b1", 1),
    ("0o7", 1),
    (".", 0),
    (".5", 0),
    ("e5", 0),
    ("1.", 2),
    ("0.", 2),
    ("-0.", 3),
    ("12.", 3),
    ("1.x", 2),
    ("1..5", 2),
    ("1.e5", 2),
    ("1.E5", 2),
    ("1.-5", 2),
    ("1. 5", 2),
    ("1 .5", 2),
    ("1.5.5", 3),
    ("1.5x", 3),
    ("1e", 2),
    ("1E", 2),
    ("0e", 2),
    ("1e+", 3),
    ("1e-", 3),
    ("1ex", 2),
    ("1e.5", 2),
    ("1e 5", 2),
    ("1ee5", 2),
    ("1e+x", 3),
    ("1e+ 5", 3),
    ("1e+-5", 3),
    ("1e++5", 3),
    ("1e5e5", 3),
    ("1e5.5", 3),
    ("1e5+", 3),
    ("1.5e", 4),
    ("1.5e+", 5),
    ("1.5ex", 4),
    ("-1.5E-", 6),
    ("1_000", 1),
    ("1'000", 1),
    ("1f", 1),
    ("1-2", 1),
    ("1/2", 1),
    ("$1", 0),
    ("\u{ff11}", 0),
    ("1\u{663}", 1),
    ("1e\u{663}", 2),
];

// The number is read as its own text, by itself and as an item.
fn keeps_its_text(rt: &(impl Abort + AllocGlobal), number: &str) {
    is_number(rt, &tree(rt, number), number);
    let list = format!(in rt.alloc(); "[{number},{number} ]").expect(rt, "memory");
    let json = tree(rt, list.as_str());
    has_items(rt, &json, 2);
    is_number(rt, at_place(rt, &json, 0), number);
    is_number(rt, at_place(rt, &json, 1), number);
}

#[test]
fn numbers_keep_their_text(rt: HostRuntime) {
    for number in &READ {
        keeps_its_text(&rt, number);
    }
}

#[test]
fn refuses_what_is_no_number(rt: HostRuntime) {
    for (text, at) in &REFUSED {
        stops(&rt, rt.alloc(), text, *at);
        let list = format!(in rt.alloc(); "[{text}]").expect(&rt, "memory");
        stops(&rt, rt.alloc(), list.as_str(), at.saturating_add(1));
    }
}
