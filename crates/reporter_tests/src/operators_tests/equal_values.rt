//! Which values are equal.

use super::Given::{NegInf, Of, Text, Truth};
use super::{Given, value, values};
use operators::{is_among, is_equal, place_of};

// Two values, and whether they are equal.
static EQUAL: [(Given, Given, bool); 40] = [
    (Text("INFINITY"), Text("K"), false),
    (Text("\u{c5}"), Text("\u{c5}"), true),
    (Text("0x3"), Of(3000000), true),
    (Text("\u{7f}"), Text(" \u{7f}"), false),
    (Text("-1e400"), NegInf, true),
    (Truth(false), Text("aBc"), false),
    (Truth(true), Of(1000000), true),
    (Of(-2710298275), Of(-933534950), false),
    (Of(1954754998), Text("r\rn"), false),
    (Of(386000000), Text("386"), true),
    (Text("\u{c9}"), Text("\u{1680}2"), false),
    (Truth(false), Text("00"), true),
    (Truth(true), Truth(true), true),
    (Of(1905353391), Text("36893488147419103232e-7"), false),
    (Text("45.6789e2"), Of(4567890000), true),
    (Text("-Infinity"), NegInf, true),
    (Of(290000000), Text("0xA"), false),
    (Of(389000000), Text("389"), true),
    (Of(-363000000), Of(-6779107621478510229), false),
    (Text("inf"), Text("inf"), true),
    (Of(-1106132), Text("-1.106132"), true),
    (Text("\u{1f431}"), Of(1049940), false),
    (Truth(false), Text("0x10 "), false),
    (Of(-112000000), Text("-112"), true),
    (Text("0.0000005"), Of(8816776708105612838), false),
    (Of(-1062810), Text(" -1.06281"), true),
    (Text("1.5"), Of(1500000), true),
    (Of(-245000000), Text("-245"), true),
    (Text("2"), Text("-1"), false),
    (Text("0.0"), NegInf, false),
    (Of(4208025912621434765), Text("2999999.999999"), false),
    (Text("z"), Of(-205000000), false),
    (Of(293000000), Text("293"), true),
    (Text("2999999.999999"), Text("\t7\n"), false),
    (Of(-176000000), Text("-176"), true),
    (Of(-1225628997), Text(" -1225.628997"), true),
    (Of(9000000), Text("0x2"), false),
    (Of(-633108315), Of(-633108315), true),
    (
        Text("9000000000000.0000004"),
        Text("99999999999999999999e-10"),
        false,
    ),
    (Text("3"), Of(-500000), false),
];

// Items, a value, and how many stand before the first one that is equal to it.
static PLACES: [(&'static [Given], Given, Option<usize>); 30] = [
    (&[], Text("\n-.110E-23\u{2028}"), None),
    (
        &[Of(-327000000), Of(9000000000000000000), Of(-36703660)],
        Of(-327000000),
        Some(0),
    ),
    (&[Text("\u{df}")], Text("\u{df}"), Some(0)),
    (
        &[Text(""), Text(""), Text("1"), Text("43E+519")],
        Of(500000),
        None,
    ),
    (&[Text("\u{1f600}")], Text("\u{3c3}"), None),
    (&[Text("1"), Text("b"), Text("4")], Text("B"), Some(1)),
    (
        &[
            Text("1e00000000000000000000000005"),
            Of(848907),
            Text("0X5339F"),
            Text("\u{212a}"),
            Text("b"),
            Text("b"),
        ],
        Text("b"),
        Some(4),
    ),
    (&[], Text("2999999.999999"), None),
    (&[Text("\u{3c3}")], Text("\u{3a3}"), Some(0)),
    (&[Text("a"), Text(" "), Text("")], Text("1e1"), None),
    (
        &[
            Text("b"),
            Text("b"),
            Text(" "),
            Of(-34000000),
            Text("a"),
            Text("1e18446744073709551617"),
        ],
        Text("fAlSe"),
        None,
    ),
    (&[Text("2")], Text("2"), Some(0)),
    (
        &[Text(" "), Text(""), Text("1"), Text("b")],
        Text("B"),
        Some(3),
    ),
    (&[], Text("\u{200b}"), None),
    (
        &[
            Text("6418654.259508"),
            Text("3000000.000001"),
            Text("\u{1f600}"),
            Of(-2483746088),
        ],
        Truth(false),
        None,
    ),
    (&[Text("last"), Text(""), Text("1")], Text("1"), Some(2)),
    (
        &[
            Text("-1"),
            Of(-771726163),
            Text("2999999.999999"),
            Of(-3212917704522143171),
            Text("random"),
            Text("1e-400"),
        ],
        Of(3201632824),
        None,
    ),
    (&[Of(198000000)], Of(3086134239), None),
    (
        &[Text("a"), Text("\u{df}"), Text("\u{df}")],
        Text("a"),
        Some(0),
    ),
    (&[Text(""), Text("0.10")], Text(""), Some(0)),
    (&[], Truth(true), None),
    (&[], Text("-0.5"), None),
    (&[Truth(true), Of(213000000)], Of(213000000), Some(1)),
    (&[], Text("007"), None),
    (&[Text("1e1"), Text("b")], Text("b"), Some(1)),
    (
        &[
            Text("\u{3c2}"),
            Text(""),
            Text("1.9"),
            Text("2.5"),
            Of(1083483),
            Of(-2965603700),
        ],
        Text("\u{3c2}"),
        Some(0),
    ),
    (
        &[
            Text(" 10 "),
            Of(63000000),
            Text(" "),
            Text("1"),
            Text("a"),
            Text("\u{df}"),
        ],
        Text("- 5"),
        None,
    ),
    (&[Text("NaN"), Text("ffi")], Text("NaN"), Some(0)),
    (&[], Text("1E1"), None),
    (&[Of(213199)], Text("0.213199"), Some(0)),
];

// Items, a value, and whether one of them is equal to it.
static HELD: [(&'static [Given], Given, bool); 30] = [
    (&[], Text("\n-.110E-23\u{2028}"), false),
    (
        &[Of(-327000000), Of(9000000000000000000), Of(-36703660)],
        Of(-327000000),
        true,
    ),
    (&[Text("\u{df}")], Text("\u{df}"), true),
    (
        &[Text(""), Text(""), Text("1"), Text("43E+519")],
        Of(500000),
        false,
    ),
    (&[Text("\u{1f600}")], Text("\u{3c3}"), false),
    (&[Text("1"), Text("b"), Text("4")], Text("B"), true),
    (
        &[
            Text("1e00000000000000000000000005"),
            Of(848907),
            Text("0X5339F"),
            Text("\u{212a}"),
            Text("b"),
            Text("b"),
        ],
        Text("b"),
        true,
    ),
    (&[], Text("2999999.999999"), false),
    (&[Text("\u{3c3}")], Text("\u{3a3}"), true),
    (&[Text("a"), Text(" "), Text("")], Text("1e1"), false),
    (
        &[
            Text("b"),
            Text("b"),
            Text(" "),
            Of(-34000000),
            Text("a"),
            Text("1e18446744073709551617"),
        ],
        Text("fAlSe"),
        false,
    ),
    (&[Text("2")], Text("2"), true),
    (
        &[Text(" "), Text(""), Text("1"), Text("b")],
        Text("B"),
        true,
    ),
    (&[], Text("\u{200b}"), false),
    (
        &[
            Text("6418654.259508"),
            Text("3000000.000001"),
            Text("\u{1f600}"),
            Of(-2483746088),
        ],
        Truth(false),
        false,
    ),
    (&[Text("last"), Text(""), Text("1")], Text("1"), true),
    (
        &[
            Text("-1"),
            Of(-771726163),
            Text("2999999.999999"),
            Of(-3212917704522143171),
            Text("random"),
            Text("1e-400"),
        ],
        Of(3201632824),
        false,
    ),
    (&[Of(198000000)], Of(3086134239), false),
    (
        &[Text("a"), Text("\u{df}"), Text("\u{df}")],
        Text("a"),
        true,
    ),
    (&[Text(""), Text("0.10")], Text(""), true),
    (&[], Truth(true), false),
    (&[], Text("-0.5"), false),
    (&[Truth(true), Of(213000000)], Of(213000000), true),
    (&[], Text("007"), false),
    (&[Text("1e1"), Text("b")], Text("b"), true),
    (
        &[
            Text("\u{3c2}"),
            Text(""),
            Text("1.9"),
            Text("2.5"),
            Of(1083483),
            Of(-2965603700),
        ],
        Text("\u{3c2}"),
        true,
    ),
    (
        &[
            Text(" 10 "),
            Of(63000000),
            Text(" "),
            Text("1"),
            Text("a"),
            Text("\u{df}"),
        ],
        Text("- 5"),
        false,
    ),
    (&[Text("NaN"), Text("ffi")], Text("NaN"), true),
    (&[], Text("1E1"), false),
    (&[Of(213199)], Text("0.213199"), true),
];

#[test]
fn values_are_equal(rt: HostRuntime) {
    for (at, (a, b, wanted)) in EQUAL.iter().enumerate() {
        let (a, b) = (value(&rt, *a), value(&rt, *b));
        assert!(rt; is_equal(&a, &b) == *wanted, "row {at}");
    }
}

#[test]
fn an_equal_item_is_found(rt: HostRuntime) {
    for (at, (items, item, wanted)) in PLACES.iter().enumerate() {
        let (items, item) = (values(&rt, items), value(&rt, *item));
        assert!(rt; place_of(&item, &items) == *wanted, "row {at}");
    }
}

#[test]
fn an_equal_item_is_among_others(rt: HostRuntime) {
    for (at, (items, item, wanted)) in HELD.iter().enumerate() {
        let (items, item) = (values(&rt, items), value(&rt, *item));
        assert!(rt; is_among(&item, &items) == *wanted, "row {at}");
    }
}
