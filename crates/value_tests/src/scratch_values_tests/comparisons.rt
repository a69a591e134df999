//! Which of two values is less, whether one contains the other, and texts without case.

use super::Given::{Inf, Nan, NegInf, Of, Text, Truth};
use super::{Given, value};
use scratch_values::{compare, contains, fold};
use std::alloc::{AllocError, Global};
use std::cmp::Ordering::{self, Equal, Greater, Less};
use std::process::Abort;

// Rows of the rules.
static RULES: [(Given, Given, Ordering); 21] = [
    (Text("010"), Text("10"), Equal),
    (Text("ABC"), Text("abc"), Equal),
    (Text(" "), Of(0), Less),
    (Text(""), Of(0), Less),
    (Text("0x10"), Of(16_000_000), Equal),
    (Text("1e1"), Text("10"), Equal),
    (Text(" 5 "), Of(5_000_000), Equal),
    (Inf, Of(5_000_000), Greater),
    (Inf, Inf, Equal),
    (NegInf, Text("-Infinity"), Equal),
    (Nan, Of(0), Greater),
    (Truth(true), Of(1_000_000), Equal),
    (Of(9_000_000), Text("10"), Less),
    (Text("10"), Text("1a"), Less),
    (Text("1a"), Of(9_000_000), Less),
    (Text("\u{df}"), Text("SS"), Equal),
    (Text("\u{130}"), Text("i\u{307}"), Equal),
    (Text("\u{3c3}"), Text("\u{3c2}"), Equal),
    (Text("\u{fb03}"), Text("FFI"), Equal),
    (Text("\u{ffff}"), Text("\u{10000}"), Less),
    (Text("\u{1f431}"), Text("\u{ffe6}"), Greater),
];

static ORDERS: [(Given, Given, Ordering); 56] = [
    (Of(160000000), Truth(true), Greater),
    (Text("i\u{307}"), Of(-73106478), Greater),
    (Text("SS"), Text("\u{3a3}"), Less),
    (Text("\u{3c2}"), Text("z"), Greater),
    (Of(1442979), Text("\t57637885 "), Less),
    (Truth(false), Of(1352201), Less),
    (Truth(true), Text("-1261"), Greater),
    (Of(-1878373345), Text("\n-.878E+4 "), Greater),
    (Of(825678855), Of(-2681557415), Greater),
    (Text("aBc"), Text("abc"), Equal),
    (Text("ffi"), Truth(true), Less),
    (Of(-292000000), Of(7714145579010357127), Less),
    (Text("-Infinity"), Of(1540731339), Less),
    (Truth(false), Text("STRASSE"), Less),
    (Truth(false), Truth(true), Less),
    (Text("\u{1f431}"), Nan, Greater),
    (Text("940.98540712E+747"), Truth(true), Greater),
    (Of(-1561409), Truth(true), Less),
    (Truth(true), Truth(false), Greater),
    (Truth(false), Of(-3852480211), Greater),
    (Of(-9000000000000000000), NegInf, Greater),
    (Text("\u{2003}035164304149265814 "), Inf, Equal),
    (Of(1712230), Truth(false), Greater),
    (Text("\u{e9}"), Of(3776633690), Greater),
    (Text("\t-0B6971f "), Text("+97516485526833131"), Less),
    (Text("\u{e9}"), Text("-0B55F"), Greater),
    (Of(-3943891663), Text("stra\u{df}e"), Less),
    (Truth(true), Of(13000000), Less),
    (Truth(true), Text("b"), Greater),
    (Of(4559889807), Text("-397203"), Greater),
    (Of(4915445331274181641), Of(-19000000), Greater),
    (Text("+16"), Text("0x10"), Equal),
    (Text("stra\u{df}e"), Truth(true), Less),
    (Of(-357000000), Of(1462776228), Less),
    (Text("-Infinity"), Of(473917), Less),
    (Truth(true), Text("\u{200b}-6994992\r"), Less),
    (Text("i\u{307}"), Inf, Greater),
    (Text("Infinity"), Truth(false), Greater),
    (Of(-272000000), Truth(false), Less),
    (Truth(false), Of(-452692900), Greater),
    (Of(199000000), Truth(false), Greater),
    (Text("0X6556"), Of(-3672493183), Greater),
    (Text("6"), Text("Infinity"), Less),
    (Text("ss"), Text("876"), Greater),
    (Of(-1230886), Text("0x6F"), Less),
    (Truth(true), Text("i\u{307}"), Greater),
    (Of(8776998532701355359), Text("-0O78g"), Greater),
    (Of(-294000000), Of(-472139078583640331), Greater),
    (Text("+0Bg"), Truth(false), Less),
    (Of(-1871759152403339647), Of(-60000000), Less),
    (Text(" "), Of(942852855), Less),
    (Truth(true), Text("1e1"), Less),
    (Text("+.731e+795"), Truth(false), Greater),
    (Of(-1000000), Truth(false), Less),
    (Truth(true), Of(-1580297), Greater),
    (Text("STRASSE"), Of(-1734798), Greater),
];

static PARTS: [(Given, Given, bool); 50] = [
    (Text("ABC"), Text("bc"), true),
    (Text("ABC"), Text("x"), false),
    (Of(123_000_000), Text("23"), true),
    (Text("stra\u{df}e"), Text("SS"), true),
    (Text("a\u{1f431}b"), Text("\u{1f431}B"), true),
    (Text(""), Text(""), true),
    (Of(160000000), Truth(true), false),
    (Text("i\u{307}"), Of(-73106478), false),
    (Text("SS"), Text("\u{3a3}"), false),
    (Of(1442979), Text("\t57637885 "), false),
    (Truth(false), Of(1352201), false),
    (Truth(true), Text("-1261"), false),
    (Text("b"), Text(""), true),
    (Of(825678855), Of(-2681557415), false),
    (Text("ffi"), Truth(true), false),
    (Truth(false), Truth(true), false),
    (Text("\u{1f431}"), Nan, false),
    (Text("\u{feff}0Xg\r"), Of(0), true),
    (Of(-9000000000000000000), NegInf, false),
    (Of(-371000000), Of(1000000), true),
    (Truth(false), Text(""), true),
    (Of(1712230), Truth(false), false),
    (Text("\u{e9}"), Of(3776633690), false),
    (Text("\u{3c2}"), Text("z"), false),
    (Of(-1878373345), Text("\n-.878E+4 "), false),
    (Truth(true), Of(13000000), false),
    (Truth(true), Text("b"), false),
    (Text("aBc"), Text("abc"), true),
    (Of(-292000000), Of(7714145579010357127), false),
    (Text("stra\u{df}e"), Truth(true), false),
    (Truth(true), Truth(false), false),
    (Text("\u{2003}035164304149265814 "), Inf, false),
    (Of(-1561409), Truth(true), false),
    (Text("0X6556"), Of(-3672493183), false),
    (Text("\t-0B6971f "), Text("+97516485526833131"), false),
    (Of(4559889807), Text("-397203"), false),
    (Truth(false), Of(-3852480211), false),
    (Truth(true), Text("i\u{307}"), false),
    (Text("last"), Text(""), true),
    (Of(-357000000), Of(1462776228), false),
    (Text("940.98540712E+747"), Truth(true), false),
    (Text("i\u{307}"), Inf, false),
    (Of(-272000000), Truth(false), false),
    (Text("STRASSE"), Of(-1734798), false),
    (Text("6"), Text("Infinity"), false),
    (Of(-3943891663), Text("stra\u{df}e"), false),
    (Truth(false), Of(-452692900), false),
    (Truth(false), Text("STRASSE"), false),
    (Text("any"), Text(""), true),
    (Of(4915445331274181641), Of(-19000000), false),
];

static FOLDS: [(&str, &str); 11] = [
    ("ABC", "abc"),
    ("\u{df}", "ss"),
    ("SS", "ss"),
    ("\u{130}", "i\u{307}"),
    ("\u{3a3}", "\u{3c3}"),
    ("\u{3c2}", "\u{3c3}"),
    ("\u{39f}\u{3a3}", "\u{3bf}\u{3c3}"),
    ("\u{fb03}", "ffi"),
    ("\u{10400}", "\u{10428}"),
    ("\u{1f431}", "\u{1f431}"),
    ("", ""),
];

fn each_order(
    rt: &impl Abort,
    alloc: Global,
    rows: &[(Given, Given, Ordering)],
) -> Result<(), AllocError> {
    for (left, right, want) in rows {
        let a = value(rt, alloc, *left)?;
        let b = value(rt, alloc, *right)?;
        assert_eq!(rt; compare(alloc, &a, &b)?, *want, "{left:?} {right:?}");
    }
    Ok(())
}

fn each_part(rt: &impl Abort, alloc: Global) -> Result<(), AllocError> {
    for (left, right, want) in &PARTS {
        let a = value(rt, alloc, *left)?;
        let b = value(rt, alloc, *right)?;
        assert_eq!(rt; contains(alloc, &a, &b)?, *want, "{left:?} {right:?}");
    }
    Ok(())
}

fn each_fold(rt: &impl Abort, alloc: Global) -> Result<(), AllocError> {
    for (text, want) in &FOLDS {
        let folded = fold(alloc, text)?;
        assert_eq!(rt; folded.as_str(), *want, "{text}");
    }
    Ok(())
}

#[test]
fn orders_of_the_rules(rt: HostRuntime) {
    each_order(&rt, rt.alloc(), &RULES).expect(&rt, "memory");
}

#[test]
fn orders(rt: HostRuntime) {
    each_order(&rt, rt.alloc(), &ORDERS).expect(&rt, "memory");
}

#[test]
fn parts(rt: HostRuntime) {
    each_part(&rt, rt.alloc()).expect(&rt, "memory");
}

#[test]
fn folds(rt: HostRuntime) {
    each_fold(&rt, rt.alloc()).expect(&rt, "memory");
}
