//! Casts: a value and what it counts.

use super::Given::{Inf, Nan, NegInf, Of, Text, Truth};
use super::{Given, number, value};
use scratch_values::{to_number, to_text, to_truth};
use std::alloc::{AllocError, Global};
use std::process::Abort;

static NUMBERS: [(Given, Given); 50] = [
    (Text("\u{130}"), Of(0)),
    (Text("12E7"), Of(120000000000000)),
    (Truth(false), Of(0)),
    (Of(-2684121797), Of(-2684121797)),
    (Truth(true), Of(1000000)),
    (Text("SS"), Of(0)),
    (Text("5388147"), Of(5388147000000)),
    (Of(-3215918414), Of(-3215918414)),
    (Text("\u{feff}1811523 "), Of(0)),
    (Text("6"), Of(6000000)),
    (Of(106000000), Of(106000000)),
    (Text("4e-7"), Of(0)),
    (Text("999."), Of(999000000)),
    (Of(-598964), Of(-598964)),
    (Text("\u{3a3}"), Of(0)),
    (Text("32411314"), Of(32411314000000)),
    (Of(227000000), Of(227000000)),
    (Text("0B2655"), Of(0)),
    (Text("30853"), Of(30853000000)),
    (Of(305000000), Of(305000000)),
    (Text(" "), Of(0)),
    (Text("533432"), Of(533432000000)),
    (Of(-3575103187), Of(-3575103187)),
    (Text("inf"), Of(0)),
    (Text("9999999999999999999999999999999999999999"), Inf),
    (Of(500000), Of(500000)),
    (Text("ffi"), Of(0)),
    (Text("3897409332953"), Of(3897409332953000000)),
    (Of(3381867971), Of(3381867971)),
    (Text("z"), Of(0)),
    (Text("-1.306"), Of(-1306000)),
    (Of(-1301839), Of(-1301839)),
    (Text("STRASSE"), Of(0)),
    (Text("0x10"), Of(16000000)),
    (Of(-225000000), Of(-225000000)),
    (Text("b"), Of(0)),
    (Text("10"), Of(10000000)),
    (Of(248000000), Of(248000000)),
    (Text("i\u{307}"), Of(0)),
    (Text("895.35945355E-6"), Of(895)),
    (Of(-139027317), Of(-139027317)),
    (Text("\u{c9}"), Of(0)),
    (Text("0X77"), Of(119000000)),
    (Of(4557304178), Of(4557304178)),
    (Text("false"), Of(0)),
    (Text("7924336.998047"), Of(7924336998047)),
    (Of(-2491268377), Of(-2491268377)),
    (Text("any"), Of(0)),
    (Text("-653.26959528e83"), NegInf),
    (Of(1), Of(1)),
];

static TRUTHS: [(Given, bool); 34] = [
    (Text("\u{130}"), true),
    (Truth(false), false),
    (Of(-2684121797), true),
    (Truth(true), true),
    (Text("false"), false),
    (Text("12E7"), true),
    (Of(-3215918414), true),
    (Text(""), false),
    (Text("5388147"), true),
    (Of(106000000), true),
    (Text("SS"), true),
    (Of(-598964), true),
    (Text("\u{feff}1811523 "), true),
    (Of(227000000), true),
    (Text("4e-7"), true),
    (Of(305000000), true),
    (Text("\u{3a3}"), true),
    (Of(-3575103187), true),
    (Text("0B2655"), true),
    (Of(500000), true),
    (Text(" "), true),
    (Of(3381867971), true),
    (Text("6"), true),
    (Of(-1301839), true),
    (Text("inf"), true),
    (Of(-225000000), true),
    (Text("ffi"), true),
    (Of(248000000), true),
    (Text("z"), true),
    (Of(-139027317), true),
    (Text("STRASSE"), true),
    (Of(4557304178), true),
    (Text("b"), true),
    (Of(-2491268377), true),
];

static TEXTS: [(Given, &str); 34] = [
    (Text("\u{130}"), "\u{130}"),
    (Truth(false), "false"),
    (Of(-2684121797), "-2684.121797"),
    (Text("12E7"), "12E7"),
    (Truth(true), "true"),
    (Of(-3215918414), "-3215.918414"),
    (Text("5388147"), "5388147"),
    (Of(106000000), "106"),
    (Text("SS"), "SS"),
    (Of(-598964), "-0.598964"),
    (Text("\u{feff}1811523 "), "\u{feff}1811523 "),
    (Of(227000000), "227"),
    (Text("4e-7"), "4e-7"),
    (Of(305000000), "305"),
    (Text("\u{3a3}"), "\u{3a3}"),
    (Of(-3575103187), "-3575.103187"),
    (Text("0B2655"), "0B2655"),
    (Of(500000), "0.5"),
    (Text(" "), " "),
    (Of(3381867971), "3381.867971"),
    (Text("6"), "6"),
    (Of(-1301839), "-1.301839"),
    (Text("inf"), "inf"),
    (Of(-225000000), "-225"),
    (Text("ffi"), "ffi"),
    (Of(248000000), "248"),
    (Text("z"), "z"),
    (Of(-139027317), "-139.027317"),
    (Text("STRASSE"), "STRASSE"),
    (Of(4557304178), "4557.304178"),
    (Text("b"), "b"),
    (Of(-2491268377), "-2491.268377"),
    (Text("999."), "999."),
    (Of(1), "0.000001"),
];

fn each_number(rt: &impl Abort, alloc: Global) -> Result<(), AllocError> {
    for (given, want) in &NUMBERS {
        let value = value(rt, alloc, *given)?;
        assert_eq!(rt; to_number(&value), number(*want), "{given:?}");
    }
    Ok(())
}

fn each_truth(rt: &impl Abort, alloc: Global) -> Result<(), AllocError> {
    for (given, want) in &TRUTHS {
        let value = value(rt, alloc, *given)?;
        assert_eq!(rt; to_truth(&value), *want, "{given:?}");
    }
    Ok(())
}

fn each_text(rt: &impl Abort, alloc: Global) -> Result<(), AllocError> {
    for (given, want) in &TEXTS {
        let value = value(rt, alloc, *given)?;
        let text = to_text(alloc, &value)?;
        assert_eq!(rt; text.as_str(), *want, "{given:?}");
    }
    Ok(())
}

#[test]
fn numbers(rt: HostRuntime) {
    each_number(&rt, rt.alloc()).expect(&rt, "memory");
}

#[test]
fn truths(rt: HostRuntime) {
    each_truth(&rt, rt.alloc()).expect(&rt, "memory");
}

#[test]
fn texts(rt: HostRuntime) {
    each_text(&rt, rt.alloc()).expect(&rt, "memory");
}
