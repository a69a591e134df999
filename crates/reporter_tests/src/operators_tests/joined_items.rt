//! The contents of lists.

use super::Given::{Of, Text, Truth};
use super::{Given, text, values};
use operators::contents;
use script_words::Stop;

// Items, and the contents as a text.
static CONTENTS: [(&'static [Given], &'static str); 40] = [
    (&[], ""),
    (
        &[Text("\u{df}"), Text("\u{1f600}"), Text("b")],
        "\u{df}\u{1f600}b",
    ),
    (
        &[Text("\u{1f600}"), Text("\u{1f600}")],
        "\u{1f600}\u{1f600}",
    ),
    (&[Text("\u{df}")], "\u{df}"),
    (
        &[Text(""), Text(""), Text("1"), Text("43E+519")],
        "  1 43E+519",
    ),
    (&[Text("b")], "b"),
    (&[Text("a")], "a"),
    (&[Text("1"), Text("b"), Text("4")], "1b4"),
    (
        &[Text("\u{1f600}"), Text("+-5"), Text("a")],
        "\u{1f600} +-5 a",
    ),
    (&[Text("1")], "1"),
    (&[Text("\u{3c3}")], "\u{3c3}"),
    (&[Text("1"), Text("4")], "14"),
    (
        &[
            Text("\u{1f600}"),
            Text("\u{1c}5"),
            Text("Stage"),
            Text("\u{1f600}"),
        ],
        "\u{1f600} \u{1c}5 Stage \u{1f600}",
    ),
    (
        &[
            Text("a"),
            Text("\u{1c}5"),
            Text("s"),
            Text(" "),
            Text("b"),
            Text("\u{df}"),
        ],
        "a \u{1c}5 s   b \u{df}",
    ),
    (
        &[
            Text("b"),
            Text("b"),
            Text(" "),
            Of(-34000000),
            Text("a"),
            Text("1e18446744073709551617"),
        ],
        "b b   -34 a 1e18446744073709551617",
    ),
    (&[Text("\n"), Text("\u{1f600}")], "\n\u{1f600}"),
    (&[Of(314000000)], "314"),
    (&[Text("1"), Text("5e-7"), Text(" 0x10")], "1 5e-7  0x10"),
    (&[Text("1"), Text("b")], "1b"),
    (&[Text("a"), Text("\u{1f600}")], "a\u{1f600}"),
    (&[Text("false"), Text("a")], "false a"),
    (
        &[
            Text("\u{df}"),
            Text("-.681E-63"),
            Text("\u{1f600}"),
            Text(" "),
            Text(""),
            Text("\u{1f600}"),
        ],
        "\u{df} -.681E-63 \u{1f600}    \u{1f600}",
    ),
    (&[Text("\u{df}"), Text("\u{3c2}")], "\u{df}\u{3c2}"),
    (
        &[
            Text("\u{df}"),
            Text("1e-400"),
            Text("\u{200b}"),
            Truth(false),
        ],
        "\u{df} 1e-400 \u{200b} false",
    ),
    (&[Text("b"), Text("\u{1e9e}"), Text(" ")], "b\u{1e9e} "),
    (&[Text(""), Text("0.10")], " 0.10"),
    (&[Text("1"), Text("\u{df}"), Text("")], "1 \u{df} "),
    (&[Truth(true), Of(213000000)], "true 213"),
    (&[Text("1.5"), Of(-1385548)], "1.5 -1.385548"),
    (
        &[Text("0.0000014999"), Text("\u{b}3"), Text("a")],
        "0.0000014999 \u{b}3 a",
    ),
    (
        &[Text("+"), Text("1"), Of(5399689885422127593), Truth(false)],
        "+ 1 5399689885422.127593 false",
    ),
    (
        &[
            Text(" "),
            Text("\u{3c3}\u{3b1}\u{3c2}"),
            Of(2443470467),
            Text("1"),
        ],
        "  \u{3c3}\u{3b1}\u{3c2} 2443.470467 1",
    ),
    (
        &[Text("1e"), Of(-4743152288), Text("\u{1f600}")],
        "1e -4743.152288 \u{1f600}",
    ),
    (
        &[
            Text("1"),
            Text("ffi"),
            Text(" "),
            Text("\u{c5}"),
            Truth(false),
            Text("010"),
        ],
        "1 ffi   \u{c5} false 010",
    ),
    (&[Text("NaN"), Text("ffi")], "NaN ffi"),
    (
        &[
            Text(" "),
            Text("\u{e5}"),
            Text("0x0"),
            Text("\u{df}"),
            Text("00x1"),
            Text("LAST"),
        ],
        "  \u{e5} 0x0 \u{df} 00x1 LAST",
    ),
    (&[Text(""), Text("\u{1f600}"), Text("a")], " \u{1f600} a"),
    (&[Text("2"), Text("b"), Text(" ")], "2b "),
    (&[Text("a"), Text(""), Text("")], "a  "),
    (&[Text("\u{df}"), Text("a"), Text("-1")], "\u{df} a -1"),
];

#[test]
fn items_are_joined(rt: HostRuntime) {
    for (at, (items, wanted)) in CONTENTS.iter().enumerate() {
        let items = values(&rt, items);
        assert!(rt; items.len() <= 200_000);
        let told = contents(rt.alloc(), &items);
        assert!(rt; told == Ok(text(&rt, wanted)), "row {at}");
    }
}
