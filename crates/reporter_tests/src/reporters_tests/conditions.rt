//! Comparisons and conditions.

use super::Given::{Inf, Of, Text, Truth};
use super::{Given, Single, gives, hold, of_two, try_singles};
use opcode_table::Opcode;
use std::cmp::Ordering::{self, Equal, Greater, Less};
use std::process::Abort;

// Two sides, and how the first compares with the second.
type Compared = (Given, Given, Ordering);

// Two sides, whether both hold, and whether one does.
type Joint = (Given, Given, bool, bool);

// Comparisons.
static COMPARED: [Compared; 40] = [
    (Text("INFINITY"), Text("K"), Less),
    (Text("\u{7f}"), Text("+Infinity"), Greater),
    (Text("\u{c5}"), Text("\u{c5}"), Equal),
    (Text("0x3"), Of(3000000), Equal),
    (Of(1712541), Truth(false), Greater),
    (Text("0x10"), Text("41788086."), Less),
    (Truth(true), Of(1000000), Equal),
    (Text("0.001"), Of(-113000000), Greater),
    (Of(-2710298275), Of(-933534950), Less),
    (Truth(false), Text(" false"), Greater),
    (Of(386000000), Text("386"), Equal),
    (Text("-5."), Text("123456789012345678901234567890"), Less),
    (Of(-1406111944), Of(583902), Less),
    (Truth(true), Truth(true), Equal),
    (Text("00"), Of(0), Equal),
    (Text("NaN"), Text("698."), Greater),
    (Of(188872083407386223), Text("\u{2126}"), Less),
    (Of(3203227519053873337), Truth(true), Greater),
    (Of(389000000), Text("389"), Equal),
    (Of(-1106132), Text("-1.106132"), Equal),
    (Text("-9000000000000"), Truth(false), Less),
    (Text("\u{1f431}"), Of(1049940), Greater),
    (Truth(false), Text("0x10 "), Less),
    (Of(-253000000), Text("apple"), Less),
    (Of(-112000000), Text("-112"), Equal),
    (Text("1.5"), Of(1500000), Equal),
    (Of(-301000000), Text("1e1"), Less),
    (Text("2"), Text("-1"), Greater),
    (Text("-2.5"), Truth(false), Less),
    (Of(4208025912621434765), Text("2999999.999999"), Greater),
    (Of(-373000000), Of(54000000), Less),
    (Text("z"), Of(-205000000), Greater),
    (Text("e5"), Text("E5"), Equal),
    (Text("2999999.999999"), Text("\t7\n"), Greater),
    (Of(-176000000), Text("-176"), Equal),
    (Of(9000000), Text("0x2"), Greater),
    (Of(-1136577), Text("\u{1fb3}"), Less),
    (Of(-633108315), Of(-633108315), Equal),
    (
        Text("9000000000000.0000004"),
        Text("99999999999999999999e-10"),
        Greater,
    ),
    (Text("0b101"), Text("ffi"), Less),
];

// Conditions of two sides.
static JOINT: [Joint; 34] = [
    (Truth(true), Text("-.5"), true, true),
    (Text("1000000000"), Truth(false), false, true),
    (Inf, Of(2790282685), true, true),
    (Text("0"), Text("abc"), false, true),
    (Text("Last"), Of(-188520286), true, true),
    (Text("fi"), Text("false"), false, true),
    (Of(8999999999999999999), Of(200000000), true, true),
    (Text("0o8"), Text("0"), false, true),
    (Truth(true), Text("0x"), true, true),
    (Text("0x0"), Of(4252156835133964684), true, true),
    (Text("\u{130}"), Text(""), false, true),
    (Truth(false), Text("\u{3a3}"), false, true),
    (Truth(false), Truth(false), false, false),
    (Of(-3575103187), Of(4557304178), true, true),
    (Of(3381867971), Truth(false), false, true),
    (Truth(false), Of(359887), false, true),
    (Text("-NaN"), Text("SS"), true, true),
    (Text("-1.306"), Text("false"), false, true),
    (Text(""), Text("999."), false, true),
    (Truth(false), Text(""), false, false),
    (Text("5388147"), Text("-NaN"), true, true),
    (Truth(true), Truth(false), false, true),
    (Text("false"), Of(892064558), false, true),
    (Text(""), Truth(false), false, false),
    (Of(-1301839), Text("6"), true, true),
    (Text("any"), Truth(false), false, true),
    (Truth(false), Text("0OF"), false, true),
    (Text("false"), Text("false"), false, false),
    (Of(359887), Text("10"), true, true),
    (Of(-400138871), Text(""), false, true),
    (Truth(false), Truth(true), false, true),
    (Text("4e-7"), Text("\u{c9}"), true, true),
    (Text(""), Text("\u{3a3}"), false, true),
    (Truth(false), Of(-3694662991), false, true),
];

// Negations.
static NEGATED: [Single; 20] = [
    (Text("\u{130}"), Truth(false)),
    (Text("5388147"), Truth(false)),
    (Of(106000000), Truth(false)),
    (Text("4e-7"), Truth(false)),
    (Text("0B2655"), Truth(false)),
    (Text("6"), Truth(false)),
    (Of(500000), Truth(false)),
    (Text("b"), Truth(false)),
    (Of(-1301839), Truth(false)),
    (Of(-225000000), Truth(false)),
    (Of(4557304178), Truth(false)),
    (Text("1e"), Truth(false)),
    (Text("533432"), Truth(false)),
    (
        Text("9999999999999999999999999999999999999999"),
        Truth(false),
    ),
    (Of(-383000000), Truth(false)),
    (Text("NaN"), Truth(false)),
    (Text("\u{200b}331\u{2028}"), Truth(false)),
    (Text("895.35945355E-6"), Truth(false)),
    (Text("infinity"), Truth(false)),
    (Text("ss"), Truth(false)),
];

// An operator with two sides gives this truth.
fn is(rt: &(impl Abort + AllocGlobal), op: Opcode, sides: (Given, Given), wanted: bool, at: usize) {
    let asked = of_two(op, ("OPERAND1", "OPERAND2"), sides);
    hold(rt, gives(rt, asked, Truth(wanted)), at);
}

#[test]
fn sides_are_compared(rt: HostRuntime) {
    for (at, (a, b, order)) in COMPARED.iter().enumerate() {
        let sides = (*a, *b);
        is(&rt, Opcode::OperatorGt, sides, matches!(order, Greater), at);
        is(&rt, Opcode::OperatorLt, sides, matches!(order, Less), at);
        is(
            &rt,
            Opcode::OperatorEquals,
            sides,
            matches!(order, Equal),
            at,
        );
    }
}

#[test]
fn conditions_are_joined(rt: HostRuntime) {
    for (at, (a, b, both, either)) in JOINT.iter().enumerate() {
        let sides = (*a, *b);
        is(&rt, Opcode::OperatorAnd, sides, *both, at);
        is(&rt, Opcode::OperatorOr, sides, *either, at);
    }
}

#[test]
fn conditions_are_negated(rt: HostRuntime) {
    try_singles(&rt, Opcode::OperatorNot, "OPERAND", &NEGATED);
}
