//! Functions of a number by name.

use super::Given::{Nan, Of};
use super::{Given, number};
use operators::mathop;

// The name of a function, a number, and what is told.
static FUNCTIONS: [(&str, Given, Given); 40] = [
    ("asin", Of(-11000000), Nan),
    ("ABS", Of(312393313), Of(312393313)),
    ("floor", Of(-209000000), Of(-209000000)),
    ("sin", Of(-3378824038), Of(-658359)),
    ("", Of(-236000000), Of(0)),
    ("sqrt", Of(254000000), Of(15937377)),
    ("cos", Of(-277762681), Of(135066)),
    ("unknown", Of(-394772651), Of(0)),
    ("", Of(-479458), Of(0)),
    ("tan", Of(-296000000), Of(2050304)),
    ("a\u{17f}in", Of(-270995345), Nan),
    ("ABS", Of(75000000), Of(75000000)),
    ("ceiling", Of(-359255823), Of(-359000000)),
    ("sqrt", Of(-18000000), Nan),
    ("\u{17f}in", Of(-2046095134), Of(914207)),
    ("abs ", Of(-331000000), Of(0)),
    ("abs", Of(-105000000), Of(105000000)),
    ("sqrt", Of(121086307), Of(11003922)),
    ("sin", Of(-332000000), Of(469472)),
    ("cos", Of(245014619), Of(-422386)),
    ("atan", Of(-291707921), Of(-89803576)),
    ("ceiling", Of(-1539979), Of(-1000000)),
    ("floor", Of(221000000), Of(221000000)),
    ("asin", Of(863303), Of(59692707)),
    ("", Of(-3947458043), Of(0)),
    ("atan", Of(328105), Of(18165368)),
    ("floor", Of(50000000), Of(50000000)),
    ("abs ", Of(300000000), Of(0)),
    ("tan", Of(328000000), Of(-624869)),
    ("\u{17f}in", Of(-278487291), Of(989011)),
    ("cos", Of(-897517), Of(999864)),
    ("acos", Of(302000000), Nan),
    ("asin", Of(-98000000), Nan),
    ("sin", Of(383609437), Of(400486)),
    ("tan", Of(-1020790029), Of(1678180)),
    ("ceiling", Of(-202858831), Of(-202000000)),
    ("acos", Of(1849320), Nan),
    ("atan", Of(-133000000), Of(-89569161)),
    ("acos", Of(-3615589004), Nan),
    ("sqrt", Of(299743432), Of(17313100)),
];

#[test]
fn functions_are_found_by_name(rt: HostRuntime) {
    for (name, given, wanted) in &FUNCTIONS {
        let told = mathop(rt.alloc(), name, number(*given));
        assert!(rt; told == Ok(number(*wanted)), "{name}");
    }
}
