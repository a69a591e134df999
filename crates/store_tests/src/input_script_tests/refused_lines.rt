//! Lines that are refused.

use super::Wanted::{BadNumber, ClockBack, NotUtf8, OutOfRange, UnknownLine};
use super::{Wanted, read_one};

static UNKNOWN: [&str; 60] = [
    "jump",
    "flag ",
    " flag",
    "FLAG",
    "stop now",
    "down",
    "down ",
    "down ab",
    "down  ",
    "down \t",
    "down Space",
    "up",
    "down any",
    "up left  arrow",
    "down left arrow ",
    "mouse 1",
    "mouse 1 2 3",
    "button",
    "button sideways",
    "click",
    "click 1 2",
    "turbo",
    "turbo ON",
    "turbo on ",
    "answers",
    "Answer x",
    "frame",
    "frame 0 1",
    "frame 0 1 0 1",
    "frame 0  1 0",
    "frame 0 1 0 ",
    "\tflag",
    "flag\r",
    "\u{feff}flag",
    " ",
    " #",
    "mouse  1 2",
    "mouse 1 2 ",
    "down \u{a0}",
    "down \u{3000}",
    "down a\u{301}",
    "flag#",
    "frame\u{a0}0 1 0",
    "up ",
    "turbo off on",
    "\u{0}",
    "answers two words",
    "answers \u{e9}",
    "answers  ",
    "frame  up",
    "up\t\u{df}",
    "stop x",
    "jump on",
    "flag on",
    "frame 1764 4",
    "frame 732 9",
    "answers \t",
    "frame 1440 01 672 01",
    "frame 1215 4294967295\r",
    "mouse  -156 97",
];

static REFUSED: [(&str, u64, Wanted); 60] = [
    ("mouse a 0", 5, BadNumber),
    ("mouse 241 0", 0, OutOfRange),
    ("mouse -241 0", 0, OutOfRange),
    ("mouse 0 181", 0, OutOfRange),
    ("mouse 0 -181", 5, OutOfRange),
    ("mouse -0 0", 0, BadNumber),
    ("mouse 00 0", 0, BadNumber),
    ("mouse +1 0", 0, BadNumber),
    ("mouse 1.0 0", 0, BadNumber),
    ("mouse 99999999999999999999999 0", 0, OutOfRange),
    ("mouse a 999", 5, BadNumber),
    ("mouse 999 a", 0, BadNumber),
    ("click -1", 0, BadNumber),
    ("click 4294967296", 0, OutOfRange),
    ("click 01", 0, BadNumber),
    ("click x", 0, BadNumber),
    ("click ", 0, BadNumber),
    ("frame 0 0 0", 5, OutOfRange),
    ("frame 0 10001 0", 0, OutOfRange),
    ("frame 0 1 1000001", 5, OutOfRange),
    ("frame 9000000000001 1 0", 0, OutOfRange),
    ("frame -1 1 0", 0, BadNumber),
    ("frame 0 -0 0", 5, BadNumber),
    ("frame 00 1 0", 0, BadNumber),
    ("frame x 99999 0", 5, BadNumber),
    ("frame 99999999999999 x 0", 0, BadNumber),
    ("frame 99999999999999999999999999 1 0", 0, OutOfRange),
    ("frame 0 1 ", 0, BadNumber),
    ("click 18446744073709551616", 5, OutOfRange),
    ("frame 0 18446744073709551617 0", 5, OutOfRange),
    ("mouse 1e1 0", 0, BadNumber),
    ("click 0x1", 5, BadNumber),
    ("frame 1_0 1 0", 0, BadNumber),
    ("frame \u{661} 1 0", 5, BadNumber),
    ("frame +0 1 0", 5, BadNumber),
    ("click +1", 0, BadNumber),
    ("frame 627 17 179", 2000, ClockBack(2000, 627)),
    ("mouse -127 9000000000000", 0, OutOfRange),
    ("frame 77 18 138", 2000, ClockBack(2000, 77)),
    ("mouse 10001 -94", 0, OutOfRange),
    ("frame 1 10 485", 100, ClockBack(100, 1)),
    ("frame 1710 10001 809", 0, OutOfRange),
    ("frame 1888 21 1000001", 0, OutOfRange),
    ("frame 223 6 333", 2000, ClockBack(2000, 223)),
    ("frame 763 16 715", 1000, ClockBack(1000, 763)),
    ("frame 11  966", 0, BadNumber),
    ("frame 1399 10001 595", 0, OutOfRange),
    ("click \u{663}", 0, BadNumber),
    ("mouse 100000000000000000000 59", 2000, OutOfRange),
    ("frame 671 27 371", 1000, ClockBack(1000, 671)),
    ("frame 840 1000001 234", 1000, OutOfRange),
    ("click -0", 1000, BadNumber),
    ("frame 299 24 1000001", 1000, OutOfRange),
    ("click 9000000000001", 0, OutOfRange),
    ("frame 1390 4294967296 641", 1000, OutOfRange),
    ("frame 1867 25 ", 100, BadNumber),
    ("mouse 59 1000001", 0, OutOfRange),
    ("frame 909 5 4294967296", 0, OutOfRange),
    ("mouse -27 ", 1000, BadNumber),
    ("frame 1523 01 449", 2000, BadNumber),
];

static NOT_UTF8: [&[u8]; 9] = [
    b"answer \xff",
    b"\xff",
    b"#\xff",
    b"flag\xc3",
    b"down \xed\xa0\x80",
    b"answer \xc0\x80",
    b"down \xf5\x80\x80\x80",
    b"mouse 1 \xff",
    b"answer \xe2\x82",
];

#[test]
fn a_line_that_is_not_known(rt: HostRuntime) {
    for line in &UNKNOWN {
        let read = read_one(&rt, line.as_bytes(), 0);
        assert!(rt; UnknownLine.is_of(&read), "{line}");
    }
}

#[test]
fn a_number_that_is_none_or_out_of_its_range(rt: HostRuntime) {
    for (line, clock, wanted) in &REFUSED {
        let read = read_one(&rt, line.as_bytes(), *clock);
        assert!(rt; wanted.is_of(&read), "{line}");
    }
}

#[test]
fn a_line_that_is_not_utf8(rt: HostRuntime) {
    for line in &NOT_UTF8 {
        let read = read_one(&rt, line, 0);
        assert!(rt; NotUtf8.is_of(&read));
    }
}
