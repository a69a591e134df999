//! Lines that are read.

use super::Wanted::{Answer, Button, Click, Down, Flag, Frame, Mouse, Nothing, Stop, Turbo, Up};
use super::{Wanted, read_one};
use machine_spec::Key;

static GOOD: [(&str, u64, Wanted); 60] = [
    ("down \u{200b}", 5, Down(Key::One('\u{200b}'))),
    ("down \u{0}", 5, Down(Key::One('\u{0}'))),
    ("down \u{1c}", 0, Down(Key::One('\u{1c}'))),
    ("down \u{df}", 5, Down(Key::One('\u{df}'))),
    ("down \u{130}", 0, Down(Key::One('\u{130}'))),
    ("mouse -240 -180", 0, Mouse(-240, -180)),
    ("mouse 240 180", 0, Mouse(240, 180)),
    ("# ok \u{e9}", 0, Nothing),
    ("", 0, Nothing),
    ("down \u{1f600}", 0, Down(Key::One('\u{1f600}'))),
    ("flag", 0, Flag),
    ("stop", 9000000000000, Stop),
    ("turbo on", 0, Turbo(true)),
    ("turbo off", 9000000000000, Turbo(false)),
    ("button down", 9000000000000, Button(true)),
    ("button up", 9000000000000, Button(false)),
    ("answer", 0, Answer("")),
    ("answer ", 9000000000000, Answer("")),
    ("answer  x", 0, Answer(" x")),
    ("answer a b", 9000000000000, Answer("a b")),
    ("#", 9000000000000, Nothing),
    ("# x", 0, Nothing),
    (
        "frame 9000000000000 10000 1000000",
        0,
        Frame(9000000000000, 10000, 1000000),
    ),
    ("mouse 240 -180", 9000000000000, Mouse(240, -180)),
    ("mouse -240 180", 9000000000000, Mouse(-240, 180)),
    ("click 0", 9000000000000, Click(0)),
    ("click 4294967295", 0, Click(4294967295)),
    ("frame 812 29 622", 0, Frame(812, 29, 622)),
    ("up \u{3c2}", 0, Up(Key::One('\u{3c2}'))),
    ("down \u{3c3}", 0, Down(Key::One('\u{3c3}'))),
    ("frame 1772 5 424", 0, Frame(1772, 5, 424)),
    ("mouse 113 107", 100, Mouse(113, 107)),
    ("down \u{c9}", 2000, Down(Key::One('\u{c9}'))),
    ("frame 582 3 10001", 0, Frame(582, 3, 10001)),
    ("down A", 0, Down(Key::One('A'))),
    ("down B", 0, Down(Key::One('B'))),
    ("mouse 192 14", 0, Mouse(192, 14)),
    ("frame 1496 29 611", 0, Frame(1496, 29, 611)),
    ("frame 1823 7 867", 0, Frame(1823, 7, 867)),
    ("answer  ", 2000, Answer(" ")),
    ("frame 1458 15 583", 100, Frame(1458, 15, 583)),
    ("mouse 216 46", 2000, Mouse(216, 46)),
    ("click 10001", 0, Click(10001)),
    ("up k", 0, Up(Key::One('K'))),
    ("down \u{1}", 0, Down(Key::One('\u{1}'))),
    ("mouse -177 43", 2000, Mouse(-177, 43)),
    ("mouse -61 69", 1000, Mouse(-61, 69)),
    ("up \u{212a}", 1000, Up(Key::One('\u{212a}'))),
    ("click 1", 0, Click(1)),
    ("up enter", 100, Up(Key::Enter)),
    ("frame 492 2 914", 0, Frame(492, 2, 914)),
    ("down 5", 0, Down(Key::One('5'))),
    ("mouse 108 85", 0, Mouse(108, 85)),
    ("frame 714 5 803", 0, Frame(714, 5, 803)),
    ("answer x", 0, Answer("x")),
    ("mouse 189 115", 1000, Mouse(189, 115)),
    ("answer \"", 0, Answer("\"")),
    ("mouse -143 0", 0, Mouse(-143, 0)),
    ("frame 4294967296 10 425", 1000, Frame(4294967296, 10, 425)),
    ("up b", 1000, Up(Key::One('B'))),
];

#[test]
fn each_is_the_line_that_it_says(rt: HostRuntime) {
    for (line, clock, wanted) in &GOOD {
        let text = format!(in rt.alloc(); "{line}\n").expect(&rt, "memory");
        let read = read_one(&rt, text.as_bytes(), *clock);
        assert!(rt; wanted.is_of(&read), "{line}");
    }
}
