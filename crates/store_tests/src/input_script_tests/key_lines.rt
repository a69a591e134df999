//! Keys as lines name them.

use super::Wanted::{Down, UnknownLine, Up};
use super::read_one;
use machine_spec::Key;

static KEYS: [(&str, Key); 42] = [
    ("space", Key::Space),
    ("a", Key::One('A')),
    ("A", Key::One('A')),
    ("b", Key::One('B')),
    ("B", Key::One('B')),
    ("enter", Key::Enter),
    ("left arrow", Key::Left),
    ("right arrow", Key::Right),
    ("up arrow", Key::Up),
    ("down arrow", Key::Down),
    ("1", Key::One('1')),
    ("\u{e9}", Key::One('\u{e9}')),
    ("\u{c9}", Key::One('\u{c9}')),
    ("\u{df}", Key::One('\u{df}')),
    ("k", Key::One('K')),
    ("\u{212a}", Key::One('\u{212a}')),
    ("\u{3c3}", Key::One('\u{3c3}')),
    ("\u{3c2}", Key::One('\u{3c2}')),
    ("5", Key::One('5')),
    ("\u{1f600}", Key::One('\u{1f600}')),
    ("\u{200b}", Key::One('\u{200b}')),
    ("\u{0}", Key::One('\u{0}')),
    ("\u{1c}", Key::One('\u{1c}')),
    ("\u{7f}", Key::One('\u{7f}')),
    ("\u{130}", Key::One('\u{130}')),
    ("z", Key::One('Z')),
    ("Z", Key::One('Z')),
    ("#", Key::One('#')),
    ("\"", Key::One('"')),
    ("\u{17f}", Key::One('\u{17f}')),
    ("\u{1f64f}", Key::One('\u{1f64f}')),
    ("\u{30b4}", Key::One('\u{30b4}')),
    ("\u{1f64a}", Key::One('\u{1f64a}')),
    ("\u{2050}", Key::One('\u{2050}')),
    ("'", Key::One('\'')),
    ("\u{2059}", Key::One('\u{2059}')),
    ("O", Key::One('O')),
    ("^", Key::One('^')),
    ("\u{1f611}", Key::One('\u{1f611}')),
    ("\u{1f605}", Key::One('\u{1f605}')),
    ("\u{184}", Key::One('\u{184}')),
    ("\u{21b}", Key::One('\u{21b}')),
];

static NO_KEYS: [&str; 21] = [
    "ab",
    "",
    " ",
    "Space",
    "SPACE",
    "left",
    "Left Arrow",
    "\t",
    "\u{a0}",
    "\u{3000}",
    "\u{85}",
    "a\u{301}",
    "any",
    "\u{2028}",
    "left arrow ",
    " left arrow",
    "Enter",
    "\u{202f}",
    "\u{2002}",
    "\u{2008}",
    "\u{2029}",
];

#[test]
fn a_key_is_pressed_and_released(rt: HostRuntime) {
    for (name, key) in &KEYS {
        let down = format!(in rt.alloc(); "down {name}").expect(&rt, "memory");
        let pressed = read_one(&rt, down.as_bytes(), 0);
        assert!(rt; Down(*key).is_of(&pressed), "{name}");
        let up = format!(in rt.alloc(); "up {name}").expect(&rt, "memory");
        let released = read_one(&rt, up.as_bytes(), 0);
        assert!(rt; Up(*key).is_of(&released), "{name}");
    }
}

#[test]
fn no_other_text_is_a_key(rt: HostRuntime) {
    for name in &NO_KEYS {
        let down = format!(in rt.alloc(); "down {name}").expect(&rt, "memory");
        let read = read_one(&rt, down.as_bytes(), 0);
        assert!(rt; UnknownLine.is_of(&read), "{name}");
    }
}
