//! Keys.

use super::Given::{Of, Text, Truth};
use super::{Given, NO_FIELD, World, gives_in, hold, of_one, opened};
use machine_spec::Key;
use opcode_table::Opcode;
use std::process::Abort;

// What is asked for, the keys that are held, and whether it is pressed.
type Pressed = (Given, &'static [Key], bool);

// Keys that are held or not.
static PRESSED: [Pressed; 40] = [
    (Truth(true), &[], false),
    (Text("\u{180e}"), &[Key::One('\u{180e}')], true),
    (Of(5000000), &[Key::One('\u{180e}')], false),
    (Text("336."), &[Key::One('1')], false),
    (Text("\u{ff}"), &[Key::One('\u{ff}'), Key::One('Z')], true),
    (Of(5000000), &[Key::One('Z'), Key::One('\u{d7ff}')], false),
    (
        Of(8999999999999999999),
        &[Key::One('A'), Key::One('\u{3c3}')],
        false,
    ),
    (Text("5"), &[Key::One('5')], true),
    (Text("b y"), &[Key::One('~')], false),
    (
        Text("\u{3c2}"),
        &[Key::One('\u{7f}'), Key::One('\u{3c2}')],
        true,
    ),
    (Text("\u{c9}"), &[], false),
    (Text("\u{212a}"), &[Key::One('\u{ff}')], false),
    (Text("down arrow"), &[Key::Down, Key::Right], true),
    (Text(" "), &[Key::One('\u{e9}')], false),
    (
        Text("\u{200b}"),
        &[Key::One('\u{0}'), Key::One('\u{200b}')],
        true,
    ),
    (Text("\u{e9}"), &[Key::One('\u{e9}'), Key::One('Z')], true),
    (Text("down arrow"), &[Key::One('\u{3c2}')], false),
    (Text("down arrow"), &[Key::One('\u{180e}'), Key::Down], true),
    (Text("a y"), &[], false),
    (Truth(true), &[Key::Up, Key::Enter], false),
    (Text("space"), &[Key::One('#'), Key::Space], true),
    (Text("SPACE"), &[Key::Enter, Key::Right], false),
    (Text("\u{d7ff}"), &[Key::One('\u{d7ff}')], true),
    (Of(5000000), &[Key::One('A')], false),
    (Text("down arrow"), &[Key::One('"'), Key::Down], true),
    (Text("down arrow"), &[Key::Down, Key::Space], true),
    (Text("\u{1f600}"), &[Key::One('~'), Key::One('B')], false),
    (Text("\u{0}"), &[Key::Up, Key::One('\u{0}')], true),
    (Text("9"), &[Key::Up, Key::One('Z')], false),
    (Text("space"), &[Key::Space], true),
    (Text("A"), &[Key::Left], false),
    (Text(" "), &[Key::One('\\'), Key::One('B')], false),
    (Text("left arrow"), &[Key::One('\\'), Key::Left], true),
    (Text("K"), &[Key::One('K')], true),
    (Text("space"), &[Key::One('\u{1c}'), Key::Space], true),
    (Text("\u{feff}"), &[Key::One('\u{feff}')], true),
    (Text("5"), &[Key::One('5'), Key::Up], true),
    (Truth(true), &[Key::One('K')], false),
    (Text("left arrow"), &[Key::One('\u{212a}'), Key::Left], true),
    (Truth(true), &[Key::Right], false),
];

// A world in which these keys are held.
fn holding(rt: &(impl Abort + AllocGlobal), keys: &[Key]) -> World {
    let mut world = opened(rt);
    for key in keys {
        world.devices.key_down(*key).expect(rt, "memory");
    }
    world
}

// Whether a key is pressed is told so.
fn is_pressed(rt: &(impl Abort + AllocGlobal), key: Given, held: &[Key], wanted: bool) -> bool {
    let asked = of_one(Opcode::SensingKeyPressed, NO_FIELD, ("KEY_OPTION", key));
    gives_in(rt, &holding(rt, held), asked, Truth(wanted))
}

#[test]
fn keys_are_pressed(rt: HostRuntime) {
    for (at, (key, held, wanted)) in PRESSED.iter().enumerate() {
        hold(&rt, is_pressed(&rt, *key, held, *wanted), at);
    }
}
