//! Names of keys.

ghost use Rattle.std.specs.Prelude.{◌≡◌, chars};
ghost use Rattle.machine_spec.specs.Line.{key_name};
ghost use Rattle.machine_spec.specs.ScriptText.{one_key, key_of_rest};
ghost use Rattle.machine_spec.specs.Sensing.{key_named};

use crate::devices::Key;

// The key of one character, an ASCII letter in upper case; white space is no key.
fn of_one(text: &str) -> Option<Key>
    ensures { result ≡ one_key (chars text.now) }
{
    let mut characters = text.chars();
    let Some(first) = characters.next() else {
        return None;
    };
    if characters.next().is_some() || first.is_whitespace() {
        return None;
    }
    Some(Key::One(first.to_ascii_uppercase()))
}

impl Key {
    /// The key of a name in words, as `left arrow`.
    pub fn in_words(text: &str) -> Option<Key>
        ensures { result ≡ key_named text.now }
    {
        match text {
            "space" => Some(Key::Space),
            "enter" => Some(Key::Enter),
            "left arrow" => Some(Key::Left),
            "right arrow" => Some(Key::Right),
            "up arrow" => Some(Key::Up),
            "down arrow" => Some(Key::Down),
            _ => None,
        }
    }

    /// The key of a name: one in words, or one character, an ASCII letter taken in upper case. White space names no key.
    pub fn named(text: &str) -> Option<Key>
        ensures { result ≡ key_of_rest text.now }
    {
        match Key::in_words(text) {
            Some(key) => Some(key),
            None => of_one(text),
        }
    }

    /// The name of a key, which `scratch` may hold.
    pub fn name(self, scratch: &mut [u8; 4]) -> &str
        ensures { result.now ≡ key_name self }
    {
        match self {
            Key::Space => "space",
            Key::Enter => "enter",
            Key::Left => "left arrow",
            Key::Right => "right arrow",
            Key::Up => "up arrow",
            Key::Down => "down arrow",
            Key::One(letter) => letter.encode_utf8(scratch),
        }
    }
}
