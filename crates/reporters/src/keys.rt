//! Keys by name.

ghost use Rattle.std.specs.Prelude.{◌≡◌, chars};
ghost use Rattle.machine_spec.specs.Sensing as machine;

use devices::Devices;
use machine_spec::Key;

// The key of the first character of a text, an ASCII letter in upper case; the empty text is no key.
fn key_of_chars(text: &str) -> Option<Key>
    ensures { result ≡ machine.key_of_chars (chars text.now) }
{
    match text.chars().next() {
        None => None,
        Some(' ') => Some(Key::Space),
        Some(letter) => Some(Key::One(letter.to_ascii_uppercase())),
    }
}

// The key that a text means: a key's name, else its first character.
fn key_of(text: &str) -> Option<Key>
    ensures { result ≡ machine.key_of text.now }
{
    match Key::in_words(text) {
        Some(key) => Some(key),
        None => key_of_chars(text),
    }
}

// Whether the key is held that a text means; `any` is whether a key is held.
pub(crate) fn is_pressed(text: &str, devices: &Devices) -> bool
    ensures { result ≡ machine.key_pressed text.now devices.now }
{
    if text == "any" {
        return !devices.keys().is_empty();
    }
    match key_of(text) {
        Some(key) => devices.is_down(&key),
        None => false,
    }
}
