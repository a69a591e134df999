//! Keys that are held.

ghost use Rattle.saved_spec.specs.Devices.{key};
ghost use Rattle.saved_spec.specs.Ranges as range;

use crate::rows::Saved;
use machine_spec::Key;
use serde::Serializer;

// The letter of a key is a character, as its type says.
fn has_character(key: Key)
    ensures { range.IsKey key }
{
    match key {
        Key::One(letter) => {
            let _letter = letter;
        }
        _ => {}
    }
}

impl Saved for Key {
    ghost as_data = { key };

    ghost in_range = { λ k. range.IsKey k };

    fn send<S: Serializer>(&self, out: &mut S) -> Result<(), S::Error> {
        let mut scratch = [0u8; 4];
        let key = *self;
        has_character(key);
        out.str(key.name(&mut scratch))
    }
}
