//! Names of keys.

ghost use Rattle.std.specs.Prelude.{◌≡◌};
ghost use Rattle.saved_spec.specs.Rules as rules;

use machine_spec::Key;

// Whether a text is the name of a key, a letter in upper case.
pub(crate) fn is_key_name(text: &str) -> bool
    ensures { result ≡ rules.is_key_name text.now }
{
    let mut scratch = [0u8; 4];
    match Key::named(text) {
        Some(key) => key.name(&mut scratch) == text,
        None => false,
    }
}
