//! Keys that are held.

ghost use Rattle.std.specs.Prelude.{◌≡◌, ◌++◌, []};
ghost use Rattle.std.specs.List.{list_any};
ghost use Rattle.machine_spec.specs.Sensing.{is_key};
ghost use Rattle.machine_spec.specs.Line.{without_key};

use machine_spec::{Key, Keys};

// Whether two keys are the same.
fn is_same(key: &Key, other: &Key) -> bool
    ensures { result ≡ is_key key.now other.now }
{
    match key {
        Key::Space => matches!(other, Key::Space),
        Key::Enter => matches!(other, Key::Enter),
        Key::Left => matches!(other, Key::Left),
        Key::Right => matches!(other, Key::Right),
        Key::Up => matches!(other, Key::Up),
        Key::Down => matches!(other, Key::Down),
        Key::One(letter) => match other {
            Key::One(own) => *letter == *own,
            _ => false,
        },
    }
}

// Whether a key is among those that are held.
pub(crate) fn is_among(key: &Key, held: &[Key]) -> bool
    ensures { result ≡ list_any (is_key key.now) held.now }
{
    held.iter().any(|own| is_same(key, own))
}

// The keys without one.
pub(crate) fn without(key: &Key, held: Keys) -> Keys
    ensures { result ≡ without_key key.now held }
{
    let mut held = held.into_vec();
    held.retain(|own| !is_same(key, own));
    Keys::from_vec(held)
}
