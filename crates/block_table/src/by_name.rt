//! Items of a block by name.

ghost use Rattle.std.specs.Prelude.{◌≡◌};
ghost use Rattle.std.specs.Option.{option_copied};
ghost use Rattle.project_spec.specs.Linked.{named};

use project_json::Text;

/// The first item with the name.
pub fn named<'a, T>(name: &str, items: &'a [(Text, T)]) -> Option<&'a T>
    ensures { option_copied result ≡ named name.now items.now }
{
    for (other, item) in items {
        if other.as_str() == name {
            return Some(item);
        }
    }
    None
}
