//! The parts of a value, by its kind.

ghost use Rattle.std.specs.Prelude.{◌≡◌, map, Option};
ghost use Rattle.std.specs.Option.{option_map};
ghost use Rattle.project_json.specs.Parts.{value_named, member_of, members_in, items_in, text_in, digits_in, truth_in, is_null};
ghost use Rattle.project_json.specs.View.{tree, field};

use crate::json::{Json, Member};
use crate::text::Text;

/// The value of the first member with the name. `None` where none has it.
pub fn value_named<'a>(members: &'a [Member], name: &str) -> Option<&'a Json>
    ensures { option_map (λ j. tree j.now) result ≡ value_named name.now (map field members.now) }
{
    for member in members {
        if member.is_named(name) {
            return Some(member.value());
        }
    }
    None
}

/// The value of the object's member with the name. `None` where the value is no object or has no
/// such member.
pub fn member<'a>(json: &'a Json, name: &str) -> Option<&'a Json>
    ensures { option_map (λ j. tree j.now) result ≡ member_of (tree json.now) name.now }
{
    match json {
        Json::Object(members) => value_named(members.as_slice(), name),
        _ => None,
    }
}

/// The members of an object, in the order of the document. `None` where the value is no object.
pub fn members_of(json: &Json) -> Option<&[Member]>
    ensures { option_map (λ ms. map field ms.now) result ≡ members_in (tree json.now) }
{
    match json {
        Json::Object(members) => Some(members.as_slice()),
        _ => None,
    }
}

/// The items of a list. `None` where the value is no list.
pub fn items_of(json: &Json) -> Option<&[Json]>
    ensures { option_map (λ js. map tree js.now) result ≡ items_in (tree json.now) }
{
    match json {
        Json::List(items) => Some(items.as_slice()),
        _ => None,
    }
}

/// The text. `None` where the value is no text.
pub fn text_of(json: &Json) -> Option<&Text>
    ensures { option_map (λ t. t.now) result ≡ text_in (tree json.now) }
{
    match json {
        Json::Text(text) => Some(text),
        _ => None,
    }
}

/// A number's own text, such as `-12`. `None` where the value is no number.
pub fn digits_of(json: &Json) -> Option<&Text>
    ensures { option_map (λ t. t.now) result ≡ digits_in (tree json.now) }
{
    match json {
        Json::Number(number) => Some(number.digits()),
        _ => None,
    }
}

/// The value of a truth. `None` where the value is neither `true` nor `false`.
pub fn truth_of(json: &Json) -> Option<bool>
    ensures { result ≡ truth_in (tree json.now) }
{
    match json {
        Json::Truth(truth) => Some(*truth),
        _ => None,
    }
}

/// Whether the value is `null`.
pub fn is_null(json: &Json) -> bool
    ensures { result ≡ is_null (tree json.now) }
{
    matches!(json, Json::Null)
}
