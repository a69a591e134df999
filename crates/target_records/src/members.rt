//! Members of an object that hold numbers.

ghost use Rattle.std.specs.Prelude.{◌≡◌, ◌<◌, ◌^◌, map, length, [], IfOk};
ghost use Rattle.project_json.specs.Size.{members_size};
ghost use Rattle.project_json.specs.Tree.{fields_of};
ghost use Rattle.project_json.specs.View.{tree, field};
ghost use Rattle.project_spec.specs.Values as told;
ghost use Rattle.json_shapes.specs.Reads.{Reads};
ghost use Rattle.json_shapes.specs.Shapes as shape;

use json_shapes::{Fault, Place, defaulted_members, present};
use project_json::Member;
use project_spec::num;
use scratch_number::Num;
use std::alloc::Global;

// A number, or the default where it is absent or null.
pub(crate) fn defaulted_num(
    alloc: Global,
    place: &Place,
    members: &[Member],
    name: &str,
    default: Num,
) -> Result<Num, Fault>
    ensures { Reads (λ n. n) result (shape.defaulted told.num default name.now place.now (map field members.now)) }
{
    match present(members, name) {
        Some(value) => num(alloc, &place.member(name), value),
        None => Ok(default),
    }
}

// The members of an object; none where it is absent or null. They are no more than the document holds.
pub(crate) fn few_members<'a>(
    alloc: Global,
    place: &Place,
    object: &'a [Member],
    name: &str,
) -> Result<&'a [Member], Fault>
    requires { members_size (fields_of (map field object.now)) < 2 ^ 32 }
    ensures reads { Reads (λ ms. map field ms.now) result (shape.defaulted shape.members [] name.now place.now (map field object.now)) }
    ensures few { IfOk result (λ ms. length ms.now < 2 ^ 32) }
{
    defaulted_members(alloc, place, object, name)
}
