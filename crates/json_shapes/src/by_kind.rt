//! Values, by their kinds.

ghost use Rattle.std.specs.Prelude.{◌≡◌, map};
ghost use Rattle.project_json.specs.View.{tree, field};
ghost use Rattle.json_shapes.specs.Shapes as shape;
ghost use Rattle.json_shapes.specs.Reads.{Reads};

use crate::fault::Fault;
use crate::place::Place;
use project_json::{Json, Member, Text, digits_of, items_of, members_of, text_of, truth_of};
use std::alloc::Global;

/// A text.
pub fn text<'a>(alloc: Global, place: &Place, json: &'a Json) -> Result<&'a Text, Fault>
    ensures { Reads (λ t. t.now) result (shape.text place.now (tree json.now)) }
{
    match text_of(json) {
        Some(text) => Ok(text),
        None => Err(place.fault(alloc)),
    }
}

/// A number, as its own text.
pub fn digits<'a>(alloc: Global, place: &Place, json: &'a Json) -> Result<&'a Text, Fault>
    ensures { Reads (λ t. t.now) result (shape.digits place.now (tree json.now)) }
{
    match digits_of(json) {
        Some(digits) => Ok(digits),
        None => Err(place.fault(alloc)),
    }
}

/// A truth.
pub fn truth(alloc: Global, place: &Place, json: &Json) -> Result<bool, Fault>
    ensures { Reads (λ b. b) result (shape.truth place.now (tree json.now)) }
{
    match truth_of(json) {
        Some(truth) => Ok(truth),
        None => Err(place.fault(alloc)),
    }
}

/// A list: its items.
pub fn items<'a>(alloc: Global, place: &Place, json: &'a Json) -> Result<&'a [Json], Fault>
    ensures { Reads (λ js. map tree js.now) result (shape.items place.now (tree json.now)) }
{
    match items_of(json) {
        Some(items) => Ok(items),
        None => Err(place.fault(alloc)),
    }
}

/// An object: its members, in the order of the document.
pub fn members<'a>(alloc: Global, place: &Place, json: &'a Json) -> Result<&'a [Member], Fault>
    ensures { Reads (λ ms. map field ms.now) result (shape.members place.now (tree json.now)) }
{
    match members_of(json) {
        Some(members) => Ok(members),
        None => Err(place.fault(alloc)),
    }
}

/// An item of a list, which has to be there.
pub fn item<'a>(
    alloc: Global,
    place: &Place,
    items: &'a [Json],
    i: usize,
) -> Result<&'a Json, Fault>
    ensures { Reads (λ j. tree j.now) result (shape.item i place.now (map tree items.now)) }
{
    match items.get(i) {
        Some(item) => Ok(item),
        None => Err(place.item(i).fault(alloc)),
    }
}

/// A text that stands at a place of a list.
pub fn item_text<'a>(
    alloc: Global,
    place: &Place,
    items: &'a [Json],
    i: usize,
) -> Result<&'a Text, Fault>
    ensures { Reads (λ t. t.now) result (shape.required_item shape.text i place.now (map tree items.now)) }
{
    let item = item(alloc, place, items, i)?;
    text(alloc, &place.item(i), item)
}
