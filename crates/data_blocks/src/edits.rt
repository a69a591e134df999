//! A list changed at a place that was named.

ghost use Rattle.std.specs.Prelude.{◌≡◌, OnOk};
ghost use Rattle.machine_spec.specs.DataRows.{deleted, inserted, items_set, replaced};
ghost use Rattle.machine_spec.specs.Stores.{items_in};
ghost use Rattle.variables.specs.Held.{HasSameShape};

use block_arguments::Place;
use scratch_values::{Index, Value};
use std::alloc::AllocError;
use variables::Variables;

// Deletes every item, or the one at a place.
pub(crate) fn deleted_at(list: Place, place: Index, variables: &mut Variables)
    ensures new { variables.new ≡ items_set list.of list.index (deleted place (items_in list.of list.index variables.old)) variables.old }
    ensures held { HasSameShape variables.old variables.new }
{
    match place {
        Index::All => variables.clear(list.of, list.index),
        Index::At(at) => variables.delete(list.of, list.index, at),
        Index::Invalid => {}
    }
}

// Inserts an item at a place. The only error is want of memory.
pub(crate) fn inserted_at(
    list: Place,
    place: Index,
    item: Value,
    variables: &mut Variables,
) -> Result<(), AllocError>
    ensures ok { OnOk result (variables.new ≡ items_set list.of list.index (inserted place item (items_in list.of list.index variables.old)) variables.old) }
    ensures held { HasSameShape variables.old variables.new }
{
    match place {
        Index::All => Ok(()),
        Index::At(at) => variables.insert(list.of, list.index, at, item),
        Index::Invalid => Ok(()),
    }
}

// Puts an item in place of the one at a place.
pub(crate) fn replaced_at(list: Place, place: Index, item: Value, variables: &mut Variables)
    ensures new { variables.new ≡ items_set list.of list.index (replaced place item (items_in list.of list.index variables.old)) variables.old }
    ensures held { HasSameShape variables.old variables.new }
{
    match place {
        Index::All => {}
        Index::At(at) => variables.replace(list.of, list.index, at, item),
        Index::Invalid => {}
    }
}
