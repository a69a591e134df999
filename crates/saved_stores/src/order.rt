//! Stores in order.

ghost use Rattle.std.specs.Prelude.{◌≡◌, IfOk};
ghost use Rattle.saved_spec.specs.RunShapes.{stores_in_order};

use machine_spec::Store;
use std::alloc::AllocError;

// The stores by the numbers of their instances, rising. The only error is want of memory.
pub(crate) fn in_order(stores: Vec<Store>) -> Result<Vec<Store>, AllocError>
    ensures { IfOk result (λ sorted. sorted.items ≡ stores_in_order stores.items) }
{
    let mut stores = stores;
    stores.sort_by_key(|store| store.of.0)?;
    Ok(stores)
}
