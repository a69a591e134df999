//! The variables, lists and monitors with which a run begins.

ghost use Rattle.std.specs.Prelude.{◌≡◌, map, IfOk};
ghost use Rattle.std.specs.List.{enumerate_from};
ghost use Rattle.machine_spec.specs.First.{store as first_store};
ghost use Rattle.variables.specs.First.{stores_of};

use crate::state::Truths;
use lists::ListOf;
use machine_spec::{InstanceId, ListRecords, Store, TargetRecord, VariableRecords};
use scratch_values::{ValueLists, Values};
use std::alloc::{AllocError, Global};
use target_records::Monitors;

// The first values of variables. The only error is want of memory.
fn values(alloc: Global, variables: &VariableRecords) -> Result<Values, AllocError>
    ensures { IfOk result (λ values. values ≡ map (λ v. v.value) variables.now) }
{
    let mut values = Values::new(alloc);
    let records = variables.as_slice();
    for record in records {
        values.push(record.value.clone()?)?;
    }
    Ok(values)
}

// A copy of the items of a list. The only error is want of memory.
fn copied(items: &Values) -> Result<Values, AllocError>
    ensures { IfOk result (λ copy. copy ≡ items.now) }
{
    Ok(items.clone()?)
}

// The first items of lists. The only error is want of memory.
fn items(alloc: Global, lists: &ListRecords) -> Result<ValueLists, AllocError>
    ensures { IfOk result (λ items. items ≡ map (λ l. l.items) lists.now) }
{
    let mut items = ValueLists::new(alloc);
    let records = lists.as_slice();
    for record in records {
        items.push(copied(&record.items)?)?;
    }
    Ok(items)
}

// The store of the original of a target. The only error is want of memory.
fn store(alloc: Global, number: u64, target: &TargetRecord) -> Result<Store, AllocError>
    ensures { IfOk result (λ store. store ≡ first_store number target.now) }
{
    let values = values(alloc, &target.variables)?;
    let lists = items(alloc, &target.lists)?;
    Ok(Store {
        of: InstanceId(number),
        values,
        lists,
    })
}

// The stores of the originals of all targets. The only error is want of memory.
pub(crate) fn stores(alloc: Global, targets: &[TargetRecord]) -> Result<Vec<Store>, AllocError>
    ensures { IfOk result (λ stores. stores.items ≡ stores_of targets.now) }
{
    let mut stores = Vec::new(alloc);
    for place in 0..targets.len() {
        let store = store(alloc, place as u64, &targets[place])?;
        stores.push(store)?;
    }
    Ok(stores)
}

// Whether each monitor is visible. The only error is want of memory.
pub(crate) fn truths(alloc: Global, monitors: &Monitors) -> Result<Truths, AllocError>
    ensures { IfOk result (λ truths. truths ≡ map (λ m. m.visible) monitors.now) }
{
    let mut truths = ListOf::new(alloc);
    let records = monitors.as_slice();
    for record in records {
        truths.push(record.visible)?;
    }
    Ok(truths)
}
