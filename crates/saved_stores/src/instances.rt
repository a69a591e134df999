//! Instances, and their variables and lists.

ghost use Rattle.std.specs.Prelude.{◌≡◌, map, IfOk};
ghost use Rattle.std.specs.List.{All};
ghost use Rattle.saved_parts.specs.Telling.{instance_of, store_of};
ghost use Rattle.saved_stores.specs.Held.{IsHeld};

use crate::bubbles::{bubble, edges};
use crate::values::{lists, values};
use machine_spec::{Instance, InstanceId, Store, TargetId};
use saved_parts::{ToldInstance, ToldInstances};
use std::alloc::{AllocError, Global};

// An instance, and its variables and lists.
#[derive(Drop)]
struct Standing {
    instance: Instance,
    store: Store,
}

// Instances in executable order, and their variables and lists in the same order.
#[derive(Drop)]
pub(crate) struct Standings {
    pub(crate) instances: Vec<Instance>,
    pub(crate) stores: Vec<Store>,
}

// The instance that is told, which has a target and a costume.
fn instance_told(alloc: Global, told: ToldInstance) -> Result<Standing, AllocError>
    requires { IsHeld told }
    ensures { IfOk result (λ s. (s.instance ≡ instance_of told) × (s.store ≡ store_of told)) }
{
    let number = InstanceId(told.number);
    let bubble = bubble(alloc, told.bubble)?;
    let edges = edges(alloc, told.edges)?;
    let values = values(alloc, told.values)?;
    let lists = lists(alloc, told.lists)?;
    let instance = Instance {
        number,
        of: TargetId(told.of as u32),
        x: told.x,
        y: told.y,
        direction: told.direction,
        size: told.size,
        visible: told.visible,
        costume: told.costume as u32,
        style: told.style,
        effects: told.effects,
        bubble,
        edges,
    };
    let store = Store {
        of: number,
        values,
        lists,
    };
    Ok(Standing { instance, store })
}

// The instances that are told. The only error is want of memory.
pub(crate) fn instances_told(alloc: Global, told: ToldInstances) -> Result<Standings, AllocError>
    requires { All IsHeld told }
    ensures { IfOk result (λ s. (s.instances.items ≡ map instance_of told) × (s.stores.items ≡ map store_of told)) }
{
    let mut instances = Vec::new(alloc);
    let mut stores = Vec::new(alloc);
    for told in told.into_vec() {
        let Standing { instance, store } = instance_told(alloc, told)?;
        instances.push(instance)?;
        stores.push(store)?;
    }
    Ok(Standings { instances, stores })
}
