//! The executable order: the numbers of the instances.

ghost use Rattle.std.specs.Prelude.{◌≡◌, ◌==◌, ◌≤◌, ◌<◌, ◌++◌, ◌∷◌, [], length, slice_index_or, vec_len, vec_capacity, position, IfOk, OnOk, OnErr};
ghost use Rattle.std.specs.List.{insert, remove};
ghost use Rattle.machine_spec.specs.declared.instance.Instance.{Instance};
ghost use Rattle.machine_spec.specs.Stopping.{inserted_behind};
ghost use Rattle.targets.specs.Live.{numbers};

use crate::hints;
use lists::ListOf;
use machine_spec::{Instance, InstanceId};
use std::alloc::{AllocError, Global};
use std::marker::Model;
use std::mem;

/// Numbers of instances, in order.
pub type Ids = ListOf<InstanceId>;

// The first place of a number, sought from the front.
fn sought(order: &[InstanceId], id: InstanceId) -> Option<usize>
    ensures { result ≡ position (λ n. n == id) order.now }
{
    order.iter().position(|own| *own == id)
}

// The executable order. Contracts see the list of the numbers. For the remainder of each number it keeps a place that is
// not behind the first place of the number: most numbers are found there, and the others are sought.
#[derive(Drop)]
pub(crate) struct Order {
    ids: Ids,
    hints: Vec<usize>,
}

impl Model for Order {
    ghost use Rattle.std.specs.Prelude.{◌≡◌, List, ℕ, length};
    ghost use Rattle.targets.specs.Hints.{slots, IsHinted};

    ghost Value = { List ℕ };

    ghost view = { λ o. o.ids };

    ghost invariant = { λ o. (length o.hints.items ≡ slots) × IsHinted o.hints.items o.ids };
}

impl Order {
    // These numbers in order. The only error is want of memory.
    pub(crate) fn open(alloc: Global, ids: Ids) -> Result<Order, AllocError>
        ensures { IfOk result (λ order. order ≡ ids) }
    {
        let mut hints = hints::none(alloc)?;
        hints::note(&mut hints, ids.as_slice());
        Ok(Order { ids, hints })
    }

    // The numbers in order.
    pub(crate) fn ids(&self) -> &Ids
        ensures { result.now ≡ self.now }
    {
        &self.ids
    }

    // The first place of a number.
    #[inline]
    pub(crate) fn place(&self, id: InstanceId) -> Option<usize>
        ensures { result ≡ position (λ n. n == id) self.now }
    {
        let guess = self.hints[hints::slot(id)];
        match self.ids.get(guess) {
            Some(own) => {
                if *own == id {
                    return Some(guess);
                }
            }
            None => {}
        }
        sought(self.ids.as_slice(), id)
    }

    // Takes all numbers out.
    pub(crate) fn take(&mut self, alloc: Global) -> Vec<InstanceId>
        ensures ids { result.items ≡ self.old }
        ensures new { self.new ≡ [] }
    {
        mem::replace(&mut self.ids, Ids::new(alloc)).into_vec()
    }

    // Puts numbers in place of those that are there.
    pub(crate) fn put(&mut self, ids: Vec<InstanceId>)
        ensures { self.new ≡ ids.items }
    {
        self.ids = Ids::from_vec(ids);
        hints::note(&mut self.hints, self.ids.as_slice());
    }

    // Appends a number. The only error is want of memory, and then nothing changes.
    pub(crate) fn push(&mut self, id: InstanceId) -> Result<(), AllocError>
        ensures ok { OnOk result (self.new ≡ self.old ++ id ∷ []) }
        ensures err { OnErr result (self.new ≡ self.old) }
    {
        self.ids.push(id)?;
        hints::note(&mut self.hints, self.ids.as_slice());
        Ok(())
    }
}

// Puts an item at a place, where there is room for one more.
pub(crate) fn put<T>(items: &mut Vec<T>, at: usize, item: T)
    requires within { at ≤ vec_len items.old }
    requires room { vec_len items.old < vec_capacity items.old }
    ensures { items.new.items ≡ insert items.old.items at item }
{
    match items.insert(at, item) {
        Ok(()) => {}
        Err(_) => unreachable!(),
    }
}

// Takes an item out, and puts it at a place among the others.
pub(crate) fn shift<T>(items: &mut Vec<T>, from: usize, to: usize)
    requires from { from < vec_len items.old }
    requires to { to < vec_len items.old }
    ensures { (d : T) → items.new.items ≡ insert (remove items.old.items from) to (slice_index_or items.old.items from d) }
{
    let item = items.remove(from);
    put(items, to, item);
}

// Takes an instance out, and puts it before the first of a number among the others; where there is none it is gone.
pub(crate) fn put_behind(
    order: &mut Vec<InstanceId>,
    instances: &mut Vec<Instance>,
    from: usize,
    original: InstanceId,
)
    requires same { order.old.items ≡ numbers instances.old.items }
    requires within { from < length instances.old.items }
    ensures same { order.new.items ≡ numbers instances.new.items }
    ensures put { (d : Instance) → instances.new.items ≡ inserted_behind (slice_index_or instances.old.items from d) original (remove instances.old.items from) }
{
    let id = order.remove(from);
    let instance = instances.remove(from);
    match sought(order.as_slice(), original) {
        Some(to) => {
            put(order, to, id);
            put(instances, to, instance);
        }
        None => {}
    }
}
