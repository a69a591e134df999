//! Where threads stand in the list, by what they are looked for.

ghost use Rattle.std.specs.Prelude.{◌≡◌, ◌∷◌, ◌++◌, [], List, length, map};
ghost use Rattle.instance_index.specs.Index.{IsIndex};
ghost use Rattle.thread_frames.specs.declared.slot_index.Key.{Key as Known};
ghost use Rattle.thread_frames.specs.Indexing.{AreIndexed, keys_of, instances_of};

use crate::entry::Entry;
use crate::slot_index::SlotIndex;
use instance_index::InstanceIndex;
use machine_spec::{BlockId, InstanceId};
use std::alloc::Global;

// The first slot of each hat, and the slots of each instance.
#[derive(Debug, Drop)]
pub(crate) struct Indexes {
    pub(crate) hats: SlotIndex,
    pub(crate) instances: InstanceIndex,
}

impl Indexes {
    // Those of an empty list.
    pub(crate) fn new(alloc: Global) -> Indexes
        ensures { AreIndexed result [] }
    {
        Indexes {
            hats: SlotIndex::new(alloc),
            instances: InstanceIndex::new(alloc),
        }
    }

    // A thread was appended in a slot.
    pub(crate) fn append(&mut self, of: InstanceId, hat: BlockId, slot: u64)
        ensures { (keys : List Known) → slot ≡ length keys → AreIndexed self.old keys → AreIndexed self.new (keys ++ record { of = of; hat = hat } ∷ []) }
    {
        self.hats.append(of, hat, slot);
        self.instances.append(of.0);
    }

    // They tell nothing from now on.
    #[inline]
    pub(crate) fn forget(&mut self)
        ensures { (keys : List Known) → AreIndexed self.new keys }
    {
        self.hats.forget();
        self.instances.forget();
    }

    // The list is empty.
    pub(crate) fn clear(&mut self)
        ensures { AreIndexed self.new [] }
    {
        self.hats.clear();
        self.instances.clear();
    }

    // A thread is searched for in a list. One that is searched often is looked through.
    #[inline]
    pub(crate) fn prepare_search(&mut self, threads: &[Entry])
        ensures { AreIndexed self.old (keys_of threads.now) → AreIndexed self.new (keys_of threads.now) }
    {
        self.hats.prepare_search(threads);
        if self.instances.wants_renewal() {
            renew(&mut self.instances, threads);
        }
    }
}

// Looks through a list for the slots of each instance.
fn renew(instances: &mut InstanceIndex, threads: &[Entry])
    ensures { IsIndex instances.new (instances_of (keys_of threads.now)) }
{
    instances.clear();
    for entry in threads {
        instances.append(entry.thread.of().0);
    }
}
