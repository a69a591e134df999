//! Where the first thread of each hat stands.

ghost use Rattle.std.specs.Prelude.{◌≡◌, ◌∷◌, ◌++◌, [], List, length, true, false, position};
ghost use Rattle.thread_frames.specs.declared.slot_index.Key.{Key as Known};
ghost use Rattle.thread_frames.specs.Indexing.{AreFirst, Notes, same_key, keys_of};

use crate::entry::Entry;
use machine_spec::{BlockId, InstanceId};
use std::alloc::Global;
use std::collections::HashMap;

// The most searches that a list is not yet looked through for: they take about as long as that.
const FEW_SEARCHES: u32 = 16;

// The numbers of an instance and of the block of a hat.
#[derive(Clone, Copy, PartialEq, Eq, Hash, Debug)]
pub(crate) struct Key {
    of: u64,
    hat: u32,
}

impl Key {
    // That of an instance and a hat.
    #[inline]
    fn new(of: InstanceId, hat: BlockId) -> Key
        ensures { result ≡ record { of = of; hat = hat } }
    {
        Key {
            of: of.0,
            hat: hat.0,
        }
    }
}

// The first slot of each hat that has a thread in a list, while it is fresh. Else it tells nothing.
#[derive(Debug, Drop)]
pub(crate) struct SlotIndex {
    slots: HashMap<Key, u64>,
    is_fresh: bool,
    searches: u32,
}

impl SlotIndex {
    // That of an empty list.
    pub(crate) fn new(alloc: Global) -> SlotIndex
        ensures { AreFirst result [] }
    {
        SlotIndex {
            slots: HashMap::new(alloc),
            is_fresh: true,
            searches: 0,
        }
    }

    // Whether it is fresh.
    #[inline]
    pub(crate) fn is_fresh(&self) -> bool
        ensures { result ≡ self.now.is_fresh }
    {
        self.is_fresh
    }

    // The first slot of a thread of the instance and the hat.
    #[inline]
    pub(crate) fn slot(&self, of: InstanceId, hat: BlockId) -> Option<u64>
        requires { self.now.is_fresh ≡ true }
        ensures { (keys : List Known) → AreFirst self.now keys → result ≡ position (λ k. same_key k (record { of = of; hat = hat })) keys }
    {
        self.slots.get(&Key::new(of, hat)).copied()
    }

    // It tells nothing from now on.
    #[inline]
    pub(crate) fn forget(&mut self)
        ensures { (keys : List Known) → AreFirst self.new keys }
    {
        self.is_fresh = false;
        self.searches = 0;
    }

    // The list is empty.
    pub(crate) fn clear(&mut self)
        ensures { AreFirst self.new [] }
    {
        self.slots.clear();
        self.is_fresh = true;
        self.searches = 0;
    }

    // A thread was appended in a slot. Where that wants memory and there is none, the index tells nothing from now on.
    pub(crate) fn append(&mut self, of: InstanceId, hat: BlockId, slot: u64)
        ensures { (keys : List Known) → slot ≡ length keys → AreFirst self.old keys → AreFirst self.new (keys ++ record { of = of; hat = hat } ∷ []) }
    {
        if self.is_fresh {
            self.is_fresh = note(&mut self.slots, Key::new(of, hat), slot);
        }
    }

    // A hat is searched for in a list. One that is searched often is looked through.
    #[inline]
    pub(crate) fn prepare_search(&mut self, threads: &[Entry])
        ensures { AreFirst self.old (keys_of threads.now) → AreFirst self.new (keys_of threads.now) }
    {
        if self.is_fresh {
            return;
        }
        if self.searches < FEW_SEARCHES {
            self.searches += 1;
        } else {
            self.renew(threads);
        }
    }

    // Looks through a list.
    fn renew(&mut self, threads: &[Entry])
        ensures { AreFirst self.new (keys_of threads.now) }
    {
        self.clear();
        for (slot, entry) in threads.iter().enumerate() {
            self.append(entry.thread.of(), entry.thread.hat(), slot as u64);
        }
    }
}

// Notes a slot, unless the key has one; false for want of memory.
fn note(slots: &mut HashMap<Key, u64>, key: Key, slot: u64) -> bool
    ensures { result ≡ true → Notes slots.old slots.new key slot }
{
    if slots.contains_key(&key) {
        return true;
    }
    slots.insert(key, slot).is_ok()
}
