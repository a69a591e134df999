//! Threads that end.

ghost use Rattle.std.specs.Prelude.{◌≡◌, ℕ, [], true, map, length, Some, slice_get};
ghost use Rattle.instance_index.specs.Slots.{last_below};
ghost use Rattle.machine_spec.specs.Places.{on_place};
ghost use Rattle.machine_spec.specs.Starting.{finished_of, is_spared as is_spared_by};
ghost use Rattle.thread_frames.specs.Threads.{frames, no_threads, without_detached, without_done, with_status, levels_of, finish as finished};
ghost use Rattle.thread_frames.specs.Stopping.{stopped, is_some_stopped, emptied, emptied_all, DoneAreEmpty};

use crate::threads::Threads;
use machine_spec::{InstanceId, Status, Which};

impl Threads {
    /// Sets how a thread stands. Where it is done, its levels are given up by `finish`.
    #[inline]
    pub fn set_status(&mut self, which: Which, status: Status)
        ensures { self.new ≡ on_place (with_status status) which self.old }
    {
        let Some(entry) = self.table.at_mut(which) else {
            return;
        };
        entry.thread = entry.thread.with_status(status);
    }

    /// Makes a thread done, which gives up its levels.
    #[inline]
    pub fn finish(&mut self, which: Which)
        ensures { self.new ≡ on_place finished which self.old }
    {
        let Some(entry) = self.table.at_mut(which) else {
            return;
        };
        self.pool.clear(&mut entry.stack);
        entry.thread = entry.thread.with_status(Status::Done);
    }

    /// Makes the listed threads of an instance done, but for the one at a place. It takes no memory.
    pub fn stop_of(&mut self, of: InstanceId, except: Option<Which>)
        ensures { self.new ≡ finished_of frames except of self.old }
    {
        self.note_search();
        let mut next = self.last_of(of);
        while let Some(slot) = next {
            next = self.earlier_of(of, slot);
            self.stop_at(slot as u64, of, except);
        }
    }

    // The threads of an instance are searched for; a list that is searched often without the index is looked through later.
    #[inline]
    fn note_search(&mut self)
        ensures { self.new ≡ self.old }
    {
        if !self.index.instances.is_fresh() {
            self.index.instances.note_search();
        }
    }

    // The last slot of a thread of the instance.
    fn last_of(&self, of: InstanceId) -> Option<usize>
        ensures { result ≡ last_below of (map (λ t. t.of) self.now.list) (length self.now.list) }
    {
        if self.index.instances.is_fresh() {
            self.index.instances.last(of.0)
        } else {
            self.table.last_of(of, self.table.list().len())
        }
    }

    // The slot of the thread of the instance before one.
    fn earlier_of(&self, of: InstanceId, slot: usize) -> Option<usize>
        requires { slice_get (map (λ t. t.of) self.now.list) slot ≡ Some of }
        ensures { result ≡ last_below of (map (λ t. t.of) self.now.list) slot }
    {
        if self.index.instances.is_fresh() {
            self.index.instances.earlier(slot)
        } else {
            self.table.last_of(of, slot)
        }
    }

    // Makes the thread of a slot done, where it is one of the instance and is not spared.
    fn stop_at(&mut self, slot: u64, of: InstanceId, except: Option<Which>)
        ensures { self.new ≡ on_place (stopped except of slot) (Which.Slot slot) self.old }
    {
        if self.is_stopped(slot, of, except) {
            self.finish(Which::Slot(slot));
        }
    }

    // Whether the thread of a slot is one of the instance and is not spared.
    #[inline]
    fn is_stopped(&self, slot: u64, of: InstanceId, except: Option<Which>) -> bool
        ensures { result ≡ is_some_stopped except of slot (slice_get self.now.list slot) }
    {
        let spared = is_spared(except, slot);
        match self.thread(Which::Slot(slot)) {
            Some(thread) => thread.of() == of && !spared,
            None => false,
        }
    }

    /// Drops the detached thread.
    #[inline]
    pub fn drop_detached(&mut self)
        ensures { self.new ≡ without_detached self.old }
    {
        if self.table.is_any_detached() {
            self.finish(Which::Detached);
            self.forget_detached();
        }
    }

    // Takes the detached thread away, which has no levels.
    fn forget_detached(&mut self)
        requires { levels_of self.old.detached ≡ [] }
        ensures { self.new ≡ without_detached self.old }
    {
        self.table.forget_detached();
    }

    /// Takes the threads that are done out of the list, and the detached one away.
    pub fn remove_done(&mut self)
        ensures { self.new ≡ without_done self.old }
    {
        self.drop_detached();
        if self.table.is_any_done() {
            self.empty_all_done();
            self.forget_done();
        }
    }

    // Takes the threads that are done out of the list, which have no levels.
    fn forget_done(&mut self)
        requires { DoneAreEmpty self.old.list }
        ensures { self.new ≡ record self.old { list = (without_done self.old).list } }
    {
        self.table.remove_done();
        self.index.forget();
    }

    // The threads of the list that are done give up the levels that they still have.
    fn empty_all_done(&mut self)
        ensures { self.new ≡ emptied_all self.old }
    {
        for slot in 0..self.len() {
            self.empty_done(slot);
        }
    }

    // The thread of a slot gives up its levels where it is done.
    #[inline]
    fn empty_done(&mut self, slot: u64)
        ensures { self.new ≡ on_place emptied (Which.Slot slot) self.old }
    {
        let Some(entry) = self.table.at_mut(Which::Slot(slot)) else {
            return;
        };
        let stack = &mut entry.stack;
        if entry.thread.is_done() {
            self.pool.clear(stack);
        }
    }

    /// Takes all threads away.
    pub fn clear(&mut self)
        ensures { self.new ≡ no_threads }
    {
        self.table.clear();
        self.pool.clear_all();
        self.index.clear();
    }
}

// Whether the place is that of the slot.
#[inline]
fn is_spared(place: Option<Which>, slot: u64) -> bool
    ensures { result ≡ is_spared_by place slot }
{
    match place {
        Some(Which::Slot(own)) => own == slot,
        Some(Which::Detached) => false,
        None => false,
    }
}
