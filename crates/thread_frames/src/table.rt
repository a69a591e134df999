//! The threads in their places, each with where its levels stand.

ghost use Rattle.std.specs.Prelude.{◌≡◌, ◌==◌, ◌<◌, ◌≤◌, ◌∷◌, ◌++◌, [], length, map, slice_get, slice_set, position, find, filter, not, Some, None, is_some, IsTrue, ◌↔◌, OnOk, OnErr};
ghost use Rattle.std.specs.Borrow.{sem};
ghost use Rattle.std.specs.List.{list_any};
ghost use Rattle.std.specs.Option.{option_map, option_copied};
ghost use Rattle.instance_index.specs.Slots.{last_below};
ghost use Rattle.machine_spec.specs.Places.{Places, at_place, put};
ghost use Rattle.thread_frames.specs.Entries.{no_entries, none_detached, none_done, is_done_entry, is_entry_of, is_alive_entry_of, stack_of};
ghost use Rattle.thread_frames.specs.Lending.{LendsEntry};

use crate::entry::Entry;
use machine_spec::{BlockId, InstanceId, Serial, Which};
use shared_stacks::Stack;
use std::alloc::{AllocError, Global};
use std::marker::Model;
use std::mem;

// The threads in their places, each with where its levels stand.
#[derive(Debug, Drop)]
pub(crate) struct Table {
    list: Vec<Entry>,
    detached: Option<Entry>,
}

impl Model for Table {
    ghost use Rattle.instance_index.specs.Slots.{last_below};
    ghost use Rattle.machine_spec.specs.Places.{Places};
    ghost use Rattle.thread_frames.specs.Entries.{Entry};

    ghost Value = { Places Entry };

    ghost view = { λ t. record { list = t.list.items; detached = t.detached } };
}

impl Table {
    // No threads.
    pub(crate) fn new(alloc: Global) -> Table
        ensures { result ≡ no_entries }
    {
        Table {
            list: Vec::new(alloc),
            detached: None,
        }
    }

    // The threads of the list.
    #[inline(always)]
    pub(crate) fn list(&self) -> &[Entry]
        ensures { result.now ≡ self.now.list }
    {
        self.list.as_slice()
    }

    // Whether a thread is detached.
    #[inline(always)]
    pub(crate) fn is_any_detached(&self) -> bool
        ensures { result ≡ is_some self.now.detached }
    {
        self.detached.is_some()
    }

    // The thread at a place.
    #[inline(always)]
    pub(crate) fn at(&self, which: Which) -> Option<&Entry>
        ensures { option_copied result ≡ at_place which self.now }
    {
        match which {
            Which::Slot(slot) => self.list.get(slot as usize),
            Which::Detached => self.detached.as_ref(),
        }
    }

    // Where the levels of the thread at a place stand; nowhere where there is none.
    #[inline(always)]
    pub(crate) fn stack(&self, which: Which) -> Stack
        ensures { result ≡ stack_of (at_place which self.now) }
    {
        match self.at(which) {
            Some(entry) => entry.stack,
            None => Stack::EMPTY,
        }
    }

    // The thread of a slot, to be changed.
    #[inline(always)]
    fn slot_mut(&mut self, slot: usize) -> Option<&mut Entry>
        ensures* lends { sem 𝓛 (LendsEntry self.entry (Which.Slot slot) result) }
        ensures entry { option_map (λ e. e.now) result ≡ at_place (Which.Slot slot) self.old }
    {
        self.list.get_mut(slot)
    }

    // The detached thread, to be changed.
    #[inline(always)]
    fn detached_mut(&mut self) -> Option<&mut Entry>
        ensures* lends { sem 𝓛 (LendsEntry self.entry Which.Detached result) }
        ensures entry { option_map (λ e. e.now) result ≡ at_place Which.Detached self.old }
    {
        self.detached.as_mut()
    }

    // The thread at a place, to be changed.
    #[inline(always)]
    pub(crate) fn at_mut(&mut self, which: Which) -> Option<&mut Entry>
        ensures* lends { sem 𝓛 (LendsEntry self.entry which result) }
        ensures entry { option_map (λ e. e.now) result ≡ at_place which self.old }
    {
        match which {
            Which::Slot(slot) => self.slot_mut(slot as usize),
            Which::Detached => self.detached_mut(),
        }
    }

    // Appends a thread. The only error is want of memory, and then nothing changes.
    #[inline(always)]
    pub(crate) fn append(&mut self, entry: Entry) -> Result<(), AllocError>
        ensures ok { OnOk result (self.new ≡ record { list = self.old.list ++ entry ∷ []; detached = self.old.detached }) }
        ensures err { OnErr result (self.new ≡ self.old) }
    {
        self.list.push(entry)?;
        Ok(())
    }

    // Puts a thread into a slot; the one that stood there is the detached one now.
    #[inline(always)]
    pub(crate) fn detach(&mut self, slot: usize, entry: Entry)
        requires { slot < length self.old.list }
        ensures { self.new ≡ record { list = slice_set self.old.list slot entry; detached = slice_get self.old.list slot } }
    {
        let old = mem::replace(&mut self.list[slot], entry);
        self.detached = Some(old);
    }

    // Takes the detached thread away.
    #[inline(always)]
    pub(crate) fn forget_detached(&mut self)
        ensures { self.new ≡ none_detached self.old }
    {
        self.detached = None;
    }

    // Whether a thread of the list is done.
    pub(crate) fn is_any_done(&self) -> bool
        ensures { result ≡ list_any is_done_entry self.now.list }
    {
        self.list.iter().any(|entry| entry.thread.is_done())
    }

    // Takes the threads that are done out of the list.
    pub(crate) fn remove_done(&mut self)
        ensures { self.new ≡ none_done self.old }
    {
        self.list.retain(|entry| !entry.thread.is_done());
    }

    // Takes all threads away.
    pub(crate) fn clear(&mut self)
        ensures { self.new ≡ no_entries }
    {
        self.list.clear();
        self.detached = None;
    }

    // The first listed thread with the number.
    pub(crate) fn find(&self, serial: Serial) -> Option<&Entry>
        ensures { option_copied result ≡ find (λ e. e.thread.serial == serial) self.now.list }
    {
        self.list
            .iter()
            .find(|entry| entry.thread.serial() == serial)
    }

    // The first slot whose thread has the number.
    pub(crate) fn slot_of(&self, serial: Serial) -> Option<usize>
        ensures { result ≡ position (λ e. e.thread.serial == serial) self.now.list }
    {
        self.list
            .iter()
            .position(|entry| entry.thread.serial() == serial)
    }

    // The first slot whose thread is of the instance and the hat.
    pub(crate) fn slot_of_hat(&self, of: InstanceId, hat: BlockId) -> Option<usize>
        ensures { result ≡ position (is_entry_of of hat) self.now.list }
    {
        self.list.iter().position(|entry| entry.thread.of() == of && entry.thread.hat() == hat)
    }

    // The last slot, below one, whose thread is of the instance.
    pub(crate) fn last_of(&self, of: InstanceId, below: usize) -> Option<usize>
        requires { below ≤ length self.now.list }
        ensures { result ≡ last_below of (map (λ e. e.thread.of) self.now.list) below }
    {
        let mut rest = below;
        while rest > 0 {
            rest -= 1;
            if self.list[rest].thread.of() == of {
                return Some(rest);
            }
        }
        None
    }

    // Whether a listed thread of the instance and the hat is not done.
    pub(crate) fn is_any_alive(&self, of: InstanceId, hat: BlockId) -> bool
        ensures { result ≡ list_any (is_alive_entry_of of hat) self.now.list }
    {
        self.list.iter().any(|entry| entry.thread.of() == of
            && entry.thread.hat() == hat
            && !entry.thread.is_done())
    }
}
