//! The threads of a run.

ghost use Rattle.std.specs.Prelude.{◌≡◌, ℕ, ◌==◌, ◌+◌, ◌≤◌, [], ◌∷◌, length, Some, None, slice_get, position, find, IfOk};
ghost use Rattle.std.specs.List.{list_any};
ghost use Rattle.std.specs.Option.{option_copied, option_map};
ghost use Rattle.machine_spec.specs.Threads.{among, wait_for as wait_for_by};
ghost use Rattle.machine_spec.specs.Outcome.{most_levels};
ghost use Rattle.machine_spec.specs.Places.{at_place, place};
ghost use Rattle.machine_spec.specs.Starting.{open_levels};
ghost use Rattle.thread_frames.specs.Levels.{near_params};
ghost use Rattle.thread_frames.specs.Threads.{frames, listed, no_threads, is_of, is_alive_of, levels_of, bare};

use crate::indexes::Indexes;
use crate::level::Level;
use crate::levels::{Levels, params_in};
use crate::table::Table;
use crate::thread::Thread;
use machine_spec::{BlockId, Control, InstanceId, MOST_LEVELS, Serial, Status, Which};
use scratch_values::Params;
use shared_stacks::Pool;
use std::alloc::{AllocError, Global};
use std::marker::Model;

/// The threads of a run: the list, and at most one that was replaced in it while it ran. The levels of all stand in one pool,
/// for which memory is taken once. Contracts see the threads in their places, each with its levels, the top one first. What
/// acts on a thread changes nothing where no thread stands at the place.
#[derive(Debug)]
pub struct Threads {
    pub(crate) table: Table,
    pub(crate) pool: Pool<Level>,
    pub(crate) index: Indexes,
}

// Not derived: whoever holds one calls this, and does not prove anew how it is taken apart.
impl Drop for Threads {
    fn drop(self) {
        let Threads {
            table: _table,
            pool: _pool,
            index: _index,
        } = self;
    }
}

impl Model for Threads {
    ghost use Rattle.machine_spec.specs.Places.{Places};
    ghost use Rattle.thread_frames.specs.Threads.{Thread as Seen};
    ghost use Rattle.thread_frames.specs.Entries.{seen_all};
    ghost use Rattle.thread_frames.specs.Keeping.{IsKept};

    ghost Value = { Places Seen };

    ghost view = { λ t. seen_all t.pool t.table };

    ghost invariant = { λ t. IsKept t.pool t.index t.table };
}

impl Threads {
    /// No threads, and room for 65,536 levels. The only error is want of memory.
    pub fn new(alloc: Global) -> Result<Threads, AllocError>
        ensures { IfOk result (λ threads. threads ≡ no_threads) }
    {
        Ok(Threads {
            table: Table::new(alloc),
            pool: Pool::new(alloc, MOST_LEVELS)?,
            index: Indexes::new(alloc),
        })
    }

    /// How many levels are open, those of a detached thread included: no more than 65,536.
    #[inline]
    pub fn levels(&self) -> u32
        ensures open { result ≡ open_levels frames self.now }
        ensures few { open_levels frames self.now ≤ most_levels }
    {
        self.pool.used() as u32
    }

    /// How many threads are listed, those that are done included.
    #[inline]
    pub fn len(&self) -> u64
        ensures { result ≡ length self.now.list }
    {
        self.table.list().len() as u64
    }

    /// The place of the running thread while a slot is visited: a detached thread is the running one.
    #[inline(always)]
    pub fn place(&self, slot: u64) -> Which
        ensures { result ≡ place slot self.now }
    {
        if self.table.is_any_detached() {
            Which::Detached
        } else {
            Which::Slot(slot)
        }
    }

    /// The thread at a place; None exactly where none stands there.
    #[inline(always)]
    pub fn thread(&self, which: Which) -> Option<Thread>
        ensures { result ≡ option_map bare (at_place which self.now) }
    {
        match self.table.at(which) {
            Some(entry) => Some(entry.thread),
            None => None,
        }
    }

    /// The levels of a thread, to be read; none where no thread stands at the place.
    #[inline(always)]
    pub fn levels_at(&self, which: Which) -> Levels<'_>
        ensures { result ≡ levels_of (at_place which self.now) }
    {
        Levels::new(&self.pool, self.table.stack(which))
    }

    /// The top level of a thread; None exactly where there is no such level.
    #[inline(always)]
    pub fn top(&self, which: Which) -> Option<&Level>
        ensures { option_copied result ≡ slice_get (levels_of (at_place which self.now)) 0 }
    {
        self.pool.top(self.table.stack(which))
    }

    /// A level of a thread, counted from the top, which is 0; None exactly where there is no such level. It goes from each
    /// level to the one under it.
    #[inline]
    pub fn level(&self, which: Which, from_top: u32) -> Option<&Level>
        ensures { option_copied result ≡ slice_get (levels_of (at_place which self.now)) from_top }
    {
        self.pool.get(self.table.stack(which), from_top as usize)
    }

    /// How many levels a thread has.
    #[inline]
    pub fn depth(&self, which: Which) -> u32
        ensures { result ≡ length (levels_of (at_place which self.now)) }
    {
        self.table.stack(which).depth() as u32
    }

    /// The parameters of the nearest level of a thread, from the top, that has some; None exactly where no level has.
    #[inline(always)]
    pub fn params(&self, which: Which) -> Option<&Params>
        ensures { option_map (λ p. p.now) result ≡ near_params (levels_of (at_place which self.now)) }
    {
        params_in(&self.pool, self.table.stack(which))
    }

    /// The first slot whose thread has the number.
    pub fn slot_of(&self, serial: Serial) -> Option<u64>
        ensures { result ≡ position (λ t. t.serial == serial) self.now.list }
    {
        match self.table.slot_of(serial) {
            Some(slot) => Some(slot as u64),
            None => None,
        }
    }

    /// The first slot whose thread is of the instance and the hat.
    pub fn slot_of_hat(&self, of: InstanceId, hat: BlockId) -> Option<u64>
        ensures { result ≡ position (is_of of hat) self.now.list }
    {
        if self.index.hats.is_fresh() {
            return self.index.hats.slot(of, hat);
        }
        match self.table.slot_of_hat(of, hat) {
            Some(slot) => Some(slot as u64),
            None => None,
        }
    }

    /// A hat is searched for next, by `slot_of_hat` or `is_any_alive`. A list that is searched often is looked through once,
    /// and a search of it takes no longer with more threads from then on, until threads leave the list; so it is for the
    /// threads of an instance, which `stop_of` searches for.
    #[inline]
    pub fn prepare_search(&mut self)
        ensures { self.new ≡ self.old }
    {
        self.index.prepare_search(self.table.list());
    }

    /// Whether a listed thread of the instance and the hat is not done.
    pub fn is_any_alive(&self, of: InstanceId, hat: BlockId) -> bool
        ensures { result ≡ list_any (is_alive_of of hat) self.now.list }
    {
        let Some(slot) = self.slot_of_hat(of, hat) else {
            return false;
        };
        match self.thread(Which::Slot(slot)) {
            Some(first) if !first.is_done() => true,
            _ => self.table.is_any_alive(of, hat),
        }
    }

    /// How the first listed thread with the number stands; None exactly where none is listed.
    pub fn status_of(&self, serial: Serial) -> Option<Status>
        ensures { result ≡ option_map (λ t. t.status) (find (λ t. t.serial == serial) (listed self.now)) }
    {
        match self.table.find(serial) {
            Some(entry) => Some(entry.thread.status()),
            None => None,
        }
    }

    /// What a block does that waits for started threads: it goes on where none is listed, ticks where none of them can run,
    /// else yields.
    pub fn wait_for(&self, serials: &[Serial]) -> Control
        ensures { result ≡ wait_for_by (among (listed self.now) serials.now) }
    {
        let mut is_listed = false;
        for serial in serials {
            match self.status_of(*serial) {
                Some(Status::Running) => return Control::Yield,
                Some(Status::YieldTick) => is_listed = true,
                Some(Status::PromiseWait) => is_listed = true,
                Some(Status::Done) => is_listed = true,
                None => {}
            }
        }
        if is_listed {
            Control::YieldTick
        } else {
            Control::Next
        }
    }
}
