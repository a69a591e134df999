//! Threads that start, and that start again in their slots.

ghost use Rattle.std.specs.Prelude.{◌≡◌, ◌<◌, [], ◌∷◌, ◌++◌, None, Some, length, true, false, slice_get, slice_set, OnOk, OnErr};
ghost use Rattle.machine_spec.specs.Outcome.{Goes};
ghost use Rattle.machine_spec.specs.Places.{Places, on_place};
ghost use Rattle.machine_spec.specs.Starting.{appended};
ghost use Rattle.thread_frames.specs.Threads.{frames, new_thread, with_levels};
ghost use Rattle.thread_frames.specs.Restarting.{restarted, renewed, IsLike, swapped};
ghost use Rattle.thread_frames.specs.Stops.{PushStopIs};

use crate::entry::Entry;
use crate::level::Level;
use crate::stops::PushStop;
use crate::thread::Thread;
use crate::threads::Threads;
use machine_spec::{BlockId, InstanceId, MOST_LEVELS, Serial, TargetId, Which};
use shared_stacks::Stack;
use std::alloc::AllocError;

impl Threads {
    /// Appends a thread with one level. Full exactly where 65,536 levels are open. After an error nothing is changed.
    pub fn append(
        &mut self,
        serial: Serial,
        of: InstanceId,
        target: TargetId,
        hat: BlockId,
        first: Option<BlockId>,
    ) -> Result<(), PushStop>
        ensures ok { OnOk result (appended frames (new_thread serial of target hat first) self.old ≡ Goes self.new) }
        ensures stop { PushStopIs result (appended frames (new_thread serial of target hat first) self.old) }
        ensures err { OnErr result (self.new ≡ self.old) }
    {
        if self.pool.used() >= MOST_LEVELS {
            return Err(PushStop::Full);
        }
        let slot = self.len();
        match self.add(Thread::new(serial, of, target, hat)) {
            Ok(()) => {}
            Err(_) => return Err(PushStop::NoMemory),
        }
        self.put(Which::Slot(slot), Level::new(first, false));
        Ok(())
    }

    // Appends a thread without levels. The only error is want of memory, and then nothing changes.
    pub(crate) fn add(&mut self, thread: Thread) -> Result<(), AllocError>
        ensures ok { OnOk result (self.new ≡ record { list = self.old.list ++ with_levels thread [] ∷ []; detached = self.old.detached }) }
        ensures err { OnErr result (self.new ≡ self.old) }
    {
        let slot = self.len();
        let entry = Entry {
            thread,
            stack: Stack::EMPTY,
        };
        self.table.append(entry)?;
        self.index.append(thread.of(), thread.hat(), slot);
        Ok(())
    }

    /// Puts a new thread of the same instance and hat into a slot, with one level. With `keep` the old thread becomes the
    /// detached one, else it gives up its levels first. Full exactly where 65,536 levels are open then. After an error
    /// nothing is changed.
    pub fn replace(
        &mut self,
        slot: u64,
        serial: Serial,
        target: TargetId,
        first: Option<BlockId>,
        keep: bool,
    ) -> Result<(), PushStop>
        ensures ok { OnOk result (restarted keep slot serial target first self.old ≡ Goes self.new) }
        ensures stop { PushStopIs result (restarted keep slot serial target first self.old) }
        ensures err { OnErr result (self.new ≡ self.old) }
    {
        if keep {
            self.detach(slot, serial, target, first)
        } else {
            self.restart(slot, serial, target, first)
        }
    }

    // The old thread becomes the detached one. It takes no memory.
    fn detach(
        &mut self,
        slot: u64,
        serial: Serial,
        target: TargetId,
        first: Option<BlockId>,
    ) -> Result<(), PushStop>
        ensures ok { OnOk result (restarted true slot serial target first self.old ≡ Goes self.new) }
        ensures stop { PushStopIs result (restarted true slot serial target first self.old) }
        ensures err { OnErr result (self.new ≡ self.old) }
    {
        let Some(old) = self.thread(Which::Slot(slot)) else {
            return Ok(());
        };
        if self.pool.used() >= MOST_LEVELS {
            return Err(PushStop::Full);
        }
        self.drop_detached();
        self.swap(slot, Thread::new(serial, old.of(), target, old.hat()));
        self.put(Which::Slot(slot), Level::new(first, false));
        Ok(())
    }

    // Puts a thread of the same instance and hat into a slot, without levels; the one that stood there is the detached one now.
    fn swap(&mut self, slot: u64, thread: Thread)
        requires free { self.old.detached ≡ None }
        requires like { IsLike thread (slice_get self.old.list slot) }
        ensures { self.new ≡ swapped slot thread self.old }
    {
        let entry = Entry {
            thread,
            stack: Stack::EMPTY,
        };
        self.table.detach(slot as usize, entry);
    }

    // The old thread gives up its levels. It takes no memory.
    fn restart(
        &mut self,
        slot: u64,
        serial: Serial,
        target: TargetId,
        first: Option<BlockId>,
    ) -> Result<(), PushStop>
        ensures ok { OnOk result (restarted false slot serial target first self.old ≡ Goes self.new) }
        ensures stop { PushStopIs result (restarted false slot serial target first self.old) }
        ensures err { OnErr result (self.new ≡ self.old) }
    {
        let Some(entry) = self.table.at(Which::Slot(slot)) else {
            return Ok(());
        };
        let others = self.pool.used() - entry.stack.depth();
        if others >= MOST_LEVELS {
            return Err(PushStop::Full);
        }
        self.renew(slot, serial, target);
        self.put(Which::Slot(slot), Level::new(first, false));
        Ok(())
    }

    // A new thread of the same instance and hat stands in a slot, without levels.
    fn renew(&mut self, slot: u64, serial: Serial, target: TargetId)
        ensures { self.new ≡ on_place (renewed serial target) (Which.Slot slot) self.old }
    {
        let Some(entry) = self.table.at_mut(Which::Slot(slot)) else {
            return;
        };
        let old = entry.thread;
        self.pool.clear(&mut entry.stack);
        entry.thread = Thread::new(serial, old.of(), target, old.hat());
    }
}
