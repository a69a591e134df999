//! Threads made again from their parts.

ghost use Rattle.std.specs.Prelude.{◌≡◌, ◌≤◌, ◌+◌, ◌∷◌, [], ◌++◌, length, IfOk, OnOk};
ghost use Rattle.machine_spec.specs.Outcome.{most_levels};
ghost use Rattle.machine_spec.specs.Places.{Places, on_place};
ghost use Rattle.machine_spec.specs.Starting.{open_levels};
ghost use Rattle.thread_frames.specs.Rebuilding.{thread_of, threads_of, on_all};
ghost use Rattle.thread_frames.specs.Threads.{frames, on_levels};

use crate::level::Level;
use crate::thread::Thread;
use crate::threads::Threads;
use machine_spec::{BlockId, InstanceId, Serial, Status, TargetId, Which};
use std::alloc::{AllocError, Global};

/// The parts of a thread: its number, its instance and the target of that, the block of its hat, how it stands, and its
/// levels from the bottom (scratch-vm, engine/thread.js).
#[derive(Debug, Drop)]
pub struct ThreadPart {
    pub serial: Serial,
    pub of: InstanceId,
    pub target: TargetId,
    pub hat: BlockId,
    pub status: Status,
    pub levels: Vec<Level>,
}

impl Threads {
    /// The threads that have these parts, listed in their order; none is detached. They have no more than 65,536 levels in
    /// all. The only error is want of memory, and then nothing is kept.
    pub fn rebuild(alloc: Global, threads: Vec<ThreadPart>) -> Result<Threads, AllocError>
        requires { open_levels frames (threads_of threads.items) ≤ most_levels }
        ensures { IfOk result (λ rebuilt. rebuilt ≡ threads_of threads.items) }
    {
        let mut rebuilt = Threads::new(alloc)?;
        for part in threads {
            rebuilt.add_part(part)?;
        }
        Ok(rebuilt)
    }

    // Appends a thread that has these parts; all have no more than 65,536 levels then. The only error is want of memory.
    fn add_part(&mut self, part: ThreadPart) -> Result<(), AllocError>
        requires { open_levels frames self.old + length part.levels.items ≤ most_levels }
        ensures { OnOk result (self.new ≡ record { list = self.old.list ++ thread_of part ∷ []; detached = self.old.detached }) }
    {
        let slot = self.len();
        let thread = Thread::new(part.serial, part.of, part.target, part.hat);
        self.add(thread.with_status(part.status))?;
        self.put_all(Which::Slot(slot), part.levels);
        Ok(())
    }

    // Puts levels on those of a thread, of which the bottom one is given first; with all that are open they are no more than
    // 65,536.
    fn put_all(&mut self, which: Which, bottom_first: Vec<Level>)
        requires { open_levels frames self.old + length bottom_first.items ≤ most_levels }
        ensures { self.new ≡ on_place (on_levels (on_all bottom_first.items)) which self.old }
    {
        for level in bottom_first {
            self.put(which, level);
        }
    }
}
