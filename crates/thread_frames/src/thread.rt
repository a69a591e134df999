//! One thread.

ghost use Rattle.std.specs.Prelude.{◌≡◌};
ghost use Rattle.machine_spec.specs.Threads.{is_done as is_done_by};
ghost use Rattle.thread_frames.specs.Threads.{new_bare};

use machine_spec::{BlockId, InstanceId, Serial, Status, TargetId};

/// A thread without its levels: its number, its instance and the target of that, the block of its hat, and how it stands
/// (scratch-vm, engine/thread.js).
#[derive(Clone, Copy, Debug)]
pub struct Thread {
    serial: Serial,
    of: InstanceId,
    target: TargetId,
    hat: BlockId,
    status: Status,
}

impl Thread {
    // A new thread.
    #[inline]
    pub(crate) fn new(serial: Serial, of: InstanceId, target: TargetId, hat: BlockId) -> Thread
        ensures { result ≡ new_bare serial of target hat }
    {
        Thread {
            serial,
            of,
            target,
            hat,
            status: Status::Running,
        }
    }

    // The same thread that stands so.
    #[inline]
    pub(crate) fn with_status(self, status: Status) -> Thread
        ensures { result ≡ record self { status = status } }
    {
        Thread { status, ..self }
    }

    /// The number of the thread.
    #[inline]
    pub fn serial(&self) -> Serial
        ensures { result ≡ self.now.serial }
    {
        self.serial
    }

    /// The instance that it runs for.
    #[inline]
    pub fn of(&self) -> InstanceId
        ensures { result ≡ self.now.of }
    {
        self.of
    }

    /// The target of its instance.
    #[inline]
    pub fn target(&self) -> TargetId
        ensures { result ≡ self.now.target }
    {
        self.target
    }

    /// The block of the hat that started it.
    #[inline]
    pub fn hat(&self) -> BlockId
        ensures { result ≡ self.now.hat }
    {
        self.hat
    }

    /// How it stands.
    #[inline]
    pub fn status(&self) -> Status
        ensures { result ≡ self.now.status }
    {
        self.status
    }

    /// Whether it is done.
    #[inline]
    pub fn is_done(&self) -> bool
        ensures { result ≡ is_done_by self.now.status }
    {
        match self.status {
            Status::Running => false,
            Status::YieldTick => false,
            Status::PromiseWait => false,
            Status::Done => true,
        }
    }
}
