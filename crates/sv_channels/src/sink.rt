//! Where the player writes.

ghost use Rattle.std.specs.Prelude.{◌≡◌, ◌≤◌, ℕ, List, Option};
ghost use Rattle.sv_channels.specs.Counts.{next_count, Rose};
ghost use Rattle.sv_channels.specs.Sink.{WriteAnswer, WriteCounts, wants_after_write};

use crate::SinkError;
use std::alloc::Global;

/// Takes pieces of bytes, one after the other.
pub trait Sink {
    /// All the bytes written so far, where the sink tells them.
    ghost written: { Self → Option (List ℕ) };

    /// How many writes have failed.
    ghost faults: { Self → ℕ };

    /// How many writes were called for.
    ghost calls: { Self → ℕ };

    /// How many writes have ended for want of memory.
    ghost wants: { Self → ℕ };

    /// Appends the whole piece. After a failure a first part of it may have been appended.
    fn write(&mut self, alloc: Global, bytes: &[u8]) -> Result<(), SinkError>
        ensures answer { WriteAnswer (written self.old) (written self.new) bytes.now
            (Rose (faults self.old) (faults self.new)) result }
        ensures faults { faults self.old ≤ faults self.new }

        // A write that does not fail leaves the count of failures as it was, and each call is counted.
        ensures steady { WriteCounts (faults self.old) (faults self.new) result }
        ensures calls { calls self.new ≡ next_count (calls self.old) }
        ensures wants { wants self.new ≡ wants_after_write (wants self.old) result };
}
