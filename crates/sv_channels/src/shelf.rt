//! Files that are read and written whole, by their names.

ghost use Rattle.std.specs.Prelude.{◌≡◌, ℕ, List, Option};
ghost use Rattle.sv_channels.specs.Files.{Files};
ghost use Rattle.sv_channels.specs.Counts.{next_count, Rose, NoneFell, NoneRose};
ghost use Rattle.sv_channels.specs.Shelf.{FetchAnswer, PutAnswer, FetchCounts, wants_after_fetch, PutCounts, wants_after_put};

use crate::{FetchError, PutError};
use std::alloc::Global;

/// Files that are read and written whole, by their names.
pub trait Shelf {
    /// The files that are held, where the shelf tells them.
    ghost held: { Self → Option Files };

    /// How many fetches of a name have failed.
    ghost fetch_faults: { Self → List ℕ → ℕ };

    /// How many puts of a name have failed.
    ghost put_faults: { Self → List ℕ → ℕ };

    /// How many calls were made, fetches and puts together.
    ghost calls: { Self → ℕ };

    /// How many calls have ended for want of memory.
    ghost wants: { Self → ℕ };

    /// The bytes under the name, where they are at most `limit`. A name that is not held is a failure. More bytes than
    /// `limit` are too large, where reading them did not fail before.
    fn fetch(&mut self, alloc: Global, name: &str, limit: u64) -> Result<Vec<u8>, FetchError>
        ensures answer { FetchAnswer (held self.old) name.now limit
            (Rose (fetch_faults self.old name.now) (fetch_faults self.new name.now)) result }
        ensures held { held self.new ≡ held self.old }
        ensures fetch_faults { NoneFell (fetch_faults self.old) (fetch_faults self.new) }
        ensures put_faults { NoneRose (put_faults self.old) (put_faults self.new) }

        // A fetch that does not fail leaves each count of failures as it was, and each call is counted.
        ensures steady { FetchCounts (fetch_faults self.old) (fetch_faults self.new) result }
        ensures calls { calls self.new ≡ next_count (calls self.old) }
        ensures wants { wants self.new ≡ wants_after_fetch (wants self.old) result };

    /// Puts the bytes under the name, in place of what it held.
    fn put(&mut self, alloc: Global, name: &str, bytes: &[u8]) -> Result<(), PutError>
        ensures answer { PutAnswer (held self.old) (held self.new) name.now bytes.now
            (Rose (put_faults self.old name.now) (put_faults self.new name.now)) result }
        ensures fetch_faults { NoneRose (fetch_faults self.old) (fetch_faults self.new) }
        ensures put_faults { NoneFell (put_faults self.old) (put_faults self.new) }

        ensures steady { PutCounts (put_faults self.old) (put_faults self.new) result }
        ensures calls { calls self.new ≡ next_count (calls self.old) }
        ensures wants { wants self.new ≡ wants_after_put (wants self.old) result };
}
