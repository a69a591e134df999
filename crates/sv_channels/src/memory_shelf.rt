//! A shelf in memory, for tests.

ghost use Rattle.std.specs.Prelude.{◌≡◌, Some};
ghost use Rattle.std.specs.FinMap.{get};
ghost use Rattle.std.specs.Option.{option_copied};
ghost use Rattle.sv_channels.specs.Files.{files_of};
ghost use Rattle.sv_channels.specs.Counts.{next_count, Rose, NoneFell};
ghost use Rattle.sv_channels.specs.Shelf.{FetchAnswer, PutAnswer, FetchCounts, wants_after_fetch, PutCounts, wants_after_put};
ghost use Rattle.sv_channels.specs.Tally.{no_failures, failures_of};
ghost use Rattle.sv_channels.specs.Memory.{fails_next, fetch_answer, FetchesAs, AfterFetch, PutsAs, AfterPut};

use crate::name_counts::NameCounts;
use crate::numbers::has_number;
use crate::{FetchError, NamedBytes, Numbers, PutError, Shelf};
use std::alloc::Global;
use std::marker::Model;

/// A shelf in memory. Its calls are numbered from 0, fetches and puts together, and those whose numbers are listed
/// fail and change nothing but a count. Failures are counted by name; where there is no memory to keep the name, the
/// failure counts for every name.
#[derive(Drop)]
pub struct MemoryShelf {
    files: NamedBytes,
    fails: Numbers,
    calls: u64,
    failed_fetches: NameCounts,
    failed_puts: NameCounts,
    wants: u64,
}

impl Model for MemoryShelf {
    ghost use Rattle.sv_channels.specs.Files.{files_of};
    ghost use Rattle.sv_channels.specs.Memory.{ShelfState, shelf_code};

    ghost Value = { ShelfState };

    ghost coded = { shelf_code };

    ghost view = { λ s. record {
      files = files_of s.files;
      fails = s.fails;
      calls = s.calls;
      failed_fetches = s.failed_fetches;
      failed_puts = s.failed_puts;
      wants = s.wants;
    } };
}

impl MemoryShelf {
    /// A shelf that holds the files, and whose listed calls fail. Where a name stands twice, its first place counts.
    /// The lists keep the allocators that they were made with.
    pub fn new(alloc: Global, files: NamedBytes, fails: Numbers) -> Self
        ensures { result ≡ record {
          files = files_of files;
          fails = fails;
          calls = 0;
          failed_fetches = no_failures;
          failed_puts = no_failures;
          wants = 0;
        } }
    {
        MemoryShelf {
            files,
            fails,
            calls: 0,
            failed_fetches: NameCounts::new(alloc),
            failed_puts: NameCounts::new(alloc),
            wants: 0,
        }
    }

    /// The bytes that are held under the name.
    pub fn bytes(&self, name: &str) -> Option<&[u8]>
        ensures { option_copied result ≡ get self.now.files name.now }
    {
        self.files.get(name)
    }

    // Counts a call, and says whether it is listed to fail.
    fn is_failing_call(&mut self) -> bool
        ensures answer { result ≡ fails_next self.old }
        ensures after { self.new ≡ record self.old { calls = next_count self.old.calls } }
    {
        let is_failing = has_number(&self.fails, self.calls);
        self.calls = self.calls.saturating_add(1);
        is_failing
    }
}

impl Shelf for MemoryShelf {
    ghost held = { λ s. Some s.files };

    ghost fetch_faults = { λ s. failures_of s.failed_fetches };

    ghost put_faults = { λ s. failures_of s.failed_puts };

    ghost calls = { λ s. s.calls };

    ghost wants = { λ s. s.wants };

    /// Fails exactly where the call is listed or the name is not held.
    fn fetch(&mut self, alloc: Global, name: &str, limit: u64) -> Result<Vec<u8>, FetchError>
        ensures answer { FetchAnswer (Some self.old.files) name.now limit
            (Rose (failures_of self.old.failed_fetches name.now) (failures_of self.new.failed_fetches name.now)) result }
        ensures held { self.new.files ≡ self.old.files }
        ensures fetch_faults { NoneFell (failures_of self.old.failed_fetches) (failures_of self.new.failed_fetches) }
        ensures put_faults { self.new.failed_puts ≡ self.old.failed_puts }
        ensures steady { FetchCounts (failures_of self.old.failed_fetches) (failures_of self.new.failed_fetches) result }
        ensures calls { self.new.calls ≡ next_count self.old.calls }
        ensures wants { self.new.wants ≡ wants_after_fetch self.old.wants result }

        ensures exact { FetchesAs (fetch_answer self.old name.now limit) result }
        ensures after { AfterFetch self.old name.now self.new result }
    {
        if self.is_failing_call() {
            self.failed_fetches.raise(alloc, name);
            return Err(FetchError::Failed);
        }
        let Some(bytes) = self.files.get(name) else {
            self.failed_fetches.raise(alloc, name);
            return Err(FetchError::Failed);
        };
        if bytes.len() as u64 > limit {
            return Err(FetchError::TooLarge { limit });
        }
        match bytes.to_vec(alloc) {
            Ok(copy) => Ok(copy),
            Err(_) => {
                self.wants = self.wants.saturating_add(1);
                Err(FetchError::NoMemory)
            }
        }
    }

    /// Fails exactly where the call is listed.
    fn put(&mut self, alloc: Global, name: &str, bytes: &[u8]) -> Result<(), PutError>
        ensures answer { PutAnswer (Some self.old.files) (Some self.new.files) name.now bytes.now
            (Rose (failures_of self.old.failed_puts name.now) (failures_of self.new.failed_puts name.now)) result }
        ensures fetch_faults { self.new.failed_fetches ≡ self.old.failed_fetches }
        ensures put_faults { NoneFell (failures_of self.old.failed_puts) (failures_of self.new.failed_puts) }
        ensures steady { PutCounts (failures_of self.old.failed_puts) (failures_of self.new.failed_puts) result }
        ensures calls { self.new.calls ≡ next_count self.old.calls }
        ensures wants { self.new.wants ≡ wants_after_put self.old.wants result }

        ensures exact { PutsAs (fails_next self.old) result }
        ensures after { AfterPut self.old name.now bytes.now self.new result }
    {
        if self.is_failing_call() {
            self.failed_puts.raise(alloc, name);
            return Err(PutError::Failed);
        }
        match self.files.put(name, bytes) {
            Ok(()) => Ok(()),
            Err(_) => {
                self.wants = self.wants.saturating_add(1);
                Err(PutError::NoMemory)
            }
        }
    }
}
