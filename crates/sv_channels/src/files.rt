//! The files of the system.

ghost use Rattle.std.specs.Prelude.{◌≡◌, ◌≢◌, ◌≤◌, None};
ghost use Rattle.sv_channels.specs.Counts.{next_count, Rose};
ghost use Rattle.sv_channels.specs.Edges.{counts_after_fetch, counts_after_put};
ghost use Rattle.sv_channels.specs.Shelf.{FetchAnswer, PutAnswer, FetchCounts, wants_after_fetch, PutCounts, wants_after_put};

use crate::transfer::{ReadStop, read_up_to, write_whole};
use crate::{FetchError, PutError, Shelf};
use std::alloc::Global;
use std::fs;
use std::marker::Model;
use std::rt::Files;

/// The files of the system, by their paths. What they contain is not told. One count of failed fetches serves as the
/// count of every name, and one of failed puts.
#[derive(Drop)]
pub struct FileShelf<R: Files + Clone + Drop> {
    rt: R,
    failed_fetches: u64,
    failed_puts: u64,
    calls: u64,
    wants: u64,
}

impl<R: Files + Clone + Drop> Model for FileShelf<R> {
    ghost use Rattle.sv_channels.specs.Edges.{FileCounts};

    ghost Value = { FileCounts };

    ghost view = { λ s. record {
      fetches = s.failed_fetches;
      puts = s.failed_puts;
      calls = s.calls;
      wants = s.wants;
    } };
}

impl<R: Files + Clone + Drop> FileShelf<R> {
    /// The files that the runtime opens. No call was made yet.
    pub fn new(rt: R) -> Self
        ensures { result ≡ record { fetches = 0; puts = 0; calls = 0; wants = 0 } }
    {
        FileShelf {
            rt,
            failed_fetches: 0,
            failed_puts: 0,
            calls: 0,
            wants: 0,
        }
    }

    // The first `most` bytes of the file.
    fn read(&self, alloc: Global, path: &str, most: u64) -> Result<Vec<u8>, ReadStop> {
        match fs::open(&self.rt, path) {
            Ok(mut file) => read_up_to(alloc, &mut file, most),
            Err(_) => Err(ReadStop::Failed),
        }
    }

    // Makes the file anew with the bytes, and says whether that went well.
    fn write(&self, path: &str, bytes: &[u8]) -> bool {
        match fs::create(&self.rt, path) {
            Ok(mut file) => write_whole(&mut file, bytes),
            Err(_) => false,
        }
    }
}

impl<R: Files + Clone + Drop> Shelf for FileShelf<R> {
    ghost held = { λ _. None };

    ghost fetch_faults = { λ s _. s.fetches };

    ghost put_faults = { λ s _. s.puts };

    ghost calls = { λ s. s.calls };

    ghost wants = { λ s. s.wants };

    fn fetch(&mut self, alloc: Global, name: &str, limit: u64) -> Result<Vec<u8>, FetchError>
        ensures answer { FetchAnswer None name.now limit (Rose self.old.fetches self.new.fetches) result }
        ensures fetch_faults { self.old.fetches ≤ self.new.fetches }
        ensures put_faults { self.old.puts ≤ self.new.puts }
        ensures steady { FetchCounts (λ _. self.old.fetches) (λ _. self.new.fetches) result }
        ensures calls { self.new.calls ≡ next_count self.old.calls }
        ensures wants { self.new.wants ≡ wants_after_fetch self.old.wants result }

        ensures after { self.new ≡ counts_after_fetch self.old result }
    {
        self.calls = self.calls.saturating_add(1);
        match self.read(alloc, name, limit.saturating_add(1)) {
            Ok(bytes) if bytes.len() as u64 <= limit => Ok(bytes),
            Ok(_) => Err(FetchError::TooLarge { limit }),
            Err(ReadStop::NoMemory) => {
                self.wants = self.wants.saturating_add(1);
                Err(FetchError::NoMemory)
            }
            Err(ReadStop::Failed) => {
                self.failed_fetches = self.failed_fetches.saturating_add(1);
                Err(FetchError::Failed)
            }
        }
    }

    fn put(&mut self, _alloc: Global, name: &str, bytes: &[u8]) -> Result<(), PutError>
        ensures answer { PutAnswer None None name.now bytes.now (Rose self.old.puts self.new.puts) result }
        ensures fetch_faults { self.old.fetches ≤ self.new.fetches }
        ensures put_faults { self.old.puts ≤ self.new.puts }
        ensures steady { PutCounts (λ _. self.old.puts) (λ _. self.new.puts) result }
        ensures calls { self.new.calls ≡ next_count self.old.calls }
        ensures wants { self.new.wants ≡ wants_after_put self.old.wants result }

        // It takes no memory.
        ensures memory { result ≢ Err PutError.NoMemory }
        ensures after { self.new ≡ counts_after_put self.old result }
    {
        self.calls = self.calls.saturating_add(1);
        if !self.write(name, bytes) {
            self.failed_puts = self.failed_puts.saturating_add(1);
            return Err(PutError::Failed);
        }
        Ok(())
    }
}
