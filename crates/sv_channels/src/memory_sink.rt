//! Sinks in memory, for tests.

ghost use Rattle.std.specs.Prelude.{◌≡◌, ◌≢◌, ◌≤◌, [], ◌++◌, take, Some, Err, OnOk, IfErr};
ghost use Rattle.sv_channels.specs.Counts.{next_count, Rose};
ghost use Rattle.sv_channels.specs.Sink.{WriteAnswer, WriteCounts, wants_after_write};
ghost use Rattle.sv_channels.specs.Memory.{after_steady, fails_after, WritesAs, after_write};

use crate::numbers::second_of;
use crate::{Pairs, Sink, SinkError};
use std::alloc::Global;
use std::marker::Model;

/// Keeps all that is written, and fails only for want of memory. Its count of faults is 0.
#[derive(Drop)]
pub struct SteadySink {
    bytes: Vec<u8>,
    calls: u64,
    wants: u64,
}

impl Model for SteadySink {
    ghost use Rattle.sv_channels.specs.Memory.{SteadyState};

    ghost Value = { SteadyState };

    ghost view = { λ s. record { written = s.bytes.items; calls = s.calls; wants = s.wants } };
}

impl SteadySink {
    /// Nothing is written yet.
    pub fn new(alloc: Global) -> Self
        ensures { result ≡ record { written = []; calls = 0; wants = 0 } }
    {
        SteadySink {
            bytes: Vec::new(alloc),
            calls: 0,
            wants: 0,
        }
    }

    /// All the bytes written so far.
    pub fn written(&self) -> &[u8]
        ensures { result.now ≡ self.now.written }
    {
        &self.bytes
    }
}

impl Sink for SteadySink {
    ghost written = { λ s. Some s.written };

    ghost faults = { λ _. 0 };

    ghost calls = { λ s. s.calls };

    ghost wants = { λ s. s.wants };

    /// Fails only for want of memory.
    fn write(&mut self, _alloc: Global, bytes: &[u8]) -> Result<(), SinkError>
        ensures answer { WriteAnswer (Some self.old.written) (Some self.new.written) bytes.now (Rose 0 0) result }
        ensures calls { self.new.calls ≡ next_count self.old.calls }
        ensures wants { self.new.wants ≡ wants_after_write self.old.wants result }

        ensures exact { result ≢ Err SinkError.Failed }
        ensures after { self.new ≡ after_steady self.old bytes.now result }
    {
        self.calls = self.calls.saturating_add(1);
        match self.bytes.extend_from_slice(bytes) {
            Ok(()) => Ok(()),
            Err(_) => {
                self.wants = self.wants.saturating_add(1);
                Err(SinkError::NoMemory)
            }
        }
    }
}

/// Keeps what is written. Its calls are numbered from 0. A pair of a call's number and a length makes that call append
/// the first bytes of its piece, so many or the whole piece, and fail. Of two pairs for one call the first counts.
#[derive(Drop)]
pub struct MemorySink {
    bytes: Vec<u8>,
    fails: Pairs,
    calls: u64,
    faults: u64,
    wants: u64,
}

impl Model for MemorySink {
    ghost use Rattle.sv_channels.specs.Memory.{SinkState};

    ghost Value = { SinkState };

    ghost view = { λ s. record {
      written = s.bytes.items;
      fails = s.fails;
      calls = s.calls;
      faults = s.faults;
      wants = s.wants;
    } };
}

impl MemorySink {
    /// Nothing is written yet, and the listed calls fail.
    pub fn new(alloc: Global, fails: Pairs) -> Self
        ensures { result ≡ record { written = []; fails = fails; calls = 0; faults = 0; wants = 0 } }
    {
        MemorySink {
            bytes: Vec::new(alloc),
            fails,
            calls: 0,
            faults: 0,
            wants: 0,
        }
    }

    /// All the bytes written so far.
    pub fn written(&self) -> &[u8]
        ensures { result.now ≡ self.now.written }
    {
        &self.bytes
    }

    // Appends the bytes, or counts that there was no memory.
    fn append(&mut self, bytes: &[u8]) -> Result<(), SinkError>
        ensures ok { OnOk result (self.new ≡ record self.old { written = self.old.written ++ bytes.now }) }
        ensures err { IfErr result (λ error. (error ≡ SinkError.NoMemory)
            × (self.new ≡ record self.old { wants = next_count self.old.wants })) }
    {
        match self.bytes.extend_from_slice(bytes) {
            Ok(()) => Ok(()),
            Err(_) => {
                self.wants = self.wants.saturating_add(1);
                Err(SinkError::NoMemory)
            }
        }
    }
}

// The first `count` bytes of the piece, or all of it.
fn first_part(bytes: &[u8], count: u64) -> &[u8]
    ensures { result.now ≡ take count bytes.now }
{
    if count < bytes.len() as u64 {
        &bytes[..count as usize]
    } else {
        bytes
    }
}

impl Sink for MemorySink {
    ghost written = { λ s. Some s.written };

    ghost faults = { λ s. s.faults };

    ghost calls = { λ s. s.calls };

    ghost wants = { λ s. s.wants };

    /// Fails exactly where the call is listed, but for want of memory.
    fn write(&mut self, _alloc: Global, bytes: &[u8]) -> Result<(), SinkError>
        ensures answer { WriteAnswer (Some self.old.written) (Some self.new.written) bytes.now
            (Rose self.old.faults self.new.faults) result }
        ensures faults { self.old.faults ≤ self.new.faults }
        ensures steady { WriteCounts self.old.faults self.new.faults result }
        ensures calls { self.new.calls ≡ next_count self.old.calls }
        ensures wants { self.new.wants ≡ wants_after_write self.old.wants result }

        ensures exact { WritesAs (fails_after self.old) result }
        ensures after { self.new ≡ after_write self.old bytes.now result }
    {
        let cut = second_of(&self.fails, self.calls);
        self.calls = self.calls.saturating_add(1);
        match cut {
            None => {
                self.append(bytes)?;
                Ok(())
            }
            Some(count) => {
                self.append(first_part(bytes, count))?;
                self.faults = self.faults.saturating_add(1);
                Err(SinkError::Failed)
            }
        }
    }
}
