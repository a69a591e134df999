//! The standard output.

ghost use Rattle.std.specs.Prelude.{◌≡◌, ◌≢◌, ◌≤◌, None};
ghost use Rattle.sv_channels.specs.Counts.{next_count, Rose};
ghost use Rattle.sv_channels.specs.Edges.{counts_after_write};
ghost use Rattle.sv_channels.specs.Sink.{WriteAnswer, WriteCounts};

use crate::transfer::write_whole;
use crate::{Sink, SinkError};
use std::alloc::Global;
use std::io;
use std::io::Print;
use std::marker::Model;

/// The standard output. What was written is not told.
#[derive(Drop)]
pub struct StdSink<R: Print + Clone + Drop> {
    rt: R,
    faults: u64,
    calls: u64,
}

impl<R: Print + Clone + Drop> Model for StdSink<R> {
    ghost use Rattle.sv_channels.specs.Edges.{OutputCounts};

    ghost Value = { OutputCounts };

    ghost view = { λ s. record { faults = s.faults; calls = s.calls } };
}

impl<R: Print + Clone + Drop> StdSink<R> {
    /// The runtime's standard output. No write was called for yet.
    pub fn new(rt: R) -> Self
        ensures { result ≡ record { faults = 0; calls = 0 } }
    {
        StdSink {
            rt,
            faults: 0,
            calls: 0,
        }
    }
}

impl<R: Print + Clone + Drop> Sink for StdSink<R> {
    ghost written = { λ _. None };

    ghost faults = { λ s. s.faults };

    ghost calls = { λ s. s.calls };

    ghost wants = { λ _. 0 };

    fn write(&mut self, _alloc: Global, bytes: &[u8]) -> Result<(), SinkError>
        ensures answer { WriteAnswer None None bytes.now (Rose self.old.faults self.new.faults) result }
        ensures faults { self.old.faults ≤ self.new.faults }
        ensures steady { WriteCounts self.old.faults self.new.faults result }
        ensures calls { self.new.calls ≡ next_count self.old.calls }

        // It takes no memory.
        ensures memory { result ≢ Err SinkError.NoMemory }
        ensures after { self.new ≡ counts_after_write self.old result }
    {
        self.calls = self.calls.saturating_add(1);
        if !write_whole(&mut io::writer(&self.rt), bytes) {
            self.faults = self.faults.saturating_add(1);
            return Err(SinkError::Failed);
        }
        Ok(())
    }
}
