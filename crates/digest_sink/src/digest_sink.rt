//! The sink and what it tells at the end.

ghost use Rattle.std.specs.Prelude.{◌≡◌, ◌<◌, ◌-◌, ◌^◌, [], Ok, Some, length};
ghost use Rattle.sha2.specs.Sha256.{sha256};
ghost use Rattle.sv_channels.specs.Counts.{next_count, Rose};
ghost use Rattle.sv_channels.specs.Sink.{WriteAnswer, WriteCounts, wants_after_write};
ghost use Rattle.digest_sink.specs.Digests.{after_digest};

use crate::given::{Given, Piece};
use sha2::{Digest, Sha256};
use std::alloc::Global;
use std::marker::Model;
use sv_channels::{Sink, SinkError};

/// Takes all that is written, and never fails: its counts of faults and of wants are 0. Contracts see all the bytes
/// (`written`), and it stores none of them.
#[derive(Drop)]
pub struct DigestSink {
    hasher: Sha256,
    given: Given,
    count: u128,
    calls: u64,
}

impl Model for DigestSink {
    ghost use Rattle.std.specs.Prelude.{◌≡◌, ℕ, ◌*◌, ◌-◌, ◌^◌, ◌<◌, ◌≤◌, length};
    ghost use Rattle.sha2.specs.Hashers.{Holds256};
    ghost use Rattle.digest_sink.specs.Digests.{DigestState};

    ghost Value = { DigestState };

    ghost view = { λ s. record { written = s.given.bytes; calls = s.calls } };

    // The hasher holds the bytes. Their count is theirs as long as that of the calls is, since each piece is shorter than 2^64.
    ghost invariant = { λ s. Holds256 s.hasher s.given.bytes
        × (s.calls < 2 ^ 64 - 1 → (s.count ≡ length s.given.bytes) × (s.count ≤ s.calls * 2 ^ 64)) };
}

impl DigestSink {
    /// Nothing is written yet.
    pub fn new() -> Self
        ensures { result ≡ record { written = []; calls = 0 } }
    {
        DigestSink {
            hasher: Sha256::new(),
            given: Given::new(),
            count: 0,
            calls: 0,
        }
    }

    /// How many bytes were written; exact after fewer than 2^64 - 1 writes.
    pub fn length(&self) -> u128
        ensures { self.now.calls < 2 ^ 64 - 1 → result ≡ length self.now.written }
    {
        self.count
    }

    /// The SHA-256 digest of all the bytes.
    pub fn digest(self) -> [u8; 32]
        ensures { result ≡ sha256 self.written }
    {
        self.hasher.finalize()
    }
}

impl Sink for DigestSink {
    ghost written = { λ s. Some s.written };

    ghost faults = { λ _. 0 };

    ghost calls = { λ s. s.calls };

    ghost wants = { λ _. 0 };

    /// Never fails.
    fn write(&mut self, _alloc: Global, bytes: &[u8]) -> Result<(), SinkError>
        ensures answer { WriteAnswer (Some self.old.written) (Some self.new.written) bytes.now (Rose 0 0) result }
        ensures calls { self.new.calls ≡ next_count self.old.calls }

        ensures exact { result ≡ Ok tt }
        ensures after { self.new ≡ after_digest self.old bytes.now }
    {
        self.hasher.update(bytes);
        self.given = self.given.then(&Piece { bytes });
        self.count = self.count.saturating_add(bytes.len() as u128);
        self.calls = self.calls.saturating_add(1);
        Ok(())
    }
}
