//! Words that are counted as they are drawn.

ghost use Rattle.std.specs.Prelude.{◌<◌, ◌^◌};

use rand_core::Rng;

/// The counter of drawn words stands at its last value, 2^62 − 1, so no further word can be drawn.
#[derive(Clone, Copy, PartialEq, Eq, Debug)]
pub struct CounterFull;

/// A source of 32-bit words, and how many were drawn from it.
#[derive(Drop)]
pub struct Counted<R> {
    source: R,
    drawn: u64,
    ghost in_range: { drawn < 2 ^ 62 },
}

/// Where a counter of a run stands when no number is left.
pub const LAST_NUMBER: u64 = (1 << 62) - 1;

impl<R: Rng + Drop> Counted<R> {
    ghost use Rattle.std.specs.Prelude.{◌≡◌, ◌<◌, ◌-◌, ◌+◌, ◌^◌, ◌↔◌, IfOk, IsErr, OnOk, OnErr};
    ghost use Rattle.rand_core.specs.Stream.{next_u32};
    ghost use Rattle.script_words.specs.Counting.{drawn_of, source_of};

    /// The source, from which `drawn` words were drawn before.
    pub fn new(source: R, drawn: u64) -> Self
        requires { drawn < 2 ^ 62 }
        ensures source { source_of result ≡ source }
        ensures drawn { drawn_of result ≡ drawn }
    {
        Counted { source, drawn }
    }

    /// How many words were drawn.
    pub fn drawn(&self) -> u64
        ensures value { result ≡ drawn_of self.now }
        ensures small { result < 2 ^ 62 }
    {
        self.drawn
    }

    /// The source's next word, which is counted. CounterFull exactly where 2^62 − 1 words were
    /// drawn, and then nothing changes.
    pub fn draw(&mut self) -> Result<u32, CounterFull>
        ensures full { IsErr result ↔ (drawn_of self.old ≡ 2 ^ 62 - 1) }
        ensures word { IfOk result (λ w. (w, R.stream (source_of self.new)) ≡ next_u32 (R.stream (source_of self.old))) }
        ensures counted { OnOk result (drawn_of self.new ≡ drawn_of self.old + 1) }
        ensures unchanged { OnErr result (self.new ≡ self.old) }
    {
        if self.drawn == LAST_NUMBER {
            return Err(CounterFull);
        }
        let word = self.source.next_u32();
        self.drawn += 1;
        Ok(word)
    }
}
