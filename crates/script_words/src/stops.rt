//! What ends a run early.

ghost use Rattle.std.specs.Prelude.{◌≡◌};
ghost use Rattle.script_words.specs.declared.stops.CounterKind.TheVariants as kinds;
ghost use Rattle.script_words.specs.declared.stops.Stop.TheVariants as stops;

use crate::counter::CounterFull;
use std::alloc::{AllocError, AllocFailed};

/// A counter of a run that has a last value.
#[derive(Clone, Copy, PartialEq, Eq, Debug)]
pub enum CounterKind {
    /// Serial numbers of threads.
    Thread,
    /// Serial numbers of sprites and clones.
    Instance,
    /// Usage numbers of bubbles.
    Bubble,
    /// Numbers of frames.
    Frame,
    /// Random words that were drawn.
    Words,
}

/// Why a run ends before its script does.
#[derive(Clone, Copy, PartialEq, Eq, Debug)]
pub enum Stop {
    /// The threads together have as many open levels as they may have.
    Stack,
    /// A text of this many bytes was to be made, which is more than a value may have.
    Text {
        /// The length of that text, in bytes.
        length: u64,
    },
    /// This counter stands at its last value.
    Counter {
        /// The counter.
        which: CounterKind,
    },
    /// Memory ran out.
    NoMemory,
}

impl From<CounterFull> for Stop {
    ghost from_gives = { λ _ stop. stop ≡ stops.Counter (kinds.Words) };

    fn from(_: CounterFull) -> Stop {
        Stop::Counter {
            which: CounterKind::Words,
        }
    }
}

impl From<AllocError> for Stop {
    ghost from_gives = { λ _ stop. stop ≡ stops.NoMemory };

    fn from(_: AllocError) -> Stop {
        Stop::NoMemory
    }
}

impl<T: Drop> From<AllocFailed<T>> for Stop {
    ghost from_gives = { λ _ stop. stop ≡ stops.NoMemory };

    fn from(_: AllocFailed<T>) -> Stop {
        Stop::from(AllocError)
    }
}
