//! Random words, which are counted as they are drawn, and what ends a run early.
//!
//! A source of words is any generator of the crate `rand_core`. [`pcg`] gives the one that a run
//! uses: it begins at a seed, behind the words that were drawn before.
#![tactic(auto)]

mod counter;
mod seeds;
mod stops;

pub use counter::{Counted, CounterFull, LAST_NUMBER};
pub use rand_core::Rng;
pub use seeds::pcg;
pub use stops::{CounterKind, Stop};
