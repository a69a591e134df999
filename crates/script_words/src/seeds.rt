//! The words of a seed.

ghost use Rattle.std.specs.Prelude.{◌≡◌, ◌<◌, ◌+◌, ◌^◌, ℕ, drop};
ghost use Rattle.rand_core.specs.Steps.{first_words};
ghost use Rattle.rand_core.specs.Stream.{next_u32};
ghost use Rattle.script_words.specs.Counting.{drawn_of, source_of};
ghost use Rattle.script_words.specs.Words.{answers, seeded, without};

use crate::counter::Counted;
use rand_core::SeedableRng;
use rand_pcg::Pcg32;

/// The words of a seed behind the first `drawn` of them, which is reached in logarithmic time: the
/// generator PCG32, seeded by `seed_from_u64` of the Rust crate rand_core. It takes no memory.
pub fn pcg(seed: u64, drawn: u64) -> Counted<Pcg32>
    requires { drawn < 2 ^ 62 }
    ensures drawn { drawn_of result ≡ drawn }
    ensures stream { answers (source_of result) ≡ without drawn (answers (seeded seed)) }
    ensures words { (n : ℕ) → first_words next_u32 n (answers (source_of result)) ≡ drop drawn (first_words next_u32 (drawn + n) (answers (seeded seed))) }
{
    let mut source = Pcg32::seed_from_u64(seed);
    source.advance(drawn);
    Counted::new(source, drawn)
}
