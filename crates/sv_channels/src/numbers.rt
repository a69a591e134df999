//! Lists of numbers, by which a shelf or a sink in memory is told which of its calls fail.

ghost use Rattle.std.specs.Prelude.{◌≡◌, ◌==◌};
ghost use Rattle.std.specs.List.{list_any};
ghost use Rattle.sv_channels.specs.Pairs.{second_of};

use lists::ListOf;

/// A list of numbers.
pub type Numbers = ListOf<u64>;

/// A list of pairs of numbers.
pub type Pairs = ListOf<(u64, u64)>;

// Whether the number is in the list.
pub(crate) fn has_number(numbers: &Numbers, number: u64) -> bool
    ensures { result ≡ list_any (λ n. n == number) numbers.now }
{
    numbers.as_slice().contains(&number)
}

// The second number of the first pair that begins with this number.
pub(crate) fn second_of(pairs: &Pairs, first: u64) -> Option<u64>
    ensures { result ≡ second_of pairs.now first }
{
    for &(number, second) in pairs.as_slice() {
        if number == first {
            return Some(second);
        }
    }
    None
}
