ghost use Rattle.std.specs.Prelude.{◌≡◌, ◌≤◌, ◌+◌, ◌*ℤ◌, unsigned_abs};
ghost use Rattle.scratch_number.specs.Arithmetic.{abs, ceiling, floor, million, round};
ghost use Rattle.scratch_number.specs.Number.{floor_quotient, limit};

use crate::number::{Num, negated, of_millionths, of_size};

/// The number rounded to the nearest whole number, halves up.
pub fn round(a: Num) -> Num
    ensures { result ≡ round a }
{
    match a {
        Num::Fixed(x) => of_millionths(whole_part(x.get() as i128 + 500_000)),
        Num::Inf => Num::Inf,
        Num::NegInf => Num::NegInf,
        Num::Nan => Num::Nan,
    }
}

/// The number rounded down to a whole number.
pub fn floor(a: Num) -> Num
    ensures { result ≡ floor a }
{
    match a {
        Num::Fixed(x) => of_millionths(whole_part(x.get() as i128)),
        Num::Inf => Num::Inf,
        Num::NegInf => Num::NegInf,
        Num::Nan => Num::Nan,
    }
}

/// The number rounded up to a whole number.
pub fn ceiling(a: Num) -> Num
    ensures { result ≡ ceiling a }
{
    negated(floor(negated(a)))
}

/// The number without its sign.
pub fn abs(a: Num) -> Num
    ensures { result ≡ abs a }
{
    match a {
        Num::Fixed(x) => of_size(x.get().unsigned_abs() as u128),
        Num::Inf => Num::Inf,
        Num::NegInf => Num::Inf,
        Num::Nan => Num::Nan,
    }
}

// The largest whole number of millions that is at most `millionths`, in millionths.
fn whole_part(millionths: i128) -> i128
    requires { unsigned_abs millionths ≤ limit + 500000 }
    ensures value { result ≡ floor_quotient millionths million *ℤ million }
    ensures small { unsigned_abs result ≤ unsigned_abs millionths + 1000000 }
{
    millionths.div_euclid(1_000_000) * 1_000_000
}
