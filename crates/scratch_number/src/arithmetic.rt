ghost use Rattle.std.specs.Prelude.{◌≡◌, ◌≢◌, ◌≤◌, ◌<◌, ◌+◌, ◌*◌, ◌^◌, pos, unsigned_abs};
ghost use Rattle.scratch_number.specs.Arithmetic.{add, div, finite_modulo, infinity_over, modulo, mul, ratio, sub};
ghost use Rattle.scratch_number.specs.Number.{infinity_by, limit, near, near_size, number};

use crate::number::{Num, Raw, negated, of_millionths, of_size, of_whole};

// Below it 64 bits hold twice a number and twice another: 2^61.
const SMALL: u128 = 1 << 61;

/// The sum. `Inf` and `NegInf` together are not a number.
#[inline]
pub fn add(a: Num, b: Num) -> Num
    ensures { result ≡ add a b }
{
    match a {
        Num::Fixed(x) => match b {
            Num::Fixed(y) => of_millionths(x.get() as i128 + y.get() as i128),
            Num::Inf => Num::Inf,
            Num::NegInf => Num::NegInf,
            Num::Nan => Num::Nan,
        },
        Num::Inf => match b {
            Num::Fixed(_) => Num::Inf,
            Num::Inf => Num::Inf,
            Num::NegInf => Num::Nan,
            Num::Nan => Num::Nan,
        },
        Num::NegInf => match b {
            Num::Fixed(_) => Num::NegInf,
            Num::Inf => Num::Nan,
            Num::NegInf => Num::NegInf,
            Num::Nan => Num::Nan,
        },
        Num::Nan => Num::Nan,
    }
}

/// The difference `a − b`.
pub fn sub(a: Num, b: Num) -> Num
    ensures { result ≡ sub a b }
{
    add(a, negated(b))
}

/// The product.
pub fn mul(a: Num, b: Num) -> Num
    ensures { result ≡ mul a b }
{
    match a {
        Num::Fixed(x) => match b {
            Num::Fixed(y) => near(x.get() as i128 * y.get() as i128, 1_000_000),
            Num::Inf => infinity_by(x),
            Num::NegInf => negated(infinity_by(x)),
            Num::Nan => Num::Nan,
        },
        Num::Inf => match b {
            Num::Fixed(y) => infinity_by(y),
            Num::Inf => Num::Inf,
            Num::NegInf => Num::NegInf,
            Num::Nan => Num::Nan,
        },
        Num::NegInf => match b {
            Num::Fixed(y) => negated(infinity_by(y)),
            Num::Inf => Num::NegInf,
            Num::NegInf => Num::Inf,
            Num::Nan => Num::Nan,
        },
        Num::Nan => Num::Nan,
    }
}

/// The quotient. A number by 0 is the infinity of its sign, 0 by 0 is not a number.
pub fn div(a: Num, b: Num) -> Num
    ensures { result ≡ div a b }
{
    match a {
        Num::Fixed(x) => match b {
            Num::Fixed(y) => ratio(x, y),
            Num::Inf => of_whole(0),
            Num::NegInf => of_whole(0),
            Num::Nan => Num::Nan,
        },
        Num::Inf => match b {
            Num::Fixed(y) => signed_like(y, Num::Inf),
            Num::Inf => Num::Nan,
            Num::NegInf => Num::Nan,
            Num::Nan => Num::Nan,
        },
        Num::NegInf => match b {
            Num::Fixed(y) => signed_like(y, Num::NegInf),
            Num::Inf => Num::Nan,
            Num::NegInf => Num::Nan,
            Num::Nan => Num::Nan,
        },
        Num::Nan => Num::Nan,
    }
}

/// `a` modulo `b`. Where both are finite and `b` is not 0, it is what is left of `a` after whole
/// multiples of `b`: it has the sign of `b`, or is 0. Where `a` is finite and `b` infinite, it is
/// `a` itself. In all other cases, as where `b` is 0, it is not a number.
pub fn modulo(a: Num, b: Num) -> Num
    ensures { result ≡ modulo a b }
{
    match a {
        Num::Fixed(x) => match b {
            Num::Fixed(y) => remainder(x, y),
            Num::Inf => a,
            Num::NegInf => a,
            Num::Nan => Num::Nan,
        },
        Num::Inf => Num::Nan,
        Num::NegInf => Num::Nan,
        Num::Nan => Num::Nan,
    }
}

// The infinity that has the sign of `x`, and not a number at 0.
fn infinity_by(x: Raw) -> Num
    ensures { result ≡ infinity_by x }
{
    if x.get() > 0 {
        return Num::Inf;
    }
    if x.get() < 0 {
        return Num::NegInf;
    }
    Num::Nan
}

// `a` with the sign that it gets when it is divided by `y`, where 0 is positive.
fn signed_like(y: Raw, a: Num) -> Num
    ensures { result ≡ infinity_over a y }
{
    if y.get() < 0 { negated(a) } else { a }
}

// `x / y` of finite numbers. The dividend in millionths is at most 9·10^24 in size, below 2^83.
fn ratio(x: Raw, y: Raw) -> Num
    ensures { result ≡ ratio x y }
{
    if y.get() == 0 {
        return infinity_by(x);
    }
    near(x.get() as i128 * 1_000_000, y.get() as i128)
}

// The number of `n / d` millionths, rounded to the nearest, halves away from zero. A product of
// two raws is at most 81·10^36 in size, below 2^126, so an `i128` holds it, and a `u128` holds
// twice it with a divisor.
fn near(n: i128, d: i128) -> Num
    requires divisor { d ≢ pos 0 }
    requires small { unsigned_abs n ≤ limit * limit }
    requires small_divisor { unsigned_abs d ≤ limit }
    ensures { result ≡ number (near n d) }
{
    let size = near_size(n.unsigned_abs(), d.unsigned_abs());
    if (n < 0) == (d < 0) {
        of_size(size)
    } else {
        negated(of_size(size))
    }
}

// `n / d` rounded to the nearest, halves up.
pub(crate) fn near_size(n: u128, d: u128) -> u128
    requires divisor { 0 < d }
    requires fits { 2 * n + 2 * d < 2 ^ 128 }
    ensures { result ≡ near_size n d }
{
    if n < SMALL && d < SMALL {
        return near_small(n as u64, d as u64) as u128;
    }
    (2 * n + d) / (2 * d)
}

// The same of numbers below 2^61, where 64 bits hold all steps.
#[inline]
fn near_small(n: u64, d: u64) -> u64
    requires divisor { 0 < d }
    requires small { n < 2 ^ 61 }
    requires small_divisor { d < 2 ^ 61 }
    ensures { result ≡ near_size n d }
{
    (2 * n + d) / (2 * d)
}

// What is left of `x` after whole multiples of `y`, and not a number at 0.
fn remainder(x: Raw, y: Raw) -> Num
    ensures { result ≡ finite_modulo x y }
{
    let (a, b) = (x.get(), y.get());
    if b == 0 {
        return Num::Nan;
    }
    if b > 0 {
        return of_millionths(a.rem_euclid(b) as i128);
    }
    of_millionths(-((-a).rem_euclid(-b) as i128))
}
