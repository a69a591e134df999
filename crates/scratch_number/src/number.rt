ghost use Rattle.std.specs.Prelude.{◌≡◌, ◌≤◌, ◌<◌, ◌*ℤ◌, pos, unsigned_abs, unwrap_or, SomeIff};
ghost use Rattle.std.specs.Ordering.{is_lt};
ghost use Rattle.std.specs.declared.cmp.Ordering.TheVariants.{Equal};
ghost use Rattle.scratch_number.specs.Number.{limit, negated, number, order};

use std::cmp::Ordering;
use std::marker::Model;

/// A finite number's whole millionths, of at most 9·10^18 in size.
#[derive(Clone, Copy, PartialEq, Eq, Debug)]
pub struct Raw {
    millionths: i64,
}

impl Model for Raw {
    ghost use Rattle.std.specs.Prelude.{ℤ, ◌≤◌, unsigned_abs};
    ghost use Rattle.scratch_number.specs.Limit.{limit};

    ghost Value = { ℤ };

    ghost view = { λ r. r.millionths };

    ghost invariant = { λ r. unsigned_abs r.millionths ≤ limit };

    ghost inverse = { λ z. record { millionths = z } };
}

/// A number of the profile.
#[derive(Clone, Copy, PartialEq, Eq, Debug)]
pub enum Num {
    /// A finite number.
    Fixed(Raw),
    /// Above every finite number.
    Inf,
    /// Below every finite number.
    NegInf,
    /// Not a number.
    Nan,
}

const LIMIT: i64 = 9_000_000_000_000_000_000;

impl Raw {
    /// These millionths, where they are at most 9·10^18 in size.
    pub fn new(millionths: i64) -> Option<Raw>
        ensures { SomeIff result (unsigned_abs millionths ≤ limit) millionths }
    {
        if millionths < -LIMIT || LIMIT < millionths {
            return None;
        }
        Some(Raw { millionths })
    }

    /// The whole millionths.
    #[inline]
    pub fn get(self) -> i64
        ensures value { result ≡ self }
        ensures small { unsigned_abs result ≤ limit }
    {
        self.millionths
    }
}

/// The number of these millionths; past 9·10^18 it is the infinity of its sign.
#[inline]
pub fn of_millionths(millionths: i128) -> Num
    ensures { result ≡ number millionths }
{
    if millionths > LIMIT as i128 {
        return Num::Inf;
    }
    if millionths < -(LIMIT as i128) {
        return Num::NegInf;
    }
    Num::Fixed(Raw {
        millionths: millionths as i64,
    })
}

// The number of this many millionths; past 9·10^18 it is infinite.
#[inline]
pub(crate) fn of_size(millionths: u128) -> Num
    ensures { result ≡ number (pos millionths) }
{
    if millionths > LIMIT as u128 {
        return Num::Inf;
    }
    Num::Fixed(Raw {
        millionths: millionths as i64,
    })
}

/// The whole number `n`; past 9·10^12 it is the infinity of its sign.
#[inline]
pub fn of_whole(n: i64) -> Num
    ensures { result ≡ number (n *ℤ pos 1000000) }
{
    of_millionths(n as i128 * 1_000_000)
}

// The number of the opposite sign.
#[inline]
pub(crate) fn negated(a: Num) -> Num
    ensures { result ≡ negated a }
{
    match a {
        Num::Fixed(raw) => Num::Fixed(Raw {
            millionths: -raw.millionths,
        }),
        Num::Inf => Num::NegInf,
        Num::NegInf => Num::Inf,
        Num::Nan => Num::Nan,
    }
}

/// Which of two numbers is less. None exactly where one is not a number; an infinity equals itself.
#[inline]
pub fn order(a: Num, b: Num) -> Option<Ordering>
    ensures { result ≡ order a b }
{
    match a {
        Num::Nan => None,
        Num::Fixed(x) => match b {
            Num::Fixed(y) => Some(x.get().cmp(&y.get())),
            Num::Inf => Some(Ordering::Less),
            Num::NegInf => Some(Ordering::Greater),
            Num::Nan => None,
        },
        Num::Inf => match b {
            Num::Fixed(_) => Some(Ordering::Greater),
            Num::Inf => Some(Ordering::Equal),
            Num::NegInf => Some(Ordering::Greater),
            Num::Nan => None,
        },
        Num::NegInf => match b {
            Num::Fixed(_) => Some(Ordering::Less),
            Num::Inf => Some(Ordering::Less),
            Num::NegInf => Some(Ordering::Equal),
            Num::Nan => None,
        },
    }
}

/// Whether a number is less than another; what is not a number is neither.
#[inline]
pub fn is_less(a: Num, b: Num) -> bool
    ensures { result ≡ is_lt (unwrap_or (order a b) Equal) }
{
    matches!(order(a, b), Some(Ordering::Less))
}
