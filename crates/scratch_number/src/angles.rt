ghost use Rattle.std.specs.Prelude.{◌≡◌, ◌≤◌, ◌<◌, ◌+◌, ◌-◌, ◌*◌, pos};
ghost use Rattle.scratch_number.specs.Angles.{IsSquareRoot, acos, arcsine, asin, atan, atan2, atan_to_45, cos, degrees_below, direction_of, sin, sine_at, sine_to_180, sine_to_360, sine_to_90, sqrt, tan, turn};
ghost use Rattle.scratch_number.specs.Number.{number};

use crate::arithmetic::{add, div, mul, near_size, sub};
use crate::number::{Num, Raw, negated, of_size, of_whole};

// The sines of 0 to 90 degrees, in millionths.
const SINES: [u32; 91] = [
    0, 17_452, 34_899, 52_336, 69_756, 87_156, 104_528, 121_869, 139_173, 156_434, 173_648,
    190_809, 207_912, 224_951, 241_922, 258_819, 275_637, 292_372, 309_017, 325_568, 342_020,
    358_368, 374_607, 390_731, 406_737, 422_618, 438_371, 453_990, 469_472, 484_810, 500_000,
    515_038, 529_919, 544_639, 559_193, 573_576, 587_785, 601_815, 615_661, 629_320, 642_788,
    656_059, 669_131, 681_998, 694_658, 707_107, 719_340, 731_354, 743_145, 754_710, 766_044,
    777_146, 788_011, 798_636, 809_017, 819_152, 829_038, 838_671, 848_048, 857_167, 866_025,
    874_620, 882_948, 891_007, 898_794, 906_308, 913_545, 920_505, 927_184, 933_580, 939_693,
    945_519, 951_057, 956_305, 961_262, 965_926, 970_296, 974_370, 978_148, 981_627, 984_808,
    987_688, 990_268, 992_546, 994_522, 996_195, 997_564, 998_630, 999_391, 999_848, 1_000_000,
];

const QUARTER_TURN: u64 = 90_000_000;

const HALF_TURN: u64 = 180_000_000;

const ONE: u64 = 1_000_000;

/// The square root: the largest number of millionths whose square is not greater. It is not a
/// number below 0.
pub fn sqrt(a: Num) -> Num
    ensures value { result ≡ sqrt a }
    ensures largest { IsSquareRoot a result }
{
    match a {
        Num::Fixed(x) => root_of(x),
        Num::Inf => Num::Inf,
        Num::NegInf => Num::Nan,
        Num::Nan => Num::Nan,
    }
}

// The square root of a finite number. The product of a raw and 10^6 is below 2^83.
fn root_of(x: Raw) -> Num
    ensures value { result ≡ sqrt (Num.Fixed x) }
    ensures largest { IsSquareRoot (Num.Fixed x) result }
{
    let n = x.get();
    if n < 0 {
        return Num::Nan;
    }
    of_size((n as u128 * 1_000_000).isqrt())
}

/// The sine of an angle in degrees. It is not a number at infinities.
pub fn sin(a: Num) -> Num
    ensures { result ≡ sin a }
{
    match a {
        Num::Fixed(x) => sine_to_360(turn(x)),
        Num::Inf => Num::Nan,
        Num::NegInf => Num::Nan,
        Num::Nan => Num::Nan,
    }
}

/// The cosine of an angle in degrees. It is not a number at infinities.
pub fn cos(a: Num) -> Num
    ensures { result ≡ cos a }
{
    match a {
        Num::Fixed(x) => sine_to_360((turn(x) + QUARTER_TURN) % (2 * HALF_TURN)),
        Num::Inf => Num::Nan,
        Num::NegInf => Num::Nan,
        Num::Nan => Num::Nan,
    }
}

/// The tangent of an angle in degrees: its sine by its cosine.
pub fn tan(a: Num) -> Num
    ensures { result ≡ tan a }
{
    let angle = a;
    div(sin(a), cos(angle))
}

/// The angle in degrees whose sine is `a`. It is not a number outside −1 to 1.
pub fn asin(a: Num) -> Num
    ensures { result ≡ asin a }
{
    match a {
        Num::Fixed(x) => signed_arcsine(x),
        Num::Inf => Num::Nan,
        Num::NegInf => Num::Nan,
        Num::Nan => Num::Nan,
    }
}

/// The angle in degrees whose cosine is `a`. It is not a number outside −1 to 1.
pub fn acos(a: Num) -> Num
    ensures { result ≡ acos a }
{
    sub(of_whole(90), asin(a))
}

/// The angle in degrees whose tangent is `a`; ±90 at the infinities.
pub fn atan(a: Num) -> Num
    ensures { result ≡ atan a }
{
    match a {
        Num::Fixed(x) => finite_atan(x),
        Num::Inf => of_whole(90),
        Num::NegInf => of_whole(-90),
        Num::Nan => Num::Nan,
    }
}

/// The direction in degrees of the point `(dx, dy)`, from the x axis. It is not a number where a
/// coordinate is not finite.
pub fn atan2(dy: Num, dx: Num) -> Num
    ensures { result ≡ atan2 dy dx }
{
    match dy {
        Num::Fixed(y) => match dx {
            Num::Fixed(x) => direction_of(y, x),
            Num::Inf => Num::Nan,
            Num::NegInf => Num::Nan,
            Num::Nan => Num::Nan,
        },
        Num::Inf => Num::Nan,
        Num::NegInf => Num::Nan,
        Num::Nan => Num::Nan,
    }
}

// The angle modulo 360 degrees, in millionths of a degree.
fn turn(x: Raw) -> u64
    ensures value { result ≡ turn x }
    ensures small { result < 360000000 }
{
    x.get().rem_euclid(360_000_000) as u64
}

// The sine of an angle below 360 degrees.
#[tactic(auto, unfolding(crate::specs::Angles::sine_to_360))]
fn sine_to_360(d: u64) -> Num
    requires { d < 360000000 }
    ensures { result ≡ number (sine_to_360 d) }
{
    if d <= HALF_TURN {
        of_size(sine_to_180(d))
    } else {
        negated(of_size(sine_to_180(d - HALF_TURN)))
    }
}

// The sine of an angle up to 180 degrees.
#[tactic(auto, unfolding(crate::specs::Angles::sine_to_180))]
fn sine_to_180(d: u64) -> u128
    requires { d ≤ 180000000 }
    ensures { result ≡ sine_to_180 d }
{
    if d <= QUARTER_TURN {
        sine_to_90(d)
    } else {
        sine_to_90(HALF_TURN - d)
    }
}

// The sine of an angle up to 90 degrees.
#[tactic(auto, unfolding(crate::specs::Angles::sine_to_90))]
fn sine_to_90(d: u64) -> u128
    requires { d ≤ 90000000 }
    ensures { result ≡ sine_to_90 d }
{
    if d == QUARTER_TURN {
        return sine_at(90) as u128;
    }
    let k = d / ONE;
    let rise = step_at(k) * (d % ONE);
    sine_at(k) as u128 + near_size(rise as u128, 1_000_000)
}

// The sine of a whole number of degrees up to 90.
fn sine_at(k: u64) -> u64
    requires { k ≤ 90 }
    ensures value { result ≡ sine_at k }
    ensures small { result ≤ 1000000 }
{
    SINES[k as usize] as u64
}

// How much larger the sine of one degree more is.
fn step_at(k: u64) -> u64
    requires { k < 90 }
    ensures value { result ≡ sine_at (k + 1) - sine_at k }
    ensures rises { 0 < result }
    ensures small { result ≤ 1000000 }
{
    sine_at(k + 1) - sine_at(k)
}

// The arcsine of a finite number.
fn signed_arcsine(x: Raw) -> Num
    ensures { result ≡ asin (Num.Fixed x) }
{
    let v = x.get();
    let size = v.unsigned_abs();
    if size > ONE {
        return Num::Nan;
    }
    if v < 0 {
        negated(of_size(arcsine(size)))
    } else {
        of_size(arcsine(size))
    }
}

// The angle whose sine is `v`, for `v` up to 1.
#[tactic(auto, unfolding(crate::specs::Angles::arcsine))]
fn arcsine(v: u64) -> u128
    requires { v ≤ 1000000 }
    ensures { result ≡ arcsine v }
{
    let k = degrees_below(v);
    let above = (v - sine_at(k)) * ONE;
    (k * ONE) as u128 + near_size(above as u128, step_at(k) as u128)
}

// The largest whole number of degrees up to 89 whose sine is at most `v`.
fn degrees_below(v: u64) -> u64
    ensures value { result ≡ degrees_below v }
    ensures small { result ≤ 89 }
    ensures below { sine_at result ≤ v }
{
    let mut k = 0;
    for i in 0..89 {
        if sine_at(i + 1) <= v {
            k = i + 1;
        }
    }
    k
}

// The arctangent of a finite number.
fn finite_atan(x: Raw) -> Num
    ensures { result ≡ atan (Num.Fixed x) }
{
    let v = x.get();
    if v.unsigned_abs() <= ONE {
        return atan_to_45(Num::Fixed(x));
    }
    let other = atan_to_45(div(of_whole(1), Num::Fixed(x)));
    if v > 0 {
        sub(of_whole(90), other)
    } else {
        sub(of_whole(-90), other)
    }
}

// The arctangent of a number from −1 to 1.
#[tactic(auto, unfolding(crate::specs::Angles::atan_to_45))]
fn atan_to_45(a: Num) -> Num
    ensures { result ≡ atan_to_45 a }
{
    let (side, factor) = (a, a);
    let hypotenuse = sqrt(add(of_whole(1), mul(a, factor)));
    asin(div(side, hypotenuse))
}

// The direction of a point with finite coordinates.
fn direction_of(y: Raw, x: Raw) -> Num
    ensures { result ≡ direction_of y x }
{
    let (dy, dx) = (y.get(), x.get());
    if dx == 0 {
        return axis_direction(dy);
    }
    let within = atan(div(Num::Fixed(y), Num::Fixed(x)));
    if dx > 0 {
        return within;
    }
    if dy >= 0 {
        add(within, of_whole(180))
    } else {
        sub(within, of_whole(180))
    }
}

// The direction of a point on the y axis.
fn axis_direction(dy: i64) -> Num
    ensures { result ≡ direction_of dy (pos 0) }
{
    if dy > 0 {
        return of_whole(90);
    }
    if dy < 0 {
        return of_whole(-90);
    }
    of_whole(0)
}
