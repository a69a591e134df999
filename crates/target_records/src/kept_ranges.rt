//! How a costume's index, a size and a direction are kept in their ranges.

ghost use Rattle.std.specs.Prelude.{◌≡◌, ◌≤◌, ◌-ℤ◌, ◌+ℤ◌, ◌*ℤ◌, pos, unsigned_abs};
ghost use Rattle.scratch_number.specs.Number.{limit, floor_by};
ghost use Rattle.machine_spec.specs.Costume as costume;
ghost use Rattle.machine_spec.specs.Looks as looks;
ghost use Rattle.machine_spec.specs.Numbers as numbers;

use scratch_number::{Num, is_less, modulo, of_millionths, of_whole, round};

/// The place of a costume by an index that counts from 0: rounded, and wrapped to the number of costumes. An index that is
/// not finite is 0 (scratch-vm, sprites/rendered-target.js, setCostume).
pub fn costume_index(costumes: u32, index: Num) -> u32
    ensures { result ≡ costume.costume_index costumes index }
{
    match modulo(round(index), of_whole(i64::from(costumes))) {
        Num::Fixed(raw) => (raw.get() / 1_000_000) as u32,
        Num::Inf => 0,
        Num::NegInf => 0,
        Num::Nan => 0,
    }
}

/// A size in percent, kept in 0 to 10000 (scratch-vm, sprites/rendered-target.js, setSize; here the bounds do not depend
/// on the costume).
pub fn size_kept(size: Num) -> Num
    ensures { result ≡ looks.size_kept size }
{
    let wanted = size;
    if is_less(wanted, of_whole(0)) {
        return of_whole(0);
    }
    let wanted = size;
    if is_less(of_whole(10000), wanted) {
        return of_whole(10000);
    }
    size
}

// Millionths of degrees, wrapped to -179 to 180 degrees.
fn wrapped(millionths: i128) -> i128
    requires { unsigned_abs millionths ≤ limit }
    ensures { result ≡ millionths -ℤ (pos 360000000 *ℤ floor_by (millionths +ℤ pos 179000000) 360000000) }
{
    millionths - 360_000_000 * (millionths + 179_000_000).div_euclid(360_000_000)
}

/// A direction in degrees, wrapped to -179 to 180; one that is not finite leaves the direction that is `now` (scratch-vm,
/// util/math-util.js, wrapClamp).
pub fn direction_after(direction: Num, now: Num) -> Num
    ensures { result ≡ numbers.direction_after direction now }
{
    match direction {
        Num::Fixed(raw) => of_millionths(wrapped(raw.get() as i128)),
        Num::Inf => now,
        Num::NegInf => now,
        Num::Nan => now,
    }
}
