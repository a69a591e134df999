//! Functions of one number.

ghost use Rattle.std.specs.Prelude.{◌≡◌, IfOk};
ghost use Rattle.scratch_values.specs.Folding.{folded};
ghost use Rattle.machine_spec.specs.Reporters.{mathop};

use scratch_number::{Num, abs, acos, asin, atan, ceiling, cos, floor, of_whole, sin, sqrt, tan};
use scratch_values::fold;
use std::alloc::{AllocError, Global};

// The function of a name without its case; another name gives 0.
fn function(name: &str, number: Num) -> Num
    ensures { result ≡ mathop name.now number }
{
    match name {
        "abs" => abs(number),
        "floor" => floor(number),
        "ceiling" => ceiling(number),
        "sqrt" => sqrt(number),
        "sin" => sin(number),
        "cos" => cos(number),
        "tan" => tan(number),
        "asin" => asin(number),
        "acos" => acos(number),
        "atan" => atan(number),
        _ => of_whole(0),
    }
}

/// The function of a name in any case: `abs`, `floor`, `ceiling`, `sqrt`, `sin`, `cos`, `tan`, `asin`, `acos` or `atan`,
/// angles in degrees; another name gives 0. The only error is want of memory.
pub fn mathop(alloc: Global, name: &str, number: Num) -> Result<Num, AllocError>
    ensures { IfOk result (λ n. n ≡ mathop (folded name.now) number) }
{
    let name = fold(alloc, name)?;
    Ok(function(name.as_str(), number))
}
