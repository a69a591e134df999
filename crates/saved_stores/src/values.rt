//! Values of variables and items of lists.

ghost use Rattle.std.specs.Prelude.{◌≡◌, true, map, IfOk};
ghost use Rattle.std.specs.List.{list_all};
ghost use Rattle.saved_parts.specs.Telling.{value_of};
ghost use Rattle.saved_spec.specs.Rules.{is_short};

use saved_parts::{ToldLists, ToldValues, value};
use scratch_values::{ValueLists, Values};
use std::alloc::{AllocError, Global};

// The values that are told, whose texts are short enough. The only error is want of memory.
pub(crate) fn values(alloc: Global, told: ToldValues) -> Result<Values, AllocError>
    requires { list_all is_short (map value_of told) ≡ true }
    ensures { IfOk result (λ values. values ≡ map value_of told) }
{
    let mut values = Values::new(alloc);
    for told in told.into_vec() {
        values.push(value(alloc, told)?)?;
    }
    Ok(values)
}

// The lists that are told, whose texts are short enough. The only error is want of memory.
pub(crate) fn lists(alloc: Global, told: ToldLists) -> Result<ValueLists, AllocError>
    requires { list_all (list_all is_short) (map (map value_of) told) ≡ true }
    ensures { IfOk result (λ lists. lists ≡ map (map value_of) told) }
{
    let mut lists = ValueLists::new(alloc);
    for told in told.into_vec() {
        lists.push(values(alloc, told)?)?;
    }
    Ok(lists)
}
