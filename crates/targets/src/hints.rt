//! Where numbers of instances are found first: for each remainder of a number a place, from which on it is sought.

ghost use Rattle.std.specs.Prelude.{◌≡◌, ◌<◌, ◌%◌, length, IfOk};
ghost use Rattle.targets.specs.Hints.{slots, IsHinted};

use machine_spec::InstanceId;
use std::alloc::{AllocError, Global};

// How many hints there are.
const SLOTS: usize = 2048;

// Hints that all point to the front. The only error is want of memory.
pub(crate) fn none(alloc: Global) -> Result<Vec<usize>, AllocError>
    ensures { IfOk result (λ hints. length hints.items ≡ slots) }
{
    Ok(vec![in alloc; 0; SLOTS]?)
}

// The place of the hint of a number.
#[inline]
pub(crate) fn slot(id: InstanceId) -> usize
    ensures place { result ≡ id % slots }
    ensures within { result < slots }
{
    (id.0 % SLOTS as u64) as usize
}

// Notes the first place of each number.
pub(crate) fn note(hints: &mut [usize], ids: &[InstanceId])
    requires { length hints.old ≡ slots }
    ensures { IsHinted hints.new ids.now }
{
    for place in (0..ids.len()).rev() {
        hints[slot(ids[place])] = place;
    }
}
