//! How many originals each target has.

ghost use Rattle.std.specs.Prelude.{◌≡◌, ◌<◌, ◌+◌, ◌-◌, ◌^◌, ◌==◌, ◌&&◌, ℕ, length, slice_index, IfOk, if◌then◌else◌};
ghost use Rattle.std.specs.List.{list_all, range_with_len};
ghost use Rattle.saved_checks.specs.Originals.{AreCounted, HasRoom, is_original_of, originals_of};

use crate::given_numbers::is_original;
use saved_parts::ToldInstance;
use std::alloc::{AllocError, Global};

// Counts an instance, where it is an original, for its target.
fn count_one(counts: &mut Vec<u64>, instance: &ToldInstance)
    requires { HasRoom counts.old.items }
    ensures many { length counts.new.items ≡ length counts.old.items }
    ensures each { (k : ℕ) → k < length counts.old.items → slice_index counts.new.items k ≡ slice_index counts.old.items k + (if is_original_of k instance.now then 1 else 0) }
{
    if !is_original(instance) {
        return;
    }
    let target = instance.of as usize;
    if target < counts.len() {
        counts[target] += 1;
    }
}

// How many of the instances are originals of each target, of so many targets.
fn counts(alloc: Global, targets: usize, instances: &[ToldInstance]) -> Result<Vec<u64>, AllocError>
    ensures { IfOk result (λ counts. AreCounted instances.now targets counts.items) }
{
    let mut counts = vec![in alloc; 0u64; targets]?;
    for instance in instances {
        count_one(&mut counts, instance);
    }
    Ok(counts)
}

// Whether all are 1.
fn are_one(counts: &[u64]) -> bool
    ensures { result ≡ list_all (λ n. n == 1) counts.now }
{
    counts.iter().all(|count| *count == 1)
}

// Whether each of so many targets has exactly one original.
pub(crate) fn are_there(
    alloc: Global,
    targets: usize,
    instances: &[ToldInstance],
) -> Result<bool, AllocError>
    ensures { IfOk result (λ r. r ≡ list_all (λ k. originals_of k instances.now == 1) (range_with_len 0 targets)) }
{
    let counts = counts(alloc, targets, instances)?;
    Ok(are_one(&counts))
}
