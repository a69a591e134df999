//! Numbers that were given, and how many things there are.

ghost use Rattle.std.specs.Prelude.{◌≡◌, ◌==◌, ◌&&◌, not, length, filter, nat_lt, nat_le, map};
ghost use Rattle.std.specs.List.{list_all, sum_by};
ghost use Rattle.machine_spec.specs.Outcome.{most_levels};
ghost use Rattle.machine_spec.specs.Stopping.{most_clones};
ghost use Rattle.saved_spec.specs.Rules as rules;

use machine_spec::{BubbleTimer, MOST_CLONES, MOST_LEVELS};
use saved_parts::{ToldInstance, ToldThread};

const LAST_NEXT: u64 = 4_611_686_018_427_387_904;

// Whether a number may be the next that is given.
pub(crate) fn is_next(number: u64) -> bool
    ensures { result ≡ rules.is_next number }
{
    number < LAST_NEXT
}

// Whether an instance has the place of its target as its number.
pub(crate) fn is_original(instance: &ToldInstance) -> bool
    ensures { result ≡ (instance.now.number == instance.now.of) }
{
    instance.number == instance.of
}

// Whether an instance has a number of its own.
fn is_clone(instance: &ToldInstance) -> bool
    ensures { result ≡ not (instance.now.number == instance.now.of) }
{
    instance.number != instance.of
}

// How many clones there are.
fn clones(instances: &[ToldInstance]) -> usize
    ensures { result ≡ length (filter (λ i. not (i.number == i.of)) instances.now) }
{
    let mut clones = 0;
    for instance in instances {
        if is_clone(instance) {
            clones += 1;
        }
    }
    clones
}

// Whether there are at most 300 clones.
pub(crate) fn are_few(instances: &[ToldInstance]) -> bool
    ensures { result ≡ nat_le (length (filter (λ i. not (i.number == i.of)) instances.now)) most_clones }
{
    clones(instances) <= MOST_CLONES
}

// Whether every update of a bubble was before a number that is next.
pub(crate) fn were_updated(instances: &[ToldInstance], next: u64) -> bool
    ensures { result ≡ list_all (λ i. nat_lt i.bubble.usage next) instances.now }
{
    instances
        .iter()
        .all(|instance| instance.bubble.usage < next)
}

// The same of timers.
pub(crate) fn timers_were_updated(timers: &[BubbleTimer], next: u64) -> bool
    ensures { result ≡ list_all (λ x. nat_lt x.usage next) timers.now }
{
    timers.iter().all(|timer| timer.usage < next)
}

// Whether all threads together have at most 65,536 levels.
pub(crate) fn have_few_levels(threads: &[ToldThread]) -> bool
    ensures { result ≡ nat_le (sum_by (λ x. length x.levels) threads.now) most_levels }
{
    let mut left = MOST_LEVELS;
    for thread in threads {
        let levels = thread.levels.len();
        if left < levels {
            return false;
        }
        left -= levels;
    }
    true
}
