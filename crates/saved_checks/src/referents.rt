//! Questions, timers and threads that name instances and threads.

ghost use Rattle.std.specs.Prelude.{◌≡◌, ◌&&◌, is_some, map, nat_lt, IfOk};
ghost use Rattle.std.specs.List.{list_all};
ghost use Rattle.saved_spec.specs.Rules as rules;
ghost use Rattle.saved_checks.specs.Live.{target_in};

use crate::distinct::numbers_differ;
use crate::live_targets::LiveTargets;
use machine_spec::BubbleTimer;
use saved_parts::{ToldInstance, ToldQuestion, ToldThread};
use std::alloc::{AllocError, Global};

// Whether an instance is live and a thread was there before the next.
pub(crate) fn is_named(live: &LiveTargets, next: u64, of: u64, thread: u64) -> bool
    ensures { result ≡ (is_some (target_in live.now of) && nat_lt thread next) }
{
    live.has(of) && thread < next
}

// Whether no two instances have one number.
pub(crate) fn instances_differ(
    alloc: Global,
    instances: &[ToldInstance],
) -> Result<bool, AllocError>
    ensures { IfOk result (λ r. r ≡ rules.differ (map (λ i. i.number) instances.now)) }
{
    let numbers: Vec<u64> = instances
        .iter()
        .map(|instance| instance.number)
        .collect(alloc)?;
    numbers_differ(alloc, &numbers)
}

// Whether no two questions are of one thread.
fn questions_differ(alloc: Global, questions: &[ToldQuestion]) -> Result<bool, AllocError>
    ensures { IfOk result (λ r. r ≡ rules.differ (map (λ q. q.thread) questions.now)) }
{
    let numbers: Vec<u64> = questions
        .iter()
        .map(|question| question.thread)
        .collect(alloc)?;
    numbers_differ(alloc, &numbers)
}

// Whether no two timers are of one thread.
fn timers_differ(alloc: Global, timers: &[BubbleTimer]) -> Result<bool, AllocError>
    ensures { IfOk result (λ r. r ≡ rules.differ (map (λ x. x.thread) timers.now)) }
{
    let numbers: Vec<u64> = timers.iter().map(|timer| timer.thread.0).collect(alloc)?;
    numbers_differ(alloc, &numbers)
}

// Whether no two threads have one number.
pub(crate) fn threads_differ(alloc: Global, threads: &[ToldThread]) -> Result<bool, AllocError>
    ensures { IfOk result (λ r. r ≡ rules.differ (map (λ x. x.serial) threads.now)) }
{
    let numbers: Vec<u64> = threads.iter().map(|thread| thread.serial).collect(alloc)?;
    numbers_differ(alloc, &numbers)
}

// Whether each question names a live instance and a thread before the next.
fn questions_name(live: &LiveTargets, next: u64, questions: &[ToldQuestion]) -> bool
    ensures { result ≡ list_all (λ q. is_some (target_in live.now q.of) && nat_lt q.thread next) questions.now }
{
    questions.iter().all(|question| is_named(live, next, question.of, question.thread))
}

// Whether each timer does.
fn timers_name(live: &LiveTargets, next: u64, timers: &[BubbleTimer]) -> bool
    ensures { result ≡ list_all (λ x. is_some (target_in live.now x.of) && nat_lt x.thread next) timers.now }
{
    timers
        .iter()
        .all(|timer| is_named(live, next, timer.of.0, timer.thread.0))
}

// Whether questions are of live instances and of threads that were there, one of a thread.
pub(crate) fn are_questions(
    alloc: Global,
    live: &LiveTargets,
    next: u64,
    questions: &[ToldQuestion],
) -> Result<bool, AllocError>
    ensures { IfOk result (λ r. r ≡ (list_all (λ q. is_some (target_in live.now q.of) && nat_lt q.thread next) questions.now && rules.differ (map (λ q. q.thread) questions.now))) }
{
    let differ = questions_differ(alloc, questions)?;
    Ok(questions_name(live, next, questions) && differ)
}

// The same of timers.
pub(crate) fn are_timers(
    alloc: Global,
    live: &LiveTargets,
    next: u64,
    timers: &[BubbleTimer],
) -> Result<bool, AllocError>
    ensures { IfOk result (λ r. r ≡ (list_all (λ x. is_some (target_in live.now x.of) && nat_lt x.thread next) timers.now && rules.differ (map (λ x. x.thread) timers.now))) }
{
    let differ = timers_differ(alloc, timers)?;
    Ok(timers_name(live, next, timers) && differ)
}
