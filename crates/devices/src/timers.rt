//! Bubble timers, and readings of the clock as seconds.

ghost use Rattle.std.specs.Prelude.{◌≡◌, ◌==◌, ◌<◌, ◌++◌, ◌∷◌, [], ℕ, filter, not, length, IfSome, OnOk, OnErr, Some};
ghost use Rattle.std.specs.Option.{option_map};
ghost use Rattle.machine_spec.specs.Stores.{less, seconds as seconds_of};
ghost use Rattle.machine_spec.specs.Frame.{is_due as due, next_due, sooner as first_of};
ghost use Rattle.devices.specs.Lists.{found, without_found};

use machine_spec::{BubbleTimer, BubbleTimers, InstanceId};
use scratch_number::{Num, is_less, of_millionths};
use std::alloc::AllocError;

/// Milliseconds as seconds.
pub fn seconds(ms: u64) -> Num
    ensures { result ≡ seconds_of ms }
{
    of_millionths(i128::from(ms) * 1000)
}

// Whether a timer's time is not after the clock.
fn is_due(clock: u64, timer: &BubbleTimer) -> bool
    ensures { result ≡ due clock timer.now }
{
    !is_less(seconds(clock), timer.due)
}

// Whether a timer ends before another.
fn is_before(timer: &BubbleTimer, other: &BubbleTimer) -> bool
    ensures { result ≡ less timer.now.due other.now.due }
{
    is_less(timer.due, other.due)
}

// Adds a timer behind the others.
pub(crate) fn added(timers: &mut BubbleTimers, timer: BubbleTimer) -> Result<(), AllocError>
    ensures ok { OnOk result (timers.new ≡ timers.old ++ timer ∷ []) }
    ensures err { OnErr result (timers.new ≡ timers.old) }
{
    let BubbleTimer {
        due,
        of,
        thread,
        usage,
    } = timer;
    timers.push(BubbleTimer {
        due,
        of,
        thread,
        usage,
    })
}

// A timer and its place.
#[derive(Clone, Copy)]
pub(crate) struct Place {
    at: usize,
    timer: BubbleTimer,
}

// The due timer that ends first, with its place; of equals the first.
fn soonest(clock: u64, timers: &[BubbleTimer]) -> Option<Place>
    ensures found { option_map found result ≡ next_due clock 0 timers.now }
    ensures within { IfSome result (λ x. x.at < length timers.now) }
{
    let mut best: Option<Place> = None;
    let mut at = timers.len();
    while at > 0 {
        at -= 1;
        let timer = timers[at];
        if is_due(clock, &timer) {
            best = Some(sooner(Place { at, timer }, best));
        }
    }
    best
}

// The sooner of two due timers, the first where they are equal.
fn sooner(first: Place, second: Option<Place>) -> Place
    ensures found { Some (found result) ≡ first_of (found first) (option_map found second) }
    ensures within { (n : ℕ) → first.at < n → IfSome second (λ x. x.at < n) → result.at < n }
{
    match second {
        None => first,
        Some(other) => {
            if is_before(&other.timer, &first.timer) {
                return other;
            }
            first
        }
    }
}

// The due timer that ends first, taken out of the others.
pub(crate) fn without_soonest(
    clock: u64,
    timers: BubbleTimers,
) -> (Option<BubbleTimer>, BubbleTimers)
    ensures due { result.0 ≡ option_map (λ x. x.timer) (next_due clock 0 timers) }
    ensures rest { result.1 ≡ without_found (next_due clock 0 timers) timers }
{
    match soonest(clock, timers.as_slice()) {
        None => (None, timers),
        Some(due) => {
            let mut timers = timers.into_vec();
            timers.remove(due.at);
            (Some(due.timer), BubbleTimers::from_vec(timers))
        }
    }
}

// The timers without those of an instance.
pub(crate) fn without(of: InstanceId, timers: BubbleTimers) -> BubbleTimers
    ensures { result ≡ filter (λ t. not (t.of == of)) timers }
{
    let mut timers = timers.into_vec();
    timers.retain(|timer| timer.of != of);
    BubbleTimers::from_vec(timers)
}
