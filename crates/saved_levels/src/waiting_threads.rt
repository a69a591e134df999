//! The threads that wait for an answer or for the end of a bubble.

ghost use Rattle.std.specs.Prelude.{◌≡◌, ℕ, ◌==◌, ◌||◌, ◌&&◌, not, Bool, false, map, IfOk, OnOk};
ghost use Rattle.std.specs.List.{list_any};
ghost use Rattle.std.specs.Ordering.{nat_cmp};
ghost use Rattle.std.specs.BTreeSet.{contains_by};
ghost use Rattle.saved_parts.specs.Telling.{kept_of, question_of};
ghost use Rattle.saved_levels.specs.Making.{keeps_asked, keeps_spoken, keeps_started, stands_by, status_by};
ghost use Rattle.saved_levels.specs.Waits.{Tells, has_asked, has_spoken};

use machine_spec::{BubbleTimer, Status};
use saved_parts::{ToldKept, ToldQuestion};
use std::alloc::{AllocError, Global};
use std::collections::BTreeSet;

/// The clock of a saved run, and the threads that its questions and timers name.
#[derive(Drop)]
pub struct Waiting {
    pub(crate) clock: u64,
    pub(crate) asked: BTreeSet<u64>,
    pub(crate) spoken: BTreeSet<u64>,
}

// The threads that these questions name. The only error is want of memory.
fn askers(alloc: Global, questions: &[ToldQuestion]) -> Result<BTreeSet<u64>, AllocError>
    ensures { IfOk result (λ s. (n : ℕ) → contains_by (nat_cmp n) s ≡ list_any (λ q. q.thread == n) (map question_of questions.now)) }
{
    let mut threads = BTreeSet::new(alloc);
    for question in questions {
        threads.insert(question.thread)?;
    }
    Ok(threads)
}

// The threads that these timers name. The only error is want of memory.
fn speakers(alloc: Global, timers: &[BubbleTimer]) -> Result<BTreeSet<u64>, AllocError>
    ensures { IfOk result (λ s. (n : ℕ) → contains_by (nat_cmp n) s ≡ list_any (λ t. t.thread == n) timers.now) }
{
    let mut threads = BTreeSet::new(alloc);
    for timer in timers {
        threads.insert(timer.thread.0)?;
    }
    Ok(threads)
}

fn asks(kept: &ToldKept) -> bool
    ensures { result ≡ keeps_asked (kept_of kept.now) }
{
    matches!(kept, ToldKept::Asked)
}

fn speaks(kept: &ToldKept) -> bool
    ensures { result ≡ keeps_spoken (kept_of kept.now) }
{
    matches!(kept, ToldKept::Spoken)
}

fn starts(kept: &ToldKept) -> bool
    ensures { result ≡ keeps_started (kept_of kept.now) }
{
    matches!(kept, ToldKept::Started(_))
}

// Whether a thread whose top level keeps this can have the status.
fn has_status(status: Status, kept: &ToldKept) -> bool
    ensures { result ≡ status_by status (kept_of kept.now) }
{
    let asked = asks(kept);
    let spoken = speaks(kept);
    let started = starts(kept);
    match status {
        Status::Running => !(asked || spoken),
        Status::YieldTick => started,
        Status::PromiseWait => asked || spoken,
        Status::Done => false,
    }
}

impl Waiting {
    /// The clock, and the threads that these questions and timers name. The only error is want of memory.
    pub fn new(
        alloc: Global,
        clock: u64,
        questions: &[ToldQuestion],
        timers: &[BubbleTimer],
    ) -> Result<Waiting, AllocError>
        ensures { IfOk result (λ w. Tells w clock (map question_of questions.now) timers.now) }
    {
        let asked = askers(alloc, questions)?;
        let spoken = speakers(alloc, timers)?;
        Ok(Waiting {
            clock,
            asked,
            spoken,
        })
    }

    // Whether a question or a timer names a thread only where its top level, which keeps this, waits for that.
    fn is_promised(&self, serial: u64, kept: &ToldKept) -> bool
        ensures { result ≡ ((not (has_asked self.now serial) || keeps_asked (kept_of kept.now)) && (not (has_spoken self.now serial) || keeps_spoken (kept_of kept.now))) }
    {
        let asked = asks(kept);
        let spoken = speaks(kept);
        let is_asked = self.asked.contains(&serial);
        let is_spoken = self.spoken.contains(&serial);
        (!is_asked || asked) && (!is_spoken || spoken)
    }

    // Whether a thread can have the status, and questions and timers name it, where its top level keeps this.
    pub(crate) fn fits(&self, serial: u64, status: Status, kept: &ToldKept) -> bool
        ensures { result ≡ stands_by self.now serial status (kept_of kept.now) }
    {
        let stands = has_status(status, kept);
        let promised = self.is_promised(serial, kept);
        stands && promised
    }
}
