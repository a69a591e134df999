//! What the monitors of a file show, found once for all frames.

ghost use Rattle.std.specs.Prelude.{◌≡◌, slice_get, unwrap_or, IfOk};
ghost use Rattle.stage_frame.specs.declared.watches.Watch.TheVariants.{Nothing};
ghost use Rattle.target_records.specs.Records.{monitor_in, records_in};
ghost use Rattle.stage_frame.specs.Found.{are_found, watch_of, watch_of_shown, watch_of_target};

use machine_spec::{Shown, TargetId};
use std::alloc::{AllocError, Global};
use target_records::{MonitorRecord, Records};

// What a monitor of the file shows: a variable or list of a target by its number there, something else of a target, or
// nothing, where it is not found.
#[derive(Clone, Copy, PartialEq, Eq, Debug)]
pub(crate) enum Watch {
    Variable(TargetId, u32),
    List(TargetId, u32),
    Target(TargetId),
    Nothing,
}

// A variable or list, as what a monitor shows.
fn watch_of_shown(shown: &Shown) -> Watch
    ensures { result ≡ watch_of_shown shown.now }
{
    match shown {
        Shown::Variable(target, index) => Watch::Variable(*target, *index),
        Shown::List(target, index) => Watch::List(*target, *index),
    }
}

// A target, as what a monitor shows of that shows no variable and no list.
fn watch_of_target(target: Option<TargetId>) -> Watch
    ensures { result ≡ watch_of_target target }
{
    match target {
        Some(target) => Watch::Target(target),
        None => Watch::Nothing,
    }
}

// What a monitor shows.
fn found(records: &Records, monitor: &MonitorRecord) -> Watch
    ensures { result ≡ watch_of (records_in records.now) (monitor_in monitor.now) }
{
    match records.what_shows(monitor) {
        Some(shown) => watch_of_shown(&shown),
        None => watch_of_target(records.monitored(monitor)),
    }
}

// What the monitor at a place shows, and nothing where there is none.
pub(crate) fn watch_at(watches: &[Watch], place: usize) -> Watch
    ensures { result ≡ unwrap_or (slice_get watches.now place) Nothing }
{
    match watches.get(place) {
        Some(watch) => *watch,
        None => Watch::Nothing,
    }
}

// What each monitor of the file shows, in its order. The only error is want of memory.
pub(crate) fn all_found(alloc: Global, records: &Records) -> Result<Vec<Watch>, AllocError>
    ensures { IfOk result (λ watches. watches.items ≡ are_found (records_in records.now)) }
{
    let mut watches = Vec::new(alloc);
    let monitors = records.monitors().as_slice();
    for monitor in monitors {
        watches.push(found(records, monitor))?;
    }
    Ok(watches)
}
