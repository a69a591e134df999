//! What monitors show.

ghost use Rattle.std.specs.Prelude.{◌≡◌, position, ◌<◌, length, IfSome, OnOk, OnErr};
ghost use Rattle.machine_spec.specs.Monitors as monitors;
ghost use Rattle.machine_spec.specs.Lists.{changed_at};
ghost use Rattle.target_records.specs.Records.{monitor_in, records_in};

use machine_spec::{Made, MadeList, Shown};
use std::alloc::AllocError;
use target_records::{MonitorRecord, Records};

// Whether two are the same.
fn is_same(what: &Shown, other: &Shown) -> bool
    ensures { result ≡ monitors.is_same what.now other.now }
{
    match what {
        Shown::Variable(target, index) => match other {
            Shown::Variable(own, place) => *target == *own && *index == *place,
            Shown::List(_, _) => false,
        },
        Shown::List(target, index) => match other {
            Shown::List(own, place) => *target == *own && *index == *place,
            Shown::Variable(_, _) => false,
        },
    }
}

// Whether a monitor shows this.
fn shows(records: &Records, monitor: &MonitorRecord, what: &Shown) -> bool
    ensures { result ≡ monitors.is_some_same what.now (monitors.what_shows (records_in records.now) (monitor_in monitor.now)) }
{
    match records.what_shows(monitor) {
        Some(shown) => is_same(&shown, what),
        None => false,
    }
}

// The place of the first of these monitors that shows this.
fn first(records: &Records, shown: &[MonitorRecord], what: &Shown) -> Option<usize>
    ensures { result ≡ position (λ m. monitors.is_some_same what.now (monitors.what_shows (records_in records.now) (monitor_in m))) shown.now }
{
    shown
        .iter()
        .position(|monitor| shows(records, monitor, what))
}

// The place of the first monitor of the file that shows this.
pub(crate) fn of_file(records: &Records, what: &Shown) -> Option<usize>
    ensures { result ≡ position (λ m. monitors.is_some_same what.now (monitors.what_shows (records_in records.now) m)) (records_in records.now).monitors }
{
    first(records, records.monitors().as_slice(), what)
}

// The place of the first added monitor that shows this.
fn of_made(made: &[Made], what: &Shown) -> Option<usize>
    ensures place { result ≡ position (λ m. monitors.is_same m.what what.now) made.now }
    ensures within { IfSome result (λ i. i < length made.now) }
{
    made.iter().position(|own| is_same(&own.what, what))
}

// A monitor that shows this.
fn made_of(what: &Shown, visible: bool) -> Made
    ensures { result ≡ record { what = what.now; visible = visible } }
{
    let what = *what;
    Made { what, visible }
}

// Shows or hides what no monitor of the file shows. The only error is want of memory, and then nothing changes.
pub(crate) fn set_made(made: &mut MadeList, what: &Shown, visible: bool) -> Result<(), AllocError>
    ensures ok { OnOk result (made.new ≡ monitors.made_set (position (λ m. monitors.is_same m.what what.now) made.old) what.now visible made.old) }
    ensures err { OnErr result (made.new ≡ made.old) }
{
    match of_made(made.as_slice(), what) {
        Some(place) => {
            show_at(made, place, visible);
            Ok(())
        }
        None => {
            if visible {
                return made.push(made_of(what, visible));
            }
            Ok(())
        }
    }
}

// The same monitor, shown or hidden.
fn showing(own: &Made, visible: bool) -> Made
    ensures { result ≡ record own.now { visible = visible } }
{
    made_of(&own.what, visible)
}

// Shows or hides the added monitor at a place.
fn show_at(made: &mut MadeList, place: usize, visible: bool)
    requires { place < length made.old }
    ensures { made.new ≡ changed_at (λ m. record m { visible = visible }) place made.old }
{
    match made.get(place) {
        Some(own) => {
            let shown = showing(own, visible);
            made.replace(place, shown);
        }
        None => unreachable!(),
    }
}
