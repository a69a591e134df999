//! The thread of one hat.

ghost use Rattle.std.specs.Prelude.{◌≡◌, ℕ, ◌<◌, ◌≤◌, ◌^◌, slice_get, position, Some, IfSome, OnOk, OnErr};
ghost use Rattle.project_spec.specs.Trees.{Sheet};
ghost use Rattle.machine_spec.specs.Outcome.{Goes, StopIs};
ghost use Rattle.machine_spec.specs.Places.{Everyone};
ghost use Rattle.machine_spec.specs.Starting as machine;
ghost use Rattle.thread_frames.specs.Fit.{Fits, IsHeld};
ghost use Rattle.thread_frames.specs.Stops.{PushStopIs};
ghost use Rattle.thread_frames.specs.Threads.{frames, is_of};
ghost use Rattle.hats.specs.Started.{crowd_of, new_of, entered, is_ignored as is_ignored_by, started};

use machine_spec::{BlockId, InstanceId, Serial, Serials, TargetId, Which};
use script_words::{CounterKind, LAST_NUMBER, Stop};
use thread_frames::{PushStop, Threads};

// A hat that is started: its instance and the target of that, its block, the block below it, and whether its thread is
// restarted.
#[derive(Drop)]
pub(crate) struct Hat {
    pub(crate) of: InstanceId,
    pub(crate) target: TargetId,
    pub(crate) block: BlockId,
    pub(crate) first: Option<BlockId>,
    pub(crate) restarts: bool,
}

// The number of the next thread, and the numbers of those that were started.
#[derive(Drop)]
pub(crate) struct Numbers {
    pub(crate) next: u64,
    pub(crate) serials: Serials,
}

// Whether the slot is that of the running thread, which is not detached yet.
fn runs_at(threads: &Threads, running: Option<u64>, slot: u64) -> bool
    ensures { result ≡ machine.runs_at running slot threads.now.detached }
{
    match running {
        Some(own) => match threads.place(slot) {
            Which::Slot(_) => own == slot,
            Which::Detached => false,
        },
        None => false,
    }
}

// Puts the thread of a hat into the slot of the first listed one of the hat; where there is none it is appended. After an
// error nothing is changed.
fn place(
    threads: &mut Threads,
    running: Option<u64>,
    hat: &Hat,
    serial: Serial,
) -> Result<(), PushStop>
    ensures ok { OnOk result (machine.placed frames running (position (is_of hat.now.of hat.now.block) threads.old.list) (new_of hat.now serial) threads.old ≡ Goes threads.new) }
    ensures stop { PushStopIs result (machine.placed frames running (position (is_of hat.now.of hat.now.block) threads.old.list) (new_of hat.now serial) threads.old) }
    ensures err { OnErr result (threads.new ≡ threads.old) }
{
    match threads.slot_of_hat(hat.of, hat.block) {
        Some(slot) => {
            let runs = runs_at(threads, running, slot);
            threads.replace(slot, serial, hat.target, hat.first, runs)
        }
        None => threads.append(serial, hat.of, hat.target, hat.block, hat.first),
    }
}

// Gives a hat its thread: that of a hat that restarts takes the slot of the one before. After an error nothing is changed.
fn enter(
    threads: &mut Threads,
    running: Option<u64>,
    hat: &Hat,
    serial: Serial,
) -> Result<(), PushStop>
    ensures ok { OnOk result (entered running hat.now serial threads.old ≡ Goes threads.new) }
    ensures stop { PushStopIs result (entered running hat.now serial threads.old) }
    ensures fits { (sheets : ℕ → Sheet) → IsHeld (sheets hat.now.target) hat.now.first → Everyone (Fits sheets) threads.old → Everyone (Fits sheets) threads.new }
{
    if hat.restarts {
        place(threads, running, hat, serial)
    } else {
        threads.append(serial, hat.of, hat.target, hat.block, hat.first)
    }
}

// Gives a hat its thread, which takes the next number first.
fn join(
    threads: &mut Threads,
    numbers: &mut Numbers,
    running: Option<u64>,
    hat: &Hat,
) -> Result<(), Stop>
    requires few { numbers.old.next < 2 ^ 62 }
    ensures ok { OnOk result (machine.joined (crowd_of threads.old numbers.old) (entered running hat.now numbers.old.next threads.old) ≡ Goes (crowd_of threads.new numbers.new)) }
    ensures stop { StopIs result (machine.joined (crowd_of threads.old numbers.old) (entered running hat.now numbers.old.next threads.old)) }
    ensures fits { (sheets : ℕ → Sheet) → IsHeld (sheets hat.now.target) hat.now.first → Everyone (Fits sheets) threads.old → Everyone (Fits sheets) threads.new }
    ensures rising { numbers.old.next ≤ numbers.new.next }
    ensures few { numbers.new.next < 2 ^ 62 }
{
    if numbers.next >= LAST_NUMBER {
        return Err(Stop::Counter {
            which: CounterKind::Thread,
        });
    }
    match enter(threads, running, hat, Serial(numbers.next)) {
        Ok(()) => {}
        Err(PushStop::Full) => return Err(Stop::Stack),
        Err(PushStop::NoMemory) => return Err(Stop::NoMemory),
    }
    match numbers.serials.push(Serial(numbers.next)) {
        Ok(()) => {}
        Err(_) => return Err(Stop::NoMemory),
    }
    numbers.next += 1;
    Ok(())
}

// Whether a hat is ignored: it does not restart, and a thread of it is not done.
fn is_ignored(threads: &Threads, hat: &Hat) -> bool
    ensures { result ≡ is_ignored_by hat.now threads.now }
{
    if hat.restarts {
        false
    } else {
        threads.is_any_alive(hat.of, hat.block)
    }
}

// Starts a hat: it gets its thread, unless it is ignored.
pub(crate) fn start_hat(
    threads: &mut Threads,
    numbers: &mut Numbers,
    running: Option<u64>,
    hat: &Hat,
) -> Result<(), Stop>
    requires few { numbers.old.next < 2 ^ 62 }
    ensures ok { OnOk result (started running hat.now (crowd_of threads.old numbers.old) ≡ Goes (crowd_of threads.new numbers.new)) }
    ensures stop { StopIs result (started running hat.now (crowd_of threads.old numbers.old)) }
    ensures fits { (sheets : ℕ → Sheet) → IsHeld (sheets hat.now.target) hat.now.first → Everyone (Fits sheets) threads.old → Everyone (Fits sheets) threads.new }
    ensures rising { numbers.old.next ≤ numbers.new.next }
    ensures few { numbers.new.next < 2 ^ 62 }
{
    threads.prepare_search();
    if is_ignored(threads, hat) {
        Ok(())
    } else {
        join(threads, numbers, running, hat)
    }
}
