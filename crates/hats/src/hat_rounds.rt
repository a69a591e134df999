//! Starting the hats of a filter.

ghost use Rattle.std.specs.Prelude.{◌≡◌, ℕ, ◌<◌, ◌≤◌, ◌^◌, [], map, IfOk, IfErr, OnOk};
ghost use Rattle.std.specs.Option.{option_map_or};
ghost use Rattle.hat_index.specs.ByIndex.{first_asked, second_asked};
ghost use Rattle.hat_index.specs.Index.{found};
ghost use Rattle.project_check.specs.declared.project.Project.{Project};
ghost use Rattle.project_check.specs.Hats.{IsIndexOf};
ghost use Rattle.project_check.specs.Loaded.{program_of, sheet_at};
ghost use Rattle.machine_spec.specs.Outcome.{Goes, StopIs};
ghost use Rattle.machine_spec.specs.Places.{Everyone};
ghost use Rattle.machine_spec.specs.Starting.{start_all, starts, meant};
ghost use Rattle.thread_frames.specs.Fit.{Fits};
ghost use Rattle.thread_frames.specs.Threads.{frames};
ghost use Rattle.hats.specs.Indexed.{hat_by, hats_among, hats_for, AreAllHeld, AreHeld};
ghost use Rattle.hats.specs.Started.{crowd_of, started_all};
ghost use Rattle.hats.specs.Stops.{IsOfThreadsOrMemory};
ghost use Rattle.hats.specs.Rounds.{asked_in, hats_in, hats_if_meant, hats_of_round, IsKept};

use crate::asked::{first_opcode, folded_text, second_opcode};
use crate::filters::{is_meant, restarts};
use crate::hat_threads::{Hat, Numbers, start_hat};
use crate::laws::an_index_gives_the_hats_that_start;
use machine_spec::{Filter, Instance, Serials};
use opcode_table::{Opcode, hat_kind};
use project_check::{HatIndex, Start};
use script_words::Stop;
use std::alloc::Global;
use targets::Targets;
use thread_frames::Threads;

// One round of a start: it starts the hats that have an opcode and a folded text. A click has two: the stage's hats come
// behind the others.
#[derive(Drop)]
pub(crate) struct Round<'a> {
    pub(crate) index: &'a HatIndex,
    pub(crate) filter: &'a Filter,
    pub(crate) running: Option<u64>,
    pub(crate) opcode: Opcode,
    pub(crate) folded: &'a str,
}

// A hat of an instance, as it is started.
fn hat_by(opcode: Opcode, instance: &Instance, start: &Start) -> Hat
    ensures { result ≡ hat_by opcode instance.now start.now }
{
    Hat {
        of: instance.number,
        target: instance.of,
        block: start.0,
        first: start.1,
        restarts: restarts(hat_kind(opcode)),
    }
}

// Starts hats of an instance in turn.
fn start_each(
    round: &Round<'_>,
    threads: &mut Threads,
    numbers: &mut Numbers,
    instance: &Instance,
    starts: &[Start],
) -> Result<(), Stop>
    requires few { numbers.old.next < 2 ^ 62 }
    ensures ok { OnOk result (started_all round.now.running (map (hat_by round.now.opcode instance.now) starts.now) (crowd_of threads.old numbers.old) ≡ Goes (crowd_of threads.new numbers.new)) }
    ensures stop { StopIs result (started_all round.now.running (map (hat_by round.now.opcode instance.now) starts.now) (crowd_of threads.old numbers.old)) }
    ensures kept { IsKept (λ sheets. AreAllHeld (sheets instance.now.of) starts.now) threads.old threads.new numbers.old numbers.new }
{
    for start in starts {
        let hat = hat_by(round.opcode, instance, start);
        match start_hat(threads, numbers, round.running, &hat) {
            Ok(()) => {}
            Err(stop) => return Err(stop),
        }
    }
    Ok(())
}

// Starts the hats of an instance that are found, in block order.
fn start_found(
    round: &Round<'_>,
    threads: &mut Threads,
    numbers: &mut Numbers,
    instance: &Instance,
) -> Result<(), Stop>
    requires few { numbers.old.next < 2 ^ 62 }
    ensures ok { OnOk result (started_all round.now.running (hats_in round.now instance.now) (crowd_of threads.old numbers.old) ≡ Goes (crowd_of threads.new numbers.new)) }
    ensures stop { StopIs result (started_all round.now.running (hats_in round.now instance.now) (crowd_of threads.old numbers.old)) }
    ensures kept { IsKept (λ sheets. AreHeld sheets (found round.now.index.now)) threads.old threads.new numbers.old numbers.new }
{
    let index = round.index;
    match index.heads_for(instance.of, round.opcode, round.folded) {
        Some(starts) => start_each(round, threads, numbers, instance, starts.as_slice()),
        None => Ok(()),
    }
}

// Starts the hats of an instance, where the filter speaks of it.
fn start_instance(
    round: &Round<'_>,
    threads: &mut Threads,
    numbers: &mut Numbers,
    instance: &Instance,
) -> Result<(), Stop>
    requires few { numbers.old.next < 2 ^ 62 }
    ensures ok { OnOk result (started_all round.now.running (hats_if_meant (found round.now.index.now) round.now.filter.now (asked_in round.now) instance.now) (crowd_of threads.old numbers.old) ≡ Goes (crowd_of threads.new numbers.new)) }
    ensures stop { StopIs result (started_all round.now.running (hats_if_meant (found round.now.index.now) round.now.filter.now (asked_in round.now) instance.now) (crowd_of threads.old numbers.old)) }
    ensures kept { IsKept (λ sheets. AreHeld sheets (found round.now.index.now)) threads.old threads.new numbers.old numbers.new }
{
    if is_meant(round.filter, instance) {
        start_found(round, threads, numbers, instance)
    } else {
        Ok(())
    }
}

// Starts the hats of one round, from the last instance to the first.
fn start_round(
    round: &Round<'_>,
    threads: &mut Threads,
    numbers: &mut Numbers,
    instances: &[Instance],
) -> Result<(), Stop>
    requires few { numbers.old.next < 2 ^ 62 }
    ensures ok { OnOk result (started_all round.now.running (hats_of_round (found round.now.index.now) round.now.filter.now (asked_in round.now) instances.now) (crowd_of threads.old numbers.old) ≡ Goes (crowd_of threads.new numbers.new)) }
    ensures stop { StopIs result (started_all round.now.running (hats_of_round (found round.now.index.now) round.now.filter.now (asked_in round.now) instances.now) (crowd_of threads.old numbers.old)) }
    ensures kept { IsKept (λ sheets. AreHeld sheets (found round.now.index.now)) threads.old threads.new numbers.old numbers.new }
{
    for instance in instances.iter().rev() {
        match start_instance(round, threads, numbers, instance) {
            Ok(()) => {}
            Err(stop) => return Err(stop),
        }
    }
    Ok(())
}

// Starts the hats of the second round, which only a click has.
fn start_second(
    round: &Round<'_>,
    threads: &mut Threads,
    numbers: &mut Numbers,
    instances: &[Instance],
) -> Result<(), Stop>
    requires few { numbers.old.next < 2 ^ 62 }
    ensures ok { OnOk result (started_all round.now.running (option_map_or (λ a. hats_among (found round.now.index.now) a (meant round.now.filter.now instances.now)) (second_asked round.now.filter.now) []) (crowd_of threads.old numbers.old) ≡ Goes (crowd_of threads.new numbers.new)) }
    ensures stop { StopIs result (started_all round.now.running (option_map_or (λ a. hats_among (found round.now.index.now) a (meant round.now.filter.now instances.now)) (second_asked round.now.filter.now) []) (crowd_of threads.old numbers.old)) }
    ensures kept { IsKept (λ sheets. AreHeld sheets (found round.now.index.now)) threads.old threads.new numbers.old numbers.new }
{
    match second_opcode(round.filter) {
        Some(opcode) => {
            let second = Round {
                index: round.index,
                filter: round.filter,
                running: round.running,
                opcode,
                folded: "",
            };
            start_round(&second, threads, numbers, instances)
        }
        None => Ok(()),
    }
}

// Starts the hats of both rounds.
fn start_rounds(
    round: &Round<'_>,
    threads: &mut Threads,
    numbers: &mut Numbers,
    instances: &[Instance],
) -> Result<(), Stop>
    requires few { numbers.old.next < 2 ^ 62 }
    requires first { asked_in round.now ≡ first_asked round.now.filter.now }
    ensures ok { OnOk result (started_all round.now.running (hats_for (found round.now.index.now) round.now.filter.now instances.now) (crowd_of threads.old numbers.old) ≡ Goes (crowd_of threads.new numbers.new)) }
    ensures stop { StopIs result (started_all round.now.running (hats_for (found round.now.index.now) round.now.filter.now instances.now) (crowd_of threads.old numbers.old)) }
    ensures kept { IsKept (λ sheets. AreHeld sheets (found round.now.index.now)) threads.old threads.new numbers.old numbers.new }
{
    match start_round(round, threads, numbers, instances) {
        Ok(()) => {}
        Err(stop) => return Err(stop),
    }
    start_second(round, threads, numbers, instances)
}

/// Starts the hats of a filter in turn, and gives the numbers of the new threads in order: from the last instance to the
/// first, those of each in block order, the stage-clicked hats of a click behind all others (scratch-vm, engine/runtime.js,
/// startHats). A hat with restart takes the slot of its thread; where that is the running thread, whose slot is `running`,
/// the old thread becomes the detached one. A hat without restart is ignored beside a thread of it that is not done.
/// `Counter` of threads exactly where no number is left, `Stack` exactly where 65,536 levels are open, each where it is
/// met first; the only other error is want of memory. Threads that fit the blocks of the project before do so after, also
/// behind an error. `next` is the number of the next thread, below 2^62. The hats are read from the index of the project: only
/// those are looked at that start.
pub fn start(
    alloc: Global,
    index: &HatIndex,
    targets: &Targets,
    threads: &mut Threads,
    next: &mut u64,
    running: Option<u64>,
    filter: &Filter,
) -> Result<Serials, Stop>
    requires few { next.old < 2 ^ 62 }
    ensures ok { IfOk result (λ serials. (project : Project) → IsIndexOf project index.now → start_all frames running (starts (program_of project) filter.now targets.now) (record { threads = threads.old; next = next.old; serials = [] }) ≡ Goes (record { threads = threads.new; next = next.new; serials = serials })) }
    ensures stop { (project : Project) → IsIndexOf project index.now → StopIs result (start_all frames running (starts (program_of project) filter.now targets.now) (record { threads = threads.old; next = next.old; serials = [] })) }
    ensures kind { IfErr result IsOfThreadsOrMemory }
    ensures fits { (project : Project) → IsIndexOf project index.now → Everyone (Fits (λ t. sheet_at t project)) threads.old → Everyone (Fits (λ t. sheet_at t project)) threads.new }
    ensures rising { next.old ≤ next.new }
    ensures few { next.new < 2 ^ 62 }
{
    an_index_gives_the_hats_that_start();
    let folded = match folded_text(alloc, filter) {
        Ok(folded) => folded,
        Err(_) => return Err(Stop::NoMemory),
    };
    let round = Round {
        index,
        filter,
        running,
        opcode: first_opcode(filter),
        folded: folded.as_str(),
    };
    let mut numbers = Numbers {
        next: *next,
        serials: Serials::new(alloc),
    };
    let outcome = start_rounds(&round, threads, &mut numbers, targets.instances());
    *next = numbers.next;
    match outcome {
        Ok(()) => Ok(numbers.serials),
        Err(stop) => Err(stop),
    }
}
