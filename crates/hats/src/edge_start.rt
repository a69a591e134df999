//! Starting one edge hat.

ghost use Rattle.std.specs.Prelude.{◌≡◌, ℕ, ◌<◌, ◌≤◌, ◌^◌, ◌∷◌, [], None, IfOk};
ghost use Rattle.project_check.specs.Loaded.{sheet_at};
ghost use Rattle.project_spec.specs.Trees.{Sheet};
ghost use Rattle.machine_spec.specs.Outcome.{Goes, StopIs};
ghost use Rattle.machine_spec.specs.Places.{Everyone};
ghost use Rattle.machine_spec.specs.Starting.{Pair, start_all};
ghost use Rattle.thread_frames.specs.Fit.{Fits, IsHeld};
ghost use Rattle.thread_frames.specs.Threads.{frames};
ghost use Rattle.hats.specs.Heads.{IsEdge, IsEdgeOf};
ghost use Rattle.hats.specs.Started.{started};

use crate::edge_hats::EdgeHat;
use crate::filters::{kind_of, next_of, restarts};
use crate::hat_threads::{Hat, Numbers, start_hat};
use machine_spec::Serials;
use project_check::Project;
use script_words::Stop;
use std::alloc::Global;
use thread_frames::Threads;

// Starts one hat while no thread runs, and gives the number of its thread, where it gets one.
fn start_alone(
    alloc: Global,
    threads: &mut Threads,
    next: &mut u64,
    hat: &Hat,
) -> Result<Serials, Stop>
    requires few { next.old < 2 ^ 62 }
    ensures ok { IfOk result (λ serials. started None hat.now (record { threads = threads.old; next = next.old; serials = [] }) ≡ Goes (record { threads = threads.new; next = next.new; serials = serials })) }
    ensures stop { StopIs result (started None hat.now (record { threads = threads.old; next = next.old; serials = [] })) }
    ensures fits { (sheets : ℕ → Sheet) → IsHeld (sheets hat.now.target) hat.now.first → Everyone (Fits sheets) threads.old → Everyone (Fits sheets) threads.new }
    ensures rising { next.old ≤ next.new }
    ensures few { next.new < 2 ^ 62 }
{
    let mut numbers = Numbers {
        next: *next,
        serials: Serials::new(alloc),
    };
    let outcome = start_hat(threads, &mut numbers, None, hat);
    *next = numbers.next;
    match outcome {
        Ok(()) => Ok(numbers.serials),
        Err(stop) => Err(stop),
    }
}

/// Starts an edge hat while no thread runs, and gives the number of its thread: it is appended, unless the hat has a thread
/// that is not done (scratch-vm, engine/runtime.js, startHats). `Counter` of threads exactly where no number is left, `Stack`
/// exactly where 65,536 levels are open, each where it is met first; the only other error is want of memory. Threads that
/// fit the blocks of the project before do so after, also behind an error. `next` is the number of the next thread, below
/// 2^62.
pub fn fire(
    alloc: Global,
    project: &Project,
    threads: &mut Threads,
    next: &mut u64,
    edge: &EdgeHat,
) -> Result<Serials, Stop>
    requires few { next.old < 2 ^ 62 }
    requires edge { IsEdge project.now edge.now }
    ensures ok { IfOk result (λ serials. (x : Pair) → IsEdgeOf project.now edge.now x → start_all frames None (x ∷ []) (record { threads = threads.old; next = next.old; serials = [] }) ≡ Goes (record { threads = threads.new; next = next.new; serials = serials })) }
    ensures stop { (x : Pair) → IsEdgeOf project.now edge.now x → StopIs result (start_all frames None (x ∷ []) (record { threads = threads.old; next = next.old; serials = [] })) }
    ensures fits { Everyone (Fits (λ t. sheet_at t project.now)) threads.old → Everyone (Fits (λ t. sheet_at t project.now)) threads.new }
    ensures rising { next.old ≤ next.new }
    ensures few { next.new < 2 ^ 62 }
{
    let table = project.blocks(edge.target);
    match table.get(edge.hat) {
        Some(block) => {
            let hat = Hat {
                of: edge.of,
                target: edge.target,
                block: edge.hat,
                first: next_of(block),
                restarts: restarts(kind_of(block)),
            };
            start_alone(alloc, threads, next, &hat)
        }
        None => unreachable!(),
    }
}
