//! The threads of a saved run, made again.

ghost use Rattle.std.specs.Prelude.{◌≡◌, map};
ghost use Rattle.std.specs.List.{All};
ghost use Rattle.saved_levels.specs.Waits.{TellsOf};
ghost use Rattle.saved_parts.specs.Telling.{thread_of};
ghost use Rattle.saved_spec.specs.RunShapes.{Told};
ghost use Rattle.run_save.specs.Parts.{AllParted, IsReady, Parted};

use machine_spec::{BlockId, InstanceId, Serial};
use project_check::Project;
use saved_levels::{Waiting, levels_of};
use saved_parts::{ToldThread, ToldThreads};
use saved_spec::SaveRefusal;
use std::alloc::Global;
use targets::Targets;
use thread_frames::ThreadPart;

// The parts of a thread, where it keeps the rules.
fn part_of(
    alloc: Global,
    project: &Project,
    waiting: &Waiting,
    targets: &Targets,
    thread: ToldThread,
) -> Result<ThreadPart, SaveRefusal>
    requires { IsReady (thread_of thread) targets.now }
    ensures { (t : Told) → t.run.targets ≡ targets.now → TellsOf waiting.now t.run.devices → Parted project.now t (thread_of thread) result }
{
    let serial = thread.serial;
    let of = InstanceId(thread.of);
    let hat = thread.hat;
    let status = thread.status;
    let Some(instance) = targets.get(of) else {
        return Err(SaveRefusal::BadThread { serial });
    };
    let target = instance.of;
    match levels_of(alloc, project, waiting, thread, target)? {
        Some(levels) => Ok(ThreadPart {
            serial: Serial(serial),
            of,
            target,
            hat: BlockId(hat as u32),
            status,
            levels,
        }),
        None => Err(SaveRefusal::BadThread { serial }),
    }
}

// The parts of all threads, where each keeps the rules.
pub(crate) fn parts_of(
    alloc: Global,
    project: &Project,
    waiting: &Waiting,
    targets: &Targets,
    threads: ToldThreads,
) -> Result<Vec<ThreadPart>, SaveRefusal>
    requires { All (λ x. IsReady x targets.now) (map thread_of threads) }
    ensures { (t : Told) → t.run.targets ≡ targets.now → TellsOf waiting.now t.run.devices → AllParted project.now t (map thread_of threads) result }
{
    let mut parts = Vec::new(alloc);
    for thread in threads.into_vec() {
        parts.push(part_of(alloc, project, waiting, targets, thread)?)?;
    }
    Ok(parts)
}
