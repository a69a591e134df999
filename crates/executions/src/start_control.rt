//! Controls that start hats.

ghost use Rattle.std.specs.Prelude.{◌≡◌, Bool, true, Some, IfOk};
ghost use Rattle.machine_spec.specs.Keeping.{is_starts};
ghost use Rattle.machine_spec.specs.declared.threads.Control.TheVariants as control;
ghost use Rattle.machine_spec.specs.Places.{running};
ghost use Rattle.machine_spec.specs.Step.{after_start};
ghost use Rattle.executions.specs.Answers.{ActsAs};
ghost use Rattle.executions.specs.Blocks.{HasKind};
ghost use Rattle.thread_moves.specs.Moves.{IsAtBlock, MovesOn};
ghost use Rattle.executions.specs.Nexts.{next_of};
ghost use Rattle.executions.specs.Ready.{IsReady};

use crate::execution::Next;
use crate::state::State;
use hats::start;
use machine_spec::{BlockId, Boxed, Context, Filter, Report, Serials, TargetId, Which};
use project_check::Project;
use script_words::{Rng, Stop};
use std::alloc::{AllocError, Global};
use thread_frames::Threads;
use thread_moves::{go_on, stay};

// Stays at the block of the top level, which keeps the numbers of the threads that it waits for.
fn wait_for(
    alloc: Global,
    project: &Project,
    threads: &mut Threads,
    which: Which,
    target: TargetId,
    id: BlockId,
    serials: Serials,
) -> Result<Report, AllocError>
    requires at { IsAtBlock project.now which threads.old target id }
    requires fits { HasKind project.now target id is_starts }
    ensures { IfOk result (MovesOn project.now which target id (λ s rest warp. after_start true serials s warp rest) threads.old threads.new) }
{
    if serials.is_empty() {
        return Ok(go_on(project, threads, which, target, id));
    }
    match Boxed::new(alloc, serials) {
        Ok(serials) => Ok(stay(
            project,
            threads,
            which,
            target,
            id,
            Context::Started(serials),
            Report::Yielded,
        )),
        Err(_) => Err(AllocError),
    }
}

// Goes on behind the block that started hats, or waits for their threads.
fn go_on_or_wait(
    alloc: Global,
    project: &Project,
    threads: &mut Threads,
    which: Which,
    target: TargetId,
    id: BlockId,
    serials: Serials,
    wait: bool,
) -> Result<Report, AllocError>
    requires at { IsAtBlock project.now which threads.old target id }
    requires fits { wait ≡ true → HasKind project.now target id is_starts }
    ensures { IfOk result (MovesOn project.now which target id (λ s rest warp. after_start wait serials s warp rest) threads.old threads.new) }
{
    if wait {
        wait_for(alloc, project, threads, which, target, id, serials)
    } else {
        Ok(go_on(project, threads, which, target, id))
    }
}

impl<R: Rng + Drop> State<R> {
    // Starts hats; the block goes on, or waits for their threads.
    pub(crate) fn start_hats(
        &mut self,
        alloc: Global,
        project: &Project,
        slot: u64,
        next: Next,
        hats: &Filter,
        wait: bool,
    ) -> Result<Report, Stop>
        requires ready { IsReady project.now slot self.old }
        requires next { next_of (running slot self.old.threads) ≡ Some next }
        requires fits { wait ≡ true → HasKind project.now next.target next.id is_starts }
        ensures { (late : Bool) → ActsAs R.stream project.now slot next.id late (control.Start hats.now wait) self.old result self.new }
    {
        let threads = &mut self.threads;
        let count = &mut self.next_thread;
        match start(
            alloc,
            project.hat_index(),
            &self.targets,
            threads,
            count,
            Some(slot),
            hats,
        ) {
            Ok(serials) => {
                let which = self.threads.place(slot);
                let threads = &mut self.threads;
                match go_on_or_wait(
                    alloc,
                    project,
                    threads,
                    which,
                    next.target,
                    next.id,
                    serials,
                    wait,
                ) {
                    Ok(report) => Ok(report),
                    Err(_) => Err(Stop::NoMemory),
                }
            }
            Err(stop) => Err(stop),
        }
    }
}
