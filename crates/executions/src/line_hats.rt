//! Hats that are started between frames.

ghost use Rattle.std.specs.Prelude.{◌≡◌, IfOk};
ghost use Rattle.machine_spec.specs.Line as machine;
ghost use Rattle.machine_spec.specs.Outcome.{Goes, StopIs};
ghost use Rattle.project_check.specs.Loaded.{program_of};
ghost use Rattle.executions.specs.Resting.{IsIdle};
ghost use Rattle.executions.specs.Seen.{seen};

use crate::state::State;
use hats::start;
use machine_spec::{Filter, Serials};
use project_check::Project;
use script_words::{Rng, Stop};
use std::alloc::Global;

// The numbers of the new threads, for which nothing waits.
fn forget(_serials: Serials) {}

impl<R: Rng + Drop> State<R> {
    /// Starts the hats of a filter while no thread is visited, as a line of a script does (scratch-vm, engine/runtime.js,
    /// startHats): a hat that restarts takes the slot of its thread, another one is ignored beside a thread of it that is not
    /// done. `Counter` of threads exactly where no number is left, `Stack` exactly where 65,536 levels are open, each where it
    /// is met first; the only other error is want of memory. After a stop nothing is told of the run.
    pub fn begin(&mut self, alloc: Global, project: &Project, hats: &Filter) -> Result<(), Stop>
        requires { IsIdle project.now self.old }
        ensures ok { IfOk result (λ _. machine.started (program_of project.now) hats.now (seen R.stream project.now self.old) ≡ Goes (seen R.stream project.now self.new)) }
        ensures kept { IfOk result (λ _. IsIdle project.now self.new) }
        ensures stop { StopIs result (machine.started (program_of project.now) hats.now (seen R.stream project.now self.old)) }
    {
        let index = project.hat_index();
        let threads = &mut self.threads;
        let count = &mut self.next_thread;
        match start(alloc, index, &self.targets, threads, count, None, hats) {
            Ok(serials) => {
                forget(serials);
                Ok(())
            }
            Err(stop) => Err(stop),
        }
    }
}
