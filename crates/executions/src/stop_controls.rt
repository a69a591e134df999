//! Controls that stop.

ghost use Rattle.std.specs.Prelude.{◌≡◌, Bool, Some};
ghost use Rattle.machine_spec.specs.declared.threads.Control.TheVariants as control;
ghost use Rattle.machine_spec.specs.Places.{at_place, place};
ghost use Rattle.machine_spec.specs.Stopping as machine;
ghost use Rattle.project_check.specs.Loaded.{program_of};
ghost use Rattle.executions.specs.Answers.{ActsAs};
ghost use Rattle.executions.specs.Nexts.{next_of};
ghost use Rattle.executions.specs.Ready.{IsReady, IsKept};
ghost use Rattle.executions.specs.Resting.{IsIdle};
ghost use Rattle.executions.specs.Seen.{seen};

use crate::execution::Next;
use crate::state::State;
use machine_spec::{InstanceId, Report, Which};
use project_check::Project;
use script_words::{Rng, Stop};
use speech_bubbles::drop_questions;
use std::alloc::Global;
use thread_moves::go_on;

// Whether an instance is a clone: an original has the number of its target.
fn is_clone(project: &Project, id: InstanceId) -> bool
    ensures { result ≡ machine.is_clone (program_of project.now).records id }
{
    let targets = project.records().targets();
    id.0 >= u64::from(targets)
}

impl<R: Rng + Drop> State<R> {
    /// Stops everything (scratch-vm, engine/runtime.js, stopAll): the clones are gone with their variables and lists, and so
    /// are all questions, timers and threads; effects are 0, and what was said is gone.
    pub fn stop_all(&mut self, project: &Project)
        requires { IsKept project.now self.old }
        ensures all { seen R.stream project.now self.new ≡ machine.all_stopped (program_of project.now).records (seen R.stream project.now self.old) }
        ensures kept { IsIdle project.now self.new }
    {
        let targets = project.records().targets();
        self.targets.stop_all(targets);
        self.variables.stop_all(targets);
        self.devices.stop_all();
        self.threads.clear();
    }

    // Ends the other threads of the instance of the running one, which goes on.
    pub(crate) fn stop_others(
        &mut self,
        alloc: Global,
        project: &Project,
        slot: u64,
        which: Which,
        next: Next,
    ) -> Result<Report, Stop>
        requires ready { IsReady project.now slot self.old }
        requires at { which ≡ place slot self.old.threads }
        requires next { next_of (at_place which self.old.threads) ≡ Some next }
        ensures { (late : Bool) → ActsAs R.stream project.now slot next.id late control.StopOthers self.old result self.new }
    {
        match drop_questions(alloc, &mut self.targets, &mut self.devices, next.here) {
            Ok(()) => {
                self.threads.stop_of(next.here, Some(which));
                let threads = &mut self.threads;
                Ok(go_on(project, threads, which, next.target, next.id))
            }
            Err(stop) => Err(stop),
        }
    }

    // Deletes the instance of the running thread, which ends with all others of it; an original stays, and the thread goes on.
    pub(crate) fn delete_clone(
        &mut self,
        alloc: Global,
        project: &Project,
        slot: u64,
        which: Which,
        next: Next,
    ) -> Result<Report, Stop>
        requires ready { IsReady project.now slot self.old }
        requires at { which ≡ place slot self.old.threads }
        requires next { next_of (at_place which self.old.threads) ≡ Some next }
        ensures { (late : Bool) → ActsAs R.stream project.now slot next.id late control.DeleteClone self.old result self.new }
    {
        if is_clone(project, next.here) {
            self.targets.dispose(next.here);
            self.variables.drop_instance(next.here);
            match drop_questions(alloc, &mut self.targets, &mut self.devices, next.here) {
                Ok(()) => {
                    self.devices.drop_timers(next.here);
                    self.threads.stop_of(next.here, None);
                    self.threads.finish(which);
                    Ok(Report::Ended)
                }
                Err(stop) => Err(stop),
            }
        } else {
            let threads = &mut self.threads;
            Ok(go_on(project, threads, which, next.target, next.id))
        }
    }
}
