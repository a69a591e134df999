//! The control that makes a clone.

ghost use Rattle.std.specs.Prelude.{◌≡◌, ◌<◌, ◌^◌, ◌+◌, ◌==◌, ◌∷◌, ◌++◌, [], Bool, Some, OnOk};
ghost use Rattle.machine_spec.specs.declared.threads.Control.TheVariants as control;
ghost use Rattle.machine_spec.specs.Outcome.{Goes, StopIs, last_number};
ghost use Rattle.machine_spec.specs.Places.{running};
ghost use Rattle.machine_spec.specs.Step as machine;
ghost use Rattle.machine_spec.specs.Stopping.{copied, has_no_room};
ghost use Rattle.machine_spec.specs.Stores.{instance_at, store_at};
ghost use Rattle.project_check.specs.Loaded.{program_of};
ghost use Rattle.targets.specs.Live.{IsLive};
ghost use Rattle.variables.specs.Held.{HasNoStore};
ghost use Rattle.executions.specs.Answers.{ActsAs};
ghost use Rattle.executions.specs.Nexts.{next_of};
ghost use Rattle.executions.specs.Ready.{IsReady, IsKept};
ghost use Rattle.executions.specs.Seen.{seen};

use crate::execution::Next;
use crate::state::State;
use hats::start;
use machine_spec::{Filter, InstanceId, Report};
use project_check::Project;
use script_words::{CounterKind, LAST_NUMBER, Rng, Stop};
use std::alloc::{AllocError, Global};
use thread_moves::go_on;

impl<R: Rng + Drop> State<R> {
    // Whether no number of an instance is left.
    fn is_spent(&self) -> bool
        ensures { result ≡ (self.now.next_instance == last_number) }
    {
        self.next_instance == LAST_NUMBER
    }

    // Adds a clone, last in the order, with a copy of the variables and lists.
    fn add_copy(&mut self, original: InstanceId, number: InstanceId) -> Result<(), AllocError>
        requires live { IsLive original self.old.targets }
        requires free { HasNoStore number self.old.variables }
        requires few { number < 2 ^ 62 }
        ensures { OnOk result (self.new ≡ record self.old { next_instance = number + 1; targets = self.old.targets ++ copied number (instance_at original self.old.targets) ∷ []; variables = record self.old.variables { stores = self.old.variables.stores ++ record (store_at original self.old.variables.stores) { of = number } ∷ [] } }) }
    {
        self.targets.add_clone(original, number)?;
        self.variables.copy_for_clone(original, number)?;
        self.next_instance = number.0 + 1;
        Ok(())
    }

    // Makes a clone, starts its hats, and puts it directly behind its original.
    fn add_clone(
        &mut self,
        alloc: Global,
        project: &Project,
        slot: u64,
        original: InstanceId,
    ) -> Result<(), Stop>
        requires ready { IsReady project.now slot self.old }
        requires live { IsLive original self.old.targets }
        ensures ok { OnOk result (machine.cloned (program_of project.now) slot original (seen R.stream project.now self.old) ≡ Goes (seen R.stream project.now self.new)) }
        ensures runs { OnOk result (running slot self.new.threads ≡ running slot self.old.threads) }
        ensures kept { OnOk result (IsKept project.now self.new) }
        ensures stop { StopIs result (machine.cloned (program_of project.now) slot original (seen R.stream project.now self.old)) }
    {
        if self.is_spent() {
            return Err(Stop::Counter {
                which: CounterKind::Instance,
            });
        }
        let number = InstanceId(self.next_instance);
        match self.add_copy(original, number) {
            Ok(()) => {}
            Err(_) => return Err(Stop::NoMemory),
        }
        let hats = Filter::CloneStart(number);
        let threads = &mut self.threads;
        let count = &mut self.next_thread;
        match start(
            alloc,
            project.hat_index(),
            &self.targets,
            threads,
            count,
            Some(slot),
            &hats,
        ) {
            Ok(_) => {
                self.targets.place_behind(number, original);
                Ok(())
            }
            Err(stop) => Err(stop),
        }
    }

    // The same where there is room for a clone, and nothing else.
    fn clone_unless(
        &mut self,
        alloc: Global,
        project: &Project,
        slot: u64,
        original: InstanceId,
    ) -> Result<(), Stop>
        requires ready { IsReady project.now slot self.old }
        requires live { IsLive original self.old.targets }
        ensures ok { OnOk result (machine.cloned_unless (has_no_room (program_of project.now).records original (seen R.stream project.now self.old)) (program_of project.now) slot original (seen R.stream project.now self.old) ≡ Goes (seen R.stream project.now self.new)) }
        ensures runs { OnOk result (running slot self.new.threads ≡ running slot self.old.threads) }
        ensures kept { OnOk result (IsKept project.now self.new) }
        ensures stop { StopIs result (machine.cloned_unless (has_no_room (program_of project.now).records original (seen R.stream project.now self.old)) (program_of project.now) slot original (seen R.stream project.now self.old)) }
    {
        if self.targets.has_room(project.records(), original) {
            self.add_clone(alloc, project, slot, original)
        } else {
            Ok(())
        }
    }

    // Makes a clone of an instance, where there is room for one; the running thread goes on.
    pub(crate) fn make_clone(
        &mut self,
        alloc: Global,
        project: &Project,
        slot: u64,
        next: Next,
        original: InstanceId,
    ) -> Result<Report, Stop>
        requires ready { IsReady project.now slot self.old }
        requires next { next_of (running slot self.old.threads) ≡ Some next }
        requires live { IsLive original self.old.targets }
        ensures { (late : Bool) → ActsAs R.stream project.now slot next.id late (control.Clone original) self.old result self.new }
    {
        match self.clone_unless(alloc, project, slot, original) {
            Ok(()) => {
                let which = self.threads.place(slot);
                let threads = &mut self.threads;
                Ok(go_on(project, threads, which, next.target, next.id))
            }
            Err(stop) => Err(stop),
        }
    }
}
