//! What a control does that acts on other threads or on instances.

ghost use Rattle.std.specs.Prelude.{◌≡◌, ℕ, false, Some};
ghost use Rattle.machine_spec.specs.declared.threads.Context.TheVariants.{Fresh};
ghost use Rattle.machine_spec.specs.declared.threads.Control.TheVariants.{Clone};
ghost use Rattle.machine_spec.specs.Keeping.{control_fits};
ghost use Rattle.machine_spec.specs.Laws as laws;
ghost use Rattle.machine_spec.specs.Places.{at_place, place};
ghost use Rattle.targets.specs.Live.{IsLive};
ghost use Rattle.executions.specs.Answers.{ActsAs};
ghost use Rattle.executions.specs.Blocks.{HasKind};
ghost use Rattle.executions.specs.Nexts.{next_of};
ghost use Rattle.executions.specs.Ready.{IsReady};

use crate::execution::Next;
use crate::state::State;
use machine_spec::{Control, Report, Which};
use project_check::Project;
use script_words::{Rng, Stop};
use std::alloc::Global;

impl<R: Rng + Drop> State<R> {
    // What a control does that is not of the running thread alone; the block of that thread keeps nothing.
    pub(crate) fn act_on_others(
        &mut self,
        alloc: Global,
        project: &Project,
        slot: u64,
        which: Which,
        next: Next,
        control: Control,
        late: bool,
    ) -> Result<Report, Stop>
        requires ready { IsReady project.now slot self.old }
        requires at { which ≡ place slot self.old.threads }
        requires next { next_of (at_place which self.old.threads) ≡ Some next }
        requires own { laws.is_own control ≡ false }
        requires clones { (original : ℕ) → control ≡ Clone original → IsLive original self.old.targets }
        requires fits { HasKind project.now next.target next.id (λ k. control_fits control k Fresh) }
        ensures { ActsAs R.stream project.now slot next.id late control self.old result self.new }
    {
        match control {
            Control::StopOthers => self.stop_others(alloc, project, slot, which, next),
            Control::StopAll => {
                self.stop_all(project);
                Ok(Report::Ended)
            }
            Control::DeleteClone => self.delete_clone(alloc, project, slot, which, next),
            Control::Start { hats, wait } => {
                self.start_hats(alloc, project, slot, next, hats.get(), wait)
            }
            Control::Clone { of } => self.make_clone(alloc, project, slot, next, of),
            Control::Next => unreachable!(),
            Control::Branch { .. } => unreachable!(),
            Control::Yield => unreachable!(),
            Control::YieldTick => unreachable!(),
            Control::Promise => unreachable!(),
            Control::Call { .. } => unreachable!(),
            Control::StopThis => unreachable!(),
        }
    }
}
