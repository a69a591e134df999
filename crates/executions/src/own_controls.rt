//! What a control does with its own thread.

ghost use Rattle.std.specs.Prelude.{◌≡◌, ◌<◌, true, IfOk};
ghost use Rattle.machine_spec.specs.Keeping.{control_fits};
ghost use Rattle.machine_spec.specs.Laws as laws;
ghost use Rattle.machine_spec.specs.Outcome.{StopIs, most_levels};
ghost use Rattle.machine_spec.specs.Starting.{open_levels};
ghost use Rattle.machine_spec.specs.Step.{position, opens_level};
ghost use Rattle.project_check.specs.Loaded.{program_of};
ghost use Rattle.thread_frames.specs.Stops.{PushStopIs};
ghost use Rattle.thread_frames.specs.Threads.{frames};
ghost use Rattle.executions.specs.Blocks.{HasKind};
ghost use Rattle.thread_moves.specs.Moves.{IsAtBlock, MovesOn};
ghost use Rattle.executions.specs.Room.{room_for, stops_as};

use crate::runner::Runner;
use crate::state::State;
use machine_spec::{BlockId, Context, Control, Report};
use project_check::Project;
use script_words::{Rng, Stop};
use thread_frames::{PushStop, Threads};
use thread_moves::{call, enter, go_on, stay, stop_this_script};

// Whether a control is of its own thread alone.
#[inline]
pub(crate) fn is_own(control: &Control) -> bool
    ensures { result ≡ laws.is_own control.now }
{
    match control {
        Control::Next => true,
        Control::Branch { .. } => true,
        Control::Yield => true,
        Control::YieldTick => true,
        Control::Promise => true,
        Control::Call { .. } => true,
        Control::StopThis => true,
        Control::StopOthers => false,
        Control::StopAll => false,
        Control::DeleteClone => false,
        Control::Start { .. } => false,
        Control::Clone { .. } => false,
    }
}

// The stop of a level that was not opened.
pub(crate) fn stop_of(stop: PushStop) -> Stop
    ensures { stops_as stop result }
{
    match stop {
        PushStop::Full => Stop::Stack,
        PushStop::NoMemory => Stop::NoMemory,
    }
}

// Moves a runner as a control says that is of its own thread alone; its block keeps the context.
fn act_own(
    project: &Project,
    threads: &mut Threads,
    runner: &Runner,
    id: BlockId,
    control: Control,
    context: Context,
    late: bool,
) -> Result<Report, PushStop>
    requires at { IsAtBlock project.now runner.now.which threads.old runner.now.target id }
    requires own { laws.is_own control ≡ true }
    requires fits { HasKind project.now runner.now.target id (λ k. control_fits control k context) }
    ensures at { IfOk result (MovesOn project.now runner.now.which runner.now.target id (λ s rest warp. position (program_of project.now) late warp s rest control context) threads.old threads.new) }
    ensures room { IfOk result (λ report. opens_level control ≡ true → open_levels frames threads.old < most_levels) }
    ensures stop { PushStopIs result (room_for (opens_level control) (open_levels frames threads.old)) }
{
    let (which, target) = (runner.which, runner.target);
    match control {
        Control::Next => Ok(go_on(project, threads, which, target, id)),
        Control::Branch { number, is_loop } => {
            enter(
                project, threads, which, target, id, number, is_loop, context,
            )
        }
        Control::Yield => Ok(stay(
            project,
            threads,
            which,
            target,
            id,
            context,
            Report::Yielded,
        )),
        Control::YieldTick => Ok(stay(
            project,
            threads,
            which,
            target,
            id,
            context,
            Report::Ticked,
        )),
        Control::Promise => Ok(stay(project, threads, which, target, id, context, Report::Waits)),
        Control::Call { params, .. } => call(project, threads, which, target, id, params, late),
        Control::StopThis => Ok(stop_this_script(project, threads, which, target, id)),
        Control::StopOthers => unreachable!(),
        Control::StopAll => unreachable!(),
        Control::DeleteClone => unreachable!(),
        Control::Start { .. } => unreachable!(),
        Control::Clone { .. } => unreachable!(),
    }
}

impl<R: Rng + Drop> State<R> {
    // Moves a runner as a control says that is of its own thread alone.
    pub(crate) fn act_own(
        &mut self,
        project: &Project,
        runner: &Runner,
        id: BlockId,
        control: Control,
        context: Context,
        late: bool,
    ) -> Result<Report, Stop>
        requires at { IsAtBlock project.now runner.now.which self.old.threads runner.now.target id }
        requires own { laws.is_own control ≡ true }
        requires fits { HasKind project.now runner.now.target id (λ k. control_fits control k context) }
        ensures at { IfOk result (MovesOn project.now runner.now.which runner.now.target id (λ s rest warp. position (program_of project.now) late warp s rest control context) self.old.threads self.new.threads) }
        ensures room { IfOk result (λ report. opens_level control ≡ true → open_levels frames self.old.threads < most_levels) }
        ensures others { self.new ≡ record self.old { threads = self.new.threads } }
        ensures stop { StopIs result (room_for (opens_level control) (open_levels frames self.old.threads)) }
    {
        match act_own(
            project,
            &mut self.threads,
            runner,
            id,
            control,
            context,
            late,
        ) {
            Ok(report) => Ok(report),
            Err(stop) => Err(stop_of(stop)),
        }
    }
}
