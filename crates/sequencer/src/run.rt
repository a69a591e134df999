//! A run.

ghost use Rattle.std.specs.Prelude.{◌≡◌, ◌≤◌, ◌<◌, ◌^◌, false, IfErr, IfOk, OnOk};
ghost use Rattle.machine_spec.specs.First.{first_world};
ghost use Rattle.machine_spec.specs.Frame as machine;
ghost use Rattle.machine_spec.specs.Line as lines;
ghost use Rattle.machine_spec.specs.Outcome.{Goes, StopIs};
ghost use Rattle.machine_spec.specs.Words.{seen_words};
ghost use Rattle.machine_spec.specs.declared.lines.Line.TheVariants.{Frame};
ghost use Rattle.laws_of_worlds.specs.Runs.{KeepsLegal, OpensLegal};
ghost use Rattle.executions.specs.Resting.{IsIdle};
ghost use Rattle.project_check.specs.Loaded.{program_of};
ghost use Rattle.sequencer.specs.Runs.{world_of, IsRunOf};
ghost use Rattle.sequencer.specs.Frames.{is_frame};
ghost use Rattle.sequencer.specs.Stops.{IsOfLinesOrMemory};

use devices::Devices;
use executions::State;
use laws_of_worlds::{every_line_keeps_it_legal, the_first_world_is_legal};
use machine_spec::{Budget, Line};
use project_check::Project;
use script_words::{Counted, Rng, Stop};
use std::alloc::{AllocError, Global};
use targets::Targets;
use thread_frames::Threads;
use variables::Variables;

/// A run of a project. It keeps no project: each call is given the one that the run was opened with.
#[derive(Drop)]
pub struct Run<R> {
    alloc: Global,
    state: State<R>,
}

impl<R: Rng + Drop> Run<R> {
    /// The run with which a project begins: its originals in executable order, their variables and lists, no threads; the
    /// clock stands at 0. The only error is want of memory.
    pub fn open(alloc: Global, project: &Project, words: Counted<R>) -> Result<Run<R>, AllocError>
        ensures world { IfOk result (λ run. world_of R.stream project.now run ≡ first_world (program_of project.now) (seen_words R.stream words)) }
        ensures fits { IfOk result (λ run. IsRunOf project.now run) }
        ensures legal { IfOk result (λ run. OpensLegal (program_of project.now) (world_of R.stream project.now run)) }
    {
        the_first_world_is_legal();
        let state = State::open(alloc, project, words)?;
        Ok(Run { alloc, state })
    }

    /// The run that is in just this state, which is one of the project between two lines, as a saved run that is read again
    /// has it. It takes no memory.
    pub fn rebuild(alloc: Global, project: &Project, state: State<R>) -> Run<R>
        requires idle { IsIdle project.now state }
        requires few { state.frame < 2 ^ 62 }
        ensures state { result.state ≡ state }
        ensures fits { IsRunOf project.now result }
    {
        Run { alloc, state }
    }

    /// Applies a line of an input script that is no frame. `Stop` is the first limit that is met: `Stack`, or `Counter` of
    /// threads or of bubbles; and `NoMemory` only for want of memory. After a stop the run is only dropped.
    pub fn apply_line(&mut self, project: &Project, line: &Line) -> Result<(), Stop>
        requires fits { IsRunOf project.now self.old }
        requires event { is_frame line.now ≡ false }
        ensures ok { OnOk result (lines.after (program_of project.now) line.now (world_of R.stream project.now self.old) ≡ Goes (world_of R.stream project.now self.new)) }
        ensures stop { StopIs result (lines.after (program_of project.now) line.now (world_of R.stream project.now self.old)) }
        ensures kind { IfErr result IsOfLinesOrMemory }
        ensures fits { OnOk result (IsRunOf project.now self.new) }
        ensures clock { OnOk result (self.new.state.devices.clock ≡ self.old.state.devices.clock) }
        ensures legal { OnOk result (KeepsLegal (program_of project.now) line.now (world_of R.stream project.now self.old) (world_of R.stream project.now self.new)) }
    {
        every_line_keeps_it_legal();
        crate::lines::apply_line(&mut self.state, self.alloc, project, line)
    }

    /// Makes a frame: the clock is set, due bubble timers end, edge hats are evaluated, and passes are made (scratch-vm,
    /// engine/runtime.js, _step). `Stop` is the first limit that is met, and `NoMemory` only for want of memory. After a stop
    /// the run is only dropped.
    pub fn frame(&mut self, project: &Project, budget: &Budget) -> Result<(), Stop>
        requires fits { IsRunOf project.now self.old }
        requires clock { self.old.state.devices.clock ≤ budget.now.clock }
        ensures ok { OnOk result (machine.frame (program_of project.now) budget.now (world_of R.stream project.now self.old) ≡ Goes (world_of R.stream project.now self.new)) }
        ensures stop { StopIs result (machine.frame (program_of project.now) budget.now (world_of R.stream project.now self.old)) }
        ensures fits { OnOk result (IsRunOf project.now self.new) }
        ensures clock { OnOk result (self.new.state.devices.clock ≡ budget.now.clock) }
        ensures legal { OnOk result (KeepsLegal (program_of project.now) (Frame budget.now) (world_of R.stream project.now self.old) (world_of R.stream project.now self.new)) }
    {
        every_line_keeps_it_legal();
        frames::frame(&mut self.state, self.alloc, project, budget)
    }

    /// The clock in milliseconds.
    pub fn clock(&self) -> u64
        ensures { result ≡ self.now.state.devices.clock }
    {
        self.state.devices.clock()
    }

    /// The number of frames that were made.
    pub fn frame_number(&self) -> u64
        ensures { result ≡ self.now.state.frame }
    {
        self.state.frame
    }

    /// The random words, with their number.
    pub fn words(&self) -> &Counted<R>
        ensures { result.now ≡ self.now.state.words }
    {
        &self.state.words
    }

    /// The number that the next thread gets.
    pub fn next_thread(&self) -> u64
        ensures { result ≡ self.now.state.next_thread }
    {
        self.state.next_thread
    }

    /// The number that the next clone gets.
    pub fn next_instance(&self) -> u64
        ensures { result ≡ self.now.state.next_instance }
    {
        self.state.next_instance
    }

    /// Whether a redraw is requested.
    pub fn redraw(&self) -> bool
        ensures { result ≡ self.now.state.redraw }
    {
        self.state.redraw
    }

    /// The instances.
    pub fn targets(&self) -> &Targets
        ensures { result.now ≡ self.now.state.targets }
    {
        &self.state.targets
    }

    /// The variables, lists and monitors.
    pub fn variables(&self) -> &Variables
        ensures { result.now ≡ self.now.state.variables }
    {
        &self.state.variables
    }

    /// The devices.
    pub fn devices(&self) -> &Devices
        ensures { result.now ≡ self.now.state.devices }
    {
        &self.state.devices
    }

    /// The threads.
    pub fn threads(&self) -> &Threads
        ensures { result.now ≡ self.now.state.threads }
    {
        &self.state.threads
    }
}
