//! One execution of the running thread.

ghost use Rattle.std.specs.Prelude.{◌≡◌, length, IfOk, Some};
ghost use Rattle.opcode_table.specs.declared.opcode.Opcode.TheVariants.{ControlForever};
ghost use Rattle.machine_spec.specs.Outcome.{Goes, StopIs};
ghost use Rattle.machine_spec.specs.Places.{at_place};
ghost use Rattle.machine_spec.specs.Step as machine;
ghost use Rattle.project_check.specs.Loaded.{program_of};
ghost use Rattle.thread_frames.specs.Levels.{top_block};
ghost use Rattle.thread_frames.specs.Threads.{levels_of};
ghost use Rattle.executions.specs.Answers.{Answers, Steps};
ghost use Rattle.executions.specs.Blocks.{IsBlock};
ghost use Rattle.executions.specs.Runners.{IsRunner, IsRunnerAfter, RunsAt};
ghost use Rattle.executions.specs.Seen.{seen};

use crate::runner::Runner;
use crate::state::State;
use cached_blocks::CachedBlock;
use evaluate::{View, inputs, no_inputs, only_input};
use machine_spec::{BlockId, InstanceId, Report, Serial, TargetId};
use opcode_table::{Group, Opcode, group};
use project_check::Project;
use script_words::{Rng, Stop};
use std::alloc::Global;

// The block that a thread executes next, the target that has it, and the instance and the number of the thread.
#[derive(Clone, Copy, Debug)]
pub(crate) struct Next {
    pub(crate) target: TargetId,
    pub(crate) here: InstanceId,
    pub(crate) serial: Serial,
    pub(crate) id: BlockId,
}

impl<R: Rng + Drop> State<R> {
    // One execution of a loop without end.
    #[inline(always)]
    fn execute_forever(
        &mut self,
        project: &Project,
        slot: u64,
        runner: &mut Runner,
        id: BlockId,
        block: &CachedBlock,
        late: bool,
    ) -> Result<Report, Stop>
        requires at { RunsAt project.now slot runner.old self.old id }
        requires block { IsBlock project.now runner.old.target id block.now }
        requires inputs { length block.now.inputs ≡ 0 }
        requires op { block.now.op ≡ ControlForever }
        ensures { Answers R.stream project.now slot (Steps R.stream project.now slot late self.old) result runner.new self.new }
    {
        let levels = self.threads.levels_at(runner.which);
        let view = View {
            project,
            targets: &self.targets,
            variables: &self.variables,
            devices: &self.devices,
            here: runner.here,
            target: runner.target,
            levels: Some(levels),
        };
        let _none = no_inputs(&view, id);
        self.enter_chosen(project, slot, runner, id, block, 1, true, late)
    }

    // One execution of a block that has no input, whatever the block.
    #[inline(never)]
    fn execute_plain(
        &mut self,
        alloc: Global,
        project: &Project,
        slot: u64,
        runner: &mut Runner,
        id: BlockId,
        block: &CachedBlock,
        late: bool,
    ) -> Result<Report, Stop>
        requires at { RunsAt project.now slot runner.old self.old id }
        requires block { IsBlock project.now runner.old.target id block.now }
        requires inputs { length block.now.inputs ≡ 0 }
        ensures { Answers R.stream project.now slot (Steps R.stream project.now slot late self.old) result runner.new self.new }
    {
        let levels = self.threads.levels_at(runner.which);
        let view = View {
            project,
            targets: &self.targets,
            variables: &self.variables,
            devices: &self.devices,
            here: runner.here,
            target: runner.target,
            levels: Some(levels),
        };
        let args = no_inputs(&view, id);
        self.enact(alloc, project, slot, runner, id, &args, late)
    }

    // One execution of a block that has no input.
    #[inline(always)]
    fn execute_none(
        &mut self,
        alloc: Global,
        project: &Project,
        slot: u64,
        runner: &mut Runner,
        id: BlockId,
        block: &CachedBlock,
        late: bool,
    ) -> Result<Report, Stop>
        requires at { RunsAt project.now slot runner.old self.old id }
        requires block { IsBlock project.now runner.old.target id block.now }
        requires inputs { length block.now.inputs ≡ 0 }
        ensures { Answers R.stream project.now slot (Steps R.stream project.now slot late self.old) result runner.new self.new }
    {
        if matches!(block.op, Opcode::ControlForever) {
            self.execute_forever(project, slot, runner, id, block, late)
        } else {
            self.execute_plain(alloc, project, slot, runner, id, block, late)
        }
    }

    // One execution of a block that has one input.
    #[inline(always)]
    fn execute_one(
        &mut self,
        alloc: Global,
        project: &Project,
        slot: u64,
        runner: &mut Runner,
        id: BlockId,
        block: &CachedBlock,
        late: bool,
    ) -> Result<Report, Stop>
        requires at { RunsAt project.now slot runner.old self.old id }
        requires block { IsBlock project.now runner.old.target id block.now }
        requires inputs { length block.now.inputs ≡ 1 }
        ensures { Answers R.stream project.now slot (Steps R.stream project.now slot late self.old) result runner.new self.new }
    {
        let levels = self.threads.levels_at(runner.which);
        let view = View {
            project,
            targets: &self.targets,
            variables: &self.variables,
            devices: &self.devices,
            here: runner.here,
            target: runner.target,
            levels: Some(levels),
        };
        let first = match only_input(alloc, &view, id, &mut self.words) {
            Ok(first) => first,
            Err(stop) => return Err(stop),
        };
        if matches!(group(block.op), Group::Data) {
            self.enact_data_one(project, slot, runner, id, block, first, late)
        } else {
            self.enact_by(alloc, project, slot, runner, id, block, first, late)
        }
    }

    // One execution of a block that has any number of inputs.
    #[inline(never)]
    fn execute_many(
        &mut self,
        alloc: Global,
        project: &Project,
        slot: u64,
        runner: &mut Runner,
        id: BlockId,
        late: bool,
    ) -> Result<Report, Stop>
        requires { RunsAt project.now slot runner.old self.old id }
        ensures { Answers R.stream project.now slot (Steps R.stream project.now slot late self.old) result runner.new self.new }
    {
        let levels = self.threads.levels_at(runner.which);
        let view = View {
            project,
            targets: &self.targets,
            variables: &self.variables,
            devices: &self.devices,
            here: runner.here,
            target: runner.target,
            levels: Some(levels),
        };
        match &inputs(alloc, &view, id, &mut self.words) {
            Ok(args) => self.enact(alloc, project, slot, runner, id, args, late),
            Err(stop) => Err(*stop),
        }
    }

    // One execution of a runner, whose top level holds a block.
    #[inline(always)]
    fn execute(
        &mut self,
        alloc: Global,
        project: &Project,
        slot: u64,
        runner: &mut Runner,
        id: BlockId,
        late: bool,
    ) -> Result<Report, Stop>
        requires { RunsAt project.now slot runner.old self.old id }
        ensures { Answers R.stream project.now slot (Steps R.stream project.now slot late self.old) result runner.new self.new }
    {
        let block = project.cached(runner.target, id);
        match block.inputs.len() {
            0 => self.execute_none(alloc, project, slot, runner, id, block, late),
            1 => self.execute_one(alloc, project, slot, runner, id, block, late),
            _ => self.execute_many(alloc, project, slot, runner, id, late),
        }
    }

    /// One execution of a runner whose top level holds this block: what `step` does, which looks for the block.
    #[inline(always)]
    pub fn step_at(
        &mut self,
        alloc: Global,
        project: &Project,
        slot: u64,
        runner: &mut Runner,
        id: BlockId,
        late: bool,
    ) -> Result<Report, Stop>
        requires runs { IsRunner project.now slot runner.old self.old }
        requires block { top_block (levels_of (at_place runner.old.which self.old.threads)) ≡ Some id }
        ensures ok { IfOk result (λ report. machine.step (program_of project.now) slot late (seen R.stream project.now self.old) ≡ Goes (record { world = seen R.stream project.now self.new; report = report })) }
        ensures after { IfOk result (λ report. IsRunnerAfter project.now slot report runner.new self.new) }
        ensures stop { StopIs result (machine.step (program_of project.now) slot late (seen R.stream project.now self.old)) }
    {
        self.execute(alloc, project, slot, runner, id, late)
    }

    /// One execution of a runner, while the thread of a slot is visited: the inputs of its block, the block's row, and what
    /// the row's control does with this thread and with others. `late` says that warp time had passed before it. The answer
    /// tells what the thread reports; where it has not ended, the runner tells where it stands now. `Stop` is the first limit that is met: `Stack` exactly where a level is opened and 65,536 are open, `Text` and `Counter` exactly
    /// where the machine meets them; the only other one is `NoMemory`. After a stop nothing is told of the run.
    #[inline]
    pub fn step(
        &mut self,
        alloc: Global,
        project: &Project,
        slot: u64,
        runner: &mut Runner,
        late: bool,
    ) -> Result<Report, Stop>
        requires { IsRunner project.now slot runner.old self.old }
        ensures ok { IfOk result (λ report. machine.step (program_of project.now) slot late (seen R.stream project.now self.old) ≡ Goes (record { world = seen R.stream project.now self.new; report = report })) }
        ensures after { IfOk result (λ report. IsRunnerAfter project.now slot report runner.new self.new) }
        ensures stop { StopIs result (machine.step (program_of project.now) slot late (seen R.stream project.now self.old)) }
    {
        match self.block_of(runner) {
            Some(id) => self.step_at(alloc, project, slot, runner, id, late),
            None => unreachable!(),
        }
    }
}
