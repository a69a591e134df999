//! What the block of the running thread does, its inputs being evaluated.

ghost use Rattle.std.specs.Prelude.{◌≡◌, [], ◌∷◌, ℕ, Ok, false, true};
ghost use Rattle.opcode_table.specs.Kinds.{group};
ghost use Rattle.opcode_table.specs.declared.groups.Group.TheVariants as group_of;
ghost use Rattle.scratch_values.specs.Args.{arguments};
ghost use Rattle.scratch_values.specs.Held.{pair_of};
ghost use Rattle.machine_spec.specs.Keeping.{control_fits};
ghost use Rattle.machine_spec.specs.Laws as laws;
ghost use Rattle.machine_spec.specs.declared.threads.Context.TheVariants.{Fresh};
ghost use Rattle.machine_spec.specs.declared.threads.Control.TheVariants.{Branch, Clone, Next as Passes};
ghost use Rattle.motion_blocks.specs.Blocks.{is_step as only_steps};
ghost use Rattle.targets.specs.Live.{IsLive};
ghost use Rattle.thread_moves.specs.Standing.{is_ended as has_ended};
ghost use Rattle.executions.specs.Answers.{Answers, Chooses};
ghost use Rattle.executions.specs.Blocks.{HasKind, IsBlock};
ghost use Rattle.executions.specs.Choices.{IsChosen, chosen};
ghost use Rattle.executions.specs.Rows.{Acts, Enacts};
ghost use Rattle.executions.specs.Runners.{RunsAt};

use crate::choices::{Choice, way_chosen, way_chosen_by};
use crate::own_controls::{is_own, stop_of};
use crate::runner::Runner;
use crate::state::State;
use cached_blocks::CachedBlock;
use machine_spec::{BlockId, Context, Control, Report};
use motion_blocks::is_step;
use opcode_table::{Group, group};
use project_check::Project;
use scratch_values::{Arg, Args};
use script_words::{Rng, Stop};
use std::alloc::Global;
use thread_moves::{enter, go_on};

// Whether the thread has ended that reports this.
fn is_ended(report: Report) -> bool
    ensures { result ≡ has_ended report }
{
    matches!(report, Report::Ended)
}

impl<R: Rng + Drop> State<R> {
    // The row of a block of data, behind which the runner goes on.
    #[inline]
    fn enact_data(
        &mut self,
        project: &Project,
        slot: u64,
        runner: &Runner,
        id: BlockId,
        block: &CachedBlock,
        args: &Args<'_>,
        late: bool,
    ) -> Result<Report, Stop>
        requires at { RunsAt project.now slot runner.now self.old id }
        requires block { IsBlock project.now runner.now.target id block.now }
        requires group { group block.now.op ≡ group_of.Data }
        ensures { Answers R.stream project.now slot (Enacts R.stream project.now slot id late args.entry.now self.old) result runner.now self.new }
    {
        match self.apply_data(project, block, args, runner.here) {
            Ok(()) => {
                let threads = &mut self.threads;
                Ok(go_on(project, threads, runner.which, runner.target, id))
            }
            Err(stop) => Err(stop),
        }
    }

    // The row of a block of data that has one input, behind which the runner goes on.
    #[inline]
    pub(crate) fn enact_data_one(
        &mut self,
        project: &Project,
        slot: u64,
        runner: &Runner,
        id: BlockId,
        block: &CachedBlock,
        first: Arg<'_>,
        late: bool,
    ) -> Result<Report, Stop>
        requires at { RunsAt project.now slot runner.now self.old id }
        requires block { IsBlock project.now runner.now.target id block.now }
        requires group { group block.now.op ≡ group_of.Data }
        ensures { Answers R.stream project.now slot (Enacts R.stream project.now slot id late (arguments (pair_of first.entry ∷ []) block.now.fields) self.old) result runner.now self.new }
    {
        match self.apply_data_one(project, block, first, runner.here) {
            Ok(()) => {
                let threads = &mut self.threads;
                Ok(go_on(project, threads, runner.which, runner.target, id))
            }
            Err(stop) => Err(stop),
        }
    }

    // The row of a block of motion that only moves or turns its instance, behind which the runner goes on.
    #[inline]
    fn enact_step(
        &mut self,
        project: &Project,
        slot: u64,
        runner: &Runner,
        id: BlockId,
        block: &CachedBlock,
        args: &Args<'_>,
        late: bool,
    ) -> Report
        requires at { RunsAt project.now slot runner.now self.old id }
        requires block { IsBlock project.now runner.now.target id block.now }
        requires step { only_steps block.now.op ≡ true }
        ensures { Answers R.stream project.now slot (Enacts R.stream project.now slot id late args.entry.now self.old) (Ok result) runner.now self.new }
    {
        self.apply_step(project, block, args, runner.here);
        let threads = &mut self.threads;
        go_on(project, threads, runner.which, runner.target, id)
    }

    // A branch that the block of the runner chose is entered.
    #[inline]
    pub(crate) fn enter_chosen(
        &mut self,
        project: &Project,
        slot: u64,
        runner: &Runner,
        id: BlockId,
        block: &CachedBlock,
        number: u8,
        is_loop: bool,
        late: bool,
    ) -> Result<Report, Stop>
        requires at { RunsAt project.now slot runner.now self.old id }
        requires block { IsBlock project.now runner.now.target id block.now }
        requires chosen { IsChosen block.now.op (Branch number is_loop) }
        ensures { Answers R.stream project.now slot (Chooses R.stream project.now slot id late block.now.op (Branch number is_loop) self.old) result runner.now self.new }
    {
        let threads = &mut self.threads;
        let (which, target) = (runner.which, runner.target);
        match enter(
            project,
            threads,
            which,
            target,
            id,
            number,
            is_loop,
            Context::Fresh,
        ) {
            Ok(report) => Ok(report),
            Err(stop) => Err(stop_of(stop)),
        }
    }

    // The runner goes on behind its block, which chose no branch.
    #[inline]
    pub(crate) fn pass_chosen(
        &mut self,
        project: &Project,
        slot: u64,
        runner: &Runner,
        id: BlockId,
        block: &CachedBlock,
        late: bool,
    ) -> Report
        requires at { RunsAt project.now slot runner.now self.old id }
        requires block { IsBlock project.now runner.now.target id block.now }
        requires chosen { IsChosen block.now.op Passes }
        ensures { Answers R.stream project.now slot (Chooses R.stream project.now slot id late block.now.op Passes self.old) (Ok result) runner.now self.new }
    {
        let threads = &mut self.threads;
        go_on(project, threads, runner.which, runner.target, id)
    }

    // What a control does that is not of the runner alone, whose block keeps nothing. A thread that has not ended may stand in
    // another place then.
    fn act_apart(
        &mut self,
        alloc: Global,
        project: &Project,
        slot: u64,
        runner: &mut Runner,
        id: BlockId,
        control: Control,
        late: bool,
    ) -> Result<Report, Stop>
        requires at { RunsAt project.now slot runner.old self.old id }
        requires own { laws.is_own control ≡ false }
        requires clones { (original : ℕ) → control ≡ Clone original → IsLive original self.old.targets }
        requires fits { HasKind project.now runner.old.target id (λ k. control_fits control k Fresh) }
        ensures { Answers R.stream project.now slot (Acts R.stream project.now slot id late control self.old) result runner.new self.new }
    {
        let next = runner.next(id);
        match self.act_on_others(alloc, project, slot, runner.which, next, control, late) {
            Ok(report) => {
                if !is_ended(report) {
                    *runner = self.runner(project, slot);
                }
                Ok(report)
            }
            Err(stop) => Err(stop),
        }
    }

    // The row of a block that may keep something, and what its control does.
    fn enact_kept(
        &mut self,
        alloc: Global,
        project: &Project,
        slot: u64,
        runner: &mut Runner,
        id: BlockId,
        block: &CachedBlock,
        args: &Args<'_>,
        late: bool,
    ) -> Result<Report, Stop>
        requires at { RunsAt project.now slot runner.old self.old id }
        requires block { IsBlock project.now runner.old.target id block.now }
        ensures { Answers R.stream project.now slot (Enacts R.stream project.now slot id late args.entry.now self.old) result runner.new self.new }
    {
        let here = runner.here;
        let serial = runner.serial;
        let context = self.threads.take_context(runner.which);
        match self.apply(alloc, project, block, args, here, serial, context) {
            Ok((control, context)) => {
                if is_own(&control) {
                    self.act_own(project, runner, id, control, context, late)
                } else {
                    self.act_apart(alloc, project, slot, runner, id, control, late)
                }
            }
            Err(stop) => Err(stop),
        }
    }

    // The row of the block of a runner, and what its control does; the inputs were evaluated.
    #[inline(always)]
    pub(crate) fn enact(
        &mut self,
        alloc: Global,
        project: &Project,
        slot: u64,
        runner: &mut Runner,
        id: BlockId,
        args: &Args<'_>,
        late: bool,
    ) -> Result<Report, Stop>
        requires { RunsAt project.now slot runner.old self.old id }
        ensures { Answers R.stream project.now slot (Enacts R.stream project.now slot id late args.entry.now self.old) result runner.new self.new }
    {
        let block = project.cached(runner.target, id);
        if matches!(group(block.op), Group::Data) {
            return self.enact_data(project, slot, runner, id, block, args, late);
        }
        if is_step(block.op) {
            return Ok(self.enact_step(project, slot, runner, id, block, args, late));
        }
        match way_chosen(block.op, args) {
            Some(Choice::Enter { number, is_loop }) => self.enter_chosen(
                project, slot, runner, id, block, number, is_loop, late,
            ),
            Some(Choice::Pass) => { Ok(self.pass_chosen(project, slot, runner, id, block, late)) }
            None => self.enact_kept(alloc, project, slot, runner, id, block, args, late),
        }
    }

    // What a block with one input does that is not of data: a choice by the input alone needs no arguments.
    #[inline(always)]
    pub(crate) fn enact_by(
        &mut self,
        alloc: Global,
        project: &Project,
        slot: u64,
        runner: &mut Runner,
        id: BlockId,
        block: &CachedBlock,
        first: Arg<'_>,
        late: bool,
    ) -> Result<Report, Stop>
        requires at { RunsAt project.now slot runner.old self.old id }
        requires block { IsBlock project.now runner.old.target id block.now }
        ensures { Answers R.stream project.now slot (Enacts R.stream project.now slot id late (arguments (pair_of first.entry ∷ []) block.now.fields) self.old) result runner.new self.new }
    {
        match way_chosen_by(block.op, &first) {
            Some(Choice::Enter { number, is_loop }) => {
                self.enter_chosen(project, slot, runner, id, block, number, is_loop, late)
            }
            Some(Choice::Pass) => Ok(self.pass_chosen(project, slot, runner, id, block, late)),
            None => self.enact_one(alloc, project, slot, runner, id, block, first, late),
        }
    }

    // The row of a block that is not of data and has one input, and what its control does.
    #[inline(never)]
    pub(crate) fn enact_one(
        &mut self,
        alloc: Global,
        project: &Project,
        slot: u64,
        runner: &mut Runner,
        id: BlockId,
        block: &CachedBlock,
        first: Arg<'_>,
        late: bool,
    ) -> Result<Report, Stop>
        requires { RunsAt project.now slot runner.old self.old id }
        ensures { Answers R.stream project.now slot (Enacts R.stream project.now slot id late (arguments (pair_of first.entry ∷ []) block.now.fields) self.old) result runner.new self.new }
    {
        let args = Args::one(block.fields.as_slice(), first);
        self.enact(alloc, project, slot, runner, id, &args, late)
    }
}
