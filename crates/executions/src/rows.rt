//! The rows of blocks on the parts of a run.

ghost use Rattle.std.specs.Prelude.{◌≡◌, ◌||◌, [], ◌∷◌, ℕ, true, IfOk, OnOk};
ghost use Rattle.scratch_values.specs.Args.{arguments};
ghost use Rattle.scratch_values.specs.Held.{pair_of};
ghost use Rattle.opcode_table.specs.Kinds.{group};
ghost use Rattle.opcode_table.specs.declared.groups.Group.TheVariants as group_of;
ghost use Rattle.machine_spec.specs.declared.threads.Control.TheVariants.{Next};
ghost use Rattle.machine_spec.specs.declared.threads.Context.{Context as Kept};
ghost use Rattle.machine_spec.specs.declared.threads.Context.TheVariants.{Fresh};
ghost use Rattle.motion_blocks.specs.Blocks.{is_step};
ghost use Rattle.targets.specs.Live.{IsLive};
ghost use Rattle.executions.specs.Ready.{ArePeopled};
ghost use Rattle.executions.specs.Rows.{Leaves, LeavesTo, RowGoes, RowStops};

use crate::state::State;
use cached_blocks::CachedBlock;
use machine_spec::{Context, Control, InstanceId, Serial};
use opcode_table::{Group, group};
use project_check::Project;
use scratch_values::{Arg, Args};
use script_words::{Rng, Stop};
use std::alloc::Global;

// Whether one of two holds.
fn either(a: bool, b: bool) -> bool
    ensures { result ≡ (a || b) }
{
    a || b
}

impl<R: Rng + Drop> State<R> {
    // The row of a block of data, which keeps nothing and goes on.
    #[inline]
    pub(crate) fn apply_data(
        &mut self,
        project: &Project,
        block: &CachedBlock,
        args: &Args<'_>,
        here: InstanceId,
    ) -> Result<(), Stop>
        requires { group block.now.op ≡ group_of.Data }
        ensures ok { OnOk result ((thread : ℕ) → (context : Kept) → RowGoes R.stream project.now block.now args.entry.now here thread context self.old Fresh self.new Next) }
        ensures kept { OnOk result (Leaves self.old self.new) }
        ensures stop { (thread : ℕ) → (context : Kept) → RowStops R.stream project.now block.now args.entry.now here thread context self.old result }
    {
        match data_blocks::apply(
            block.op,
            args,
            here,
            project.records(),
            &self.targets,
            &mut self.variables,
            &mut self.words,
        ) {
            Ok(()) => Ok(()),
            Err(stop) => Err(stop),
        }
    }

    // The row of a block of data that has one input.
    #[inline]
    pub(crate) fn apply_data_one(
        &mut self,
        project: &Project,
        block: &CachedBlock,
        first: Arg<'_>,
        here: InstanceId,
    ) -> Result<(), Stop>
        requires { group block.now.op ≡ group_of.Data }
        ensures ok { OnOk result ((thread : ℕ) → (context : Kept) → RowGoes R.stream project.now block.now (arguments (pair_of first.entry ∷ []) block.now.fields) here thread context self.old Fresh self.new Next) }
        ensures kept { OnOk result (Leaves self.old self.new) }
        ensures stop { (thread : ℕ) → (context : Kept) → RowStops R.stream project.now block.now (arguments (pair_of first.entry ∷ []) block.now.fields) here thread context self.old result }
    {
        match data_blocks::apply_one(
            block.op,
            block.fields.as_slice(),
            first,
            here,
            project.records(),
            &self.targets,
            &mut self.variables,
            &mut self.words,
        ) {
            Ok(()) => Ok(()),
            Err(stop) => Err(stop),
        }
    }

    // The row of a block of motion that only moves or turns its instance.
    #[inline]
    pub(crate) fn apply_step(
        &mut self,
        project: &Project,
        block: &CachedBlock,
        args: &Args<'_>,
        here: InstanceId,
    )
        requires group { group block.now.op ≡ group_of.Motion }
        requires step { is_step block.now.op ≡ true }
        ensures ok { (thread : ℕ) → (context : Kept) → RowGoes R.stream project.now block.now args.entry.now here thread context self.old Fresh self.new Next }
        ensures kept { Leaves self.old self.new }
    {
        let records = project.records();
        let redraw = motion_blocks::apply_step(block.op, args, here, records, &mut self.targets);
        self.redraw = either(self.redraw, redraw);
    }

    // The row of a block of motion.
    fn apply_motion(
        &mut self,
        alloc: Global,
        project: &Project,
        block: &CachedBlock,
        args: &Args<'_>,
        here: InstanceId,
        context: Context,
    ) -> Result<(Control, Context), Stop>
        requires { group block.now.op ≡ group_of.Motion }
        ensures ok { IfOk result (λ r. (thread : ℕ) → RowGoes R.stream project.now block.now args.entry.now here thread context self.old r.1 self.new r.0) }
        ensures kept { IfOk result (λ r. LeavesTo project.now block.now.op here context self.old r.1 self.new r.0) }
        ensures stop { (thread : ℕ) → RowStops R.stream project.now block.now args.entry.now here thread context self.old result }
    {
        let mut kept = context;
        match motion_blocks::apply(
            alloc,
            block.op,
            args,
            here,
            project.records(),
            &mut self.targets,
            &self.devices,
            &mut self.words,
            &mut kept,
        ) {
            Ok((control, redraw)) => {
                self.redraw = either(self.redraw, redraw);
                Ok((control, kept))
            }
            Err(stop) => Err(stop),
        }
    }

    // The row of a block of looks or of sound.
    fn apply_looks(
        &mut self,
        alloc: Global,
        project: &Project,
        block: &CachedBlock,
        args: &Args<'_>,
        here: InstanceId,
        thread: Serial,
        context: Context,
    ) -> Result<(Control, Context), Stop>
        requires group { group block.now.op ≡ group_of.Looks }
        requires people { ArePeopled project.now self.old.next_instance self.old.targets }
        requires live { IsLive here self.old.targets }
        ensures ok { IfOk result (λ r. RowGoes R.stream project.now block.now args.entry.now here thread context self.old r.1 self.new r.0) }
        ensures kept { IfOk result (λ r. LeavesTo project.now block.now.op here context self.old r.1 self.new r.0) }
        ensures stop { RowStops R.stream project.now block.now args.entry.now here thread context self.old result }
    {
        let mut kept = context;
        match looks_blocks::apply(
            alloc,
            block.op,
            args,
            here,
            thread,
            project.records(),
            &mut self.targets,
            &mut self.devices,
            &mut self.words,
            &self.threads,
            &mut kept,
        ) {
            Ok((control, redraw)) => {
                self.redraw = either(self.redraw, redraw);
                Ok((control, kept))
            }
            Err(stop) => Err(stop),
        }
    }

    // The row of a block of control.
    fn apply_control(
        &mut self,
        alloc: Global,
        project: &Project,
        block: &CachedBlock,
        args: &Args<'_>,
        here: InstanceId,
        thread: Serial,
        context: Context,
    ) -> Result<(Control, Context), Stop>
        requires { group block.now.op ≡ group_of.Control }
        ensures ok { IfOk result (λ r. RowGoes R.stream project.now block.now args.entry.now here thread context self.old r.1 self.new r.0) }
        ensures kept { IfOk result (λ r. LeavesTo project.now block.now.op here context self.old r.1 self.new r.0) }
        ensures stop { RowStops R.stream project.now block.now args.entry.now here thread context self.old result }
    {
        let mut kept = context;
        match control_blocks::apply(
            alloc,
            block,
            args,
            here,
            thread,
            project,
            &mut self.targets,
            &mut self.devices,
            &self.threads,
            &mut kept,
        ) {
            Ok((control, redraw)) => {
                self.redraw = either(self.redraw, redraw);
                Ok((control, kept))
            }
            Err(stop) => Err(stop),
        }
    }

    // The row of a block of an instance, by the crate of its group.
    pub(crate) fn apply(
        &mut self,
        alloc: Global,
        project: &Project,
        block: &CachedBlock,
        args: &Args<'_>,
        here: InstanceId,
        thread: Serial,
        context: Context,
    ) -> Result<(Control, Context), Stop>
        requires people { ArePeopled project.now self.old.next_instance self.old.targets }
        requires live { IsLive here self.old.targets }
        ensures ok { IfOk result (λ r. RowGoes R.stream project.now block.now args.entry.now here thread context self.old r.1 self.new r.0) }
        ensures kept { IfOk result (λ r. LeavesTo project.now block.now.op here context self.old r.1 self.new r.0) }
        ensures stop { RowStops R.stream project.now block.now args.entry.now here thread context self.old result }
    {
        match group(block.op) {
            Group::Motion => self.apply_motion(alloc, project, block, args, here, context),
            Group::Looks => self.apply_looks(alloc, project, block, args, here, thread, context),
            Group::Data => match self.apply_data(project, block, args, here) {
                Ok(()) => Ok((Control::Next, Context::Fresh)),
                Err(stop) => Err(stop),
            },
            Group::Control => {
                self.apply_control(alloc, project, block, args, here, thread, context)
            }
        }
    }
}
