//! A block of control executed.

ghost use Rattle.std.specs.Prelude.{◌≡◌, true, false, IfOk, IfErr};
ghost use Rattle.opcode_table.specs.Kinds.{kind};
ghost use Rattle.project_check.specs.Loaded.{program_of};
ghost use Rattle.machine_spec.specs.ControlRows.{control_row};
ghost use Rattle.machine_spec.specs.Keeping.{control_fits};
ghost use Rattle.machine_spec.specs.Laws.{is_own};
ghost use Rattle.machine_spec.specs.Outcome.{Goes, StopIs};
ghost use Rattle.machine_spec.specs.declared.threads.Context.TheVariants.{Fresh};
ghost use Rattle.machine_spec.specs.declared.threads.Control.TheVariants.{Next};
ghost use Rattle.targets.specs.Live.{IsSameCast};
ghost use Rattle.thread_frames.specs.Threads.{listed};
ghost use Rattle.speech_bubbles.specs.Scenes.{scene_in};
ghost use Rattle.control_blocks.specs.Afresh.{acts_alone};
ghost use Rattle.block_arguments.specs.Afresh.{was_afresh};
ghost use Rattle.speech_bubbles.specs.Stops.{IsOfBubblesOrMemory};

use crate::{clones, loops, messages, procedures, questions, waits};
use cached_blocks::CachedBlock;
use devices::Devices;
use machine_spec::{Context, Control, InstanceId, Serial};
use opcode_table::Opcode;
use project_check::Project;
use scratch_values::Args;
use script_words::Stop;
use std::alloc::Global;
use targets::Targets;
use thread_frames::Threads;

// It goes on, and keeps nothing.
#[inline]
fn go_on(context: &mut Context) -> Control
    ensures control { result ≡ Next }
    ensures context { context.new ≡ Fresh }
{
    *context = Context::Fresh;
    Control::Next
}

/// Executes a block of control, of events or of procedures, or a command of sensing: the row of its opcode (scratch-vm,
/// blocks/scratch3_control.js, scratch3_event.js, scratch3_procedures.js, scratch3_sensing.js). It is executed by a thread of
/// an instance, and `context` is what the block keeps from one execution to the next. It gives what the thread does, and
/// whether a redraw is requested. A block of another group goes on and keeps nothing. `Stop` is `Counter` of bubbles exactly
/// where a question is shown as a bubble and 2^62 − 2 bubbles were updated; the only other one is `NoMemory`.
pub fn apply(
    alloc: Global,
    block: &CachedBlock,
    args: &Args<'_>,
    here: InstanceId,
    thread: Serial,
    project: &Project,
    targets: &mut Targets,
    devices: &mut Devices,
    threads: &Threads,
    context: &mut Context,
) -> Result<(Control, bool), Stop>
    ensures ok { IfOk result (λ r. control_row (program_of project.now) (listed threads.now) block.now.op block.now.code args.entry.now here thread context.old (scene_in targets.old devices.old) ≡ Goes (record { parts = scene_in targets.new devices.new; context = context.new; control = r.0; redraw = r.1 })) }
    ensures stop { StopIs result (control_row (program_of project.now) (listed threads.now) block.now.op block.now.code args.entry.now here thread context.old (scene_in targets.old devices.old)) }
    ensures kind { IfErr result IsOfBubblesOrMemory }
    ensures fits { IfOk result (λ r. control_fits r.0 (kind block.now.op) context.new ≡ true) }
    ensures own { IfOk result (λ r. is_own r.0 ≡ false → context.new ≡ Fresh) }
    ensures alone { IfOk result (λ r. acts_alone block.now.op ≡ true → is_own r.0 ≡ true) }
    ensures afresh { IfOk result (λ r. is_own r.0 ≡ false → was_afresh (kind block.now.op) context.old ≡ true) }
    ensures cast { IsSameCast targets.old targets.new }
{
    match block.op {
        Opcode::ControlForever => Ok((loops::forever(context), false)),
        Opcode::ControlRepeat => Ok((loops::repeat(args, context), false)),
        Opcode::ControlRepeatUntil => Ok((loops::repeat_until(args, context), false)),
        Opcode::ControlIf => Ok((loops::choose(args, context), false)),
        Opcode::ControlIfElse => Ok((loops::choose_either(args, context), false)),
        Opcode::ControlWait => Ok(waits::wait(alloc, args, devices, context)?),
        Opcode::ControlWaitUntil => Ok((waits::wait_until(args, context), false)),
        Opcode::ControlStop => Ok((clones::stop(args, context), false)),
        Opcode::ControlCreateCloneOf => {
            let control = clones::create_clone(alloc, args, here, project, targets, context)?;
            Ok((control, false))
        }
        Opcode::ControlDeleteThisClone => Ok((clones::delete_clone(context), false)),
        Opcode::EventBroadcast => Ok((messages::broadcast(alloc, args, context)?, false)),
        Opcode::EventBroadcastAndWait => {
            let control = messages::broadcast_and_wait(alloc, args, threads, context)?;
            Ok((control, false))
        }
        Opcode::ProceduresCall => {
            let code = block.code.as_str();
            let control = procedures::call(alloc, code, args, here, project, targets, context)?;
            Ok((control, false))
        }
        Opcode::SensingAskAndWait => {
            questions::ask(
                alloc, args, here, thread, project, targets, devices, context,
            )
        }
        Opcode::SensingResetTimer => Ok((waits::reset_timer(devices, context), false)),
        _ => Ok((go_on(context), false)),
    }
}
