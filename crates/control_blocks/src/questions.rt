//! Questions.

ghost use Rattle.std.specs.Prelude.{◌≡◌, ◌&&◌, codes, not, IfErr, IfOk};
ghost use Rattle.project_check.specs.Loaded.{program_of};
ghost use Rattle.machine_spec.specs.ControlRows.{ask_row, question};
ghost use Rattle.machine_spec.specs.Outcome.{Goes, StopIs};
ghost use Rattle.machine_spec.specs.Stores.{instance_at, is_on_stage};
ghost use Rattle.machine_spec.specs.declared.threads.Control.TheVariants.{Promise};
ghost use Rattle.machine_spec.specs.declared.threads.Context.TheVariants.{Asked};
ghost use Rattle.machine_spec.specs.View.{text_at};
ghost use Rattle.targets.specs.Live.{IsSameCast};
ghost use Rattle.speech_bubbles.specs.Scenes.{scene_in};
ghost use Rattle.speech_bubbles.specs.Stops.{IsOfBubblesOrMemory};

use block_arguments::text;
use devices::{Devices, Question};
use machine_spec::{Context, Control, InstanceId, Serial};
use project_check::Project;
use scratch_values::Args;
use script_words::Stop;
use speech_bubbles::show_first_question;
use std::alloc::{AllocError, Global};
use targets::Targets;

// Whether a question of an instance is shown as a bubble: the instance is visible and not the stage.
fn has_bubble(project: &Project, targets: &Targets, here: InstanceId) -> bool
    ensures { result ≡ ((instance_at here targets.now).visible && not (is_on_stage (instance_at here targets.now) (program_of project.now).records)) }
{
    match targets.get(here) {
        Some(instance) => instance.visible && !targets.is_on_stage(project.records(), here),
        None => false,
    }
}

// The question of a block. The only error is want of memory.
fn question(
    alloc: Global,
    args: &Args<'_>,
    here: InstanceId,
    thread: Serial,
    project: &Project,
    targets: &Targets,
    devices: &Devices,
) -> Result<Question, AllocError>
    ensures { IfOk result (λ q. q ≡ question (program_of project.now) here thread (text_at (codes "QUESTION") args.entry.now) (scene_in targets.now devices.now)) }
{
    let text = text(alloc, args, "QUESTION")?;
    Ok(Question {
        of: here,
        thread,
        text,
        bubble: has_bubble(project, targets, here),
    })
}

// A question is asked behind the others; where it is the first it is shown.
fn asked(
    alloc: Global,
    question: Question,
    targets: &mut Targets,
    devices: &mut Devices,
) -> Result<(Control, bool), Stop>
    ensures ok { IfOk result (λ r. ask_row question devices.old.questions (scene_in targets.old devices.old) ≡ Goes (record { parts = scene_in targets.new devices.new; context = Asked; control = r.0; redraw = r.1 })) }
    ensures stop { StopIs result (ask_row question devices.old.questions (scene_in targets.old devices.old)) }
    ensures kind { IfErr result IsOfBubblesOrMemory }
    ensures promise { IfOk result (λ r. r.0 ≡ Promise) }
    ensures cast { IsSameCast targets.old targets.new }
{
    let bubble = question.bubble;
    let first = devices.ask(question)?;
    if first {
        match show_first_question(alloc, targets, devices) {
            Ok(()) => Ok((Control::Promise, bubble)),
            Err(stop) => Err(stop),
        }
    } else {
        Ok((Control::Promise, false))
    }
}

// `ask QUESTION and wait`: the question stands behind the others; where it is the first it is shown. `Stop` is `Counter` of
// bubbles exactly where the update of the bubble has no number; the only other one is `NoMemory`.
pub(crate) fn ask(
    alloc: Global,
    args: &Args<'_>,
    here: InstanceId,
    thread: Serial,
    project: &Project,
    targets: &mut Targets,
    devices: &mut Devices,
    context: &mut Context,
) -> Result<(Control, bool), Stop>
    ensures ok { IfOk result (λ r. ask_row (question (program_of project.now) here thread (text_at (codes "QUESTION") args.entry.now) (scene_in targets.old devices.old)) devices.old.questions (scene_in targets.old devices.old) ≡ Goes (record { parts = scene_in targets.new devices.new; context = context.new; control = r.0; redraw = r.1 })) }
    ensures stop { StopIs result (ask_row (question (program_of project.now) here thread (text_at (codes "QUESTION") args.entry.now) (scene_in targets.old devices.old)) devices.old.questions (scene_in targets.old devices.old)) }
    ensures kind { IfErr result IsOfBubblesOrMemory }
    ensures promise { IfOk result (λ r. r.0 ≡ Promise) }
    ensures context { context.new ≡ Asked }
    ensures cast { IsSameCast targets.old targets.new }
{
    *context = Context::Asked;
    let question = question(alloc, args, here, thread, project, targets, devices)?;
    asked(alloc, question, targets, devices)
}
