//! Questions that are shown as bubbles.

ghost use Rattle.std.specs.Prelude.{◌≡◌, IfOk, OnOk, IfErr};
ghost use Rattle.machine_spec.specs.ControlRows.{question_shown};
ghost use Rattle.machine_spec.specs.Outcome.{Goes, StopIs};
ghost use Rattle.machine_spec.specs.Stopping.{first_taken, questions_dropped};
ghost use Rattle.targets.specs.Live.{IsSameCast};
ghost use Rattle.speech_bubbles.specs.Scenes.{first_shown, scene_in};
ghost use Rattle.speech_bubbles.specs.Stops.{IsOfBubblesOrMemory};

use crate::bubbles::{empty_bubble, update_bubble};
use devices::Devices;
use machine_spec::{BubbleText, InstanceId, Question, Say};
use script_words::Stop;
use std::alloc::{AllocError, Global};
use targets::Targets;

// Whose bubble a question is, and its text.
#[derive(Debug, Drop)]
struct Shown {
    of: InstanceId,
    text: BubbleText,
}

// The bubble of the first question, where it is shown as one. The only error is want of memory.
fn first_shown(alloc: Global, questions: &[Question]) -> Result<Option<Shown>, AllocError>
    ensures { IfOk result (λ shown. shown ≡ first_shown questions.now) }
{
    match questions {
        [] => Ok(None),
        [first, ..] => {
            if !first.bubble {
                return Ok(None);
            }
            let text = BubbleText::cut(alloc, first.text.as_str())?;
            Ok(Some(Shown { of: first.of, text }))
        }
    }
}

/// Shows the first question, where there is one: as a bubble of its instance, if it says so. `Stop` is `Counter` of bubbles
/// exactly where this update has no number; the only other one is `NoMemory`.
pub fn show_first_question(
    alloc: Global,
    targets: &mut Targets,
    devices: &mut Devices,
) -> Result<(), Stop>
    ensures ok { OnOk result (question_shown devices.old.questions (scene_in targets.old devices.old) ≡ Goes (scene_in targets.new devices.new)) }
    ensures stop { StopIs result (question_shown devices.old.questions (scene_in targets.old devices.old)) }
    ensures kind { IfErr result IsOfBubblesOrMemory }
    ensures cast { IsSameCast targets.old targets.new }
{
    match first_shown(alloc, devices.questions().as_slice())? {
        Some(shown) => update_bubble(targets, devices, shown.of, Say::Say, shown.text),
        None => Ok(()),
    }
}

/// What follows where the first question was taken away: the bubble of its instance is emptied or not, and the question
/// that is now the first is shown. `Stop` is `Counter` of bubbles exactly where one of these updates has no number; the only
/// other one is `NoMemory`.
pub fn first_taken(
    alloc: Global,
    targets: &mut Targets,
    devices: &mut Devices,
    emptied: bool,
    of: InstanceId,
) -> Result<(), Stop>
    ensures ok { OnOk result (first_taken emptied of (scene_in targets.old devices.old) ≡ Goes (scene_in targets.new devices.new)) }
    ensures stop { StopIs result (first_taken emptied of (scene_in targets.old devices.old)) }
    ensures kind { IfErr result IsOfBubblesOrMemory }
    ensures cast { IsSameCast targets.old targets.new }
{
    if emptied {
        match empty_bubble(alloc, targets, devices, of) {
            Ok(()) => {}
            Err(stop) => return Err(stop),
        }
    }
    show_first_question(alloc, targets, devices)
}

/// Drops the questions of an instance. Where the first was among them, its bubble is emptied and the question that is now
/// the first is shown. `Stop` is `Counter` of bubbles exactly where one of these updates has no number; the only other one is
/// `NoMemory`.
pub fn drop_questions(
    alloc: Global,
    targets: &mut Targets,
    devices: &mut Devices,
    of: InstanceId,
) -> Result<(), Stop>
    ensures ok { OnOk result (questions_dropped of (scene_in targets.old devices.old) ≡ Goes (scene_in targets.new devices.new)) }
    ensures stop { StopIs result (questions_dropped of (scene_in targets.old devices.old)) }
    ensures kind { IfErr result IsOfBubblesOrMemory }
    ensures cast { IsSameCast targets.old targets.new }
{
    if devices.drop_questions(of) {
        first_taken(alloc, targets, devices, true, of)
    } else {
        Ok(())
    }
}
