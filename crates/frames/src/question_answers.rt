//! Answers to questions.

ghost use Rattle.std.specs.Prelude.{◌≡◌, IfOk};
ghost use Rattle.machine_spec.specs.Line as machine;
ghost use Rattle.machine_spec.specs.Outcome.{Goes, StopIs};
ghost use Rattle.executions.specs.Resting.{IsIdle};
ghost use Rattle.executions.specs.Seen.{seen};
ghost use Rattle.frames.specs.Questions.{question_ended};

use crate::resumption::resume;
use executions::State;
use machine_spec::Question;
use project_check::Project;
use scratch_values::BoundText;
use script_words::{Rng, Stop};
use speech_bubbles::first_taken;
use std::alloc::Global;

// What follows where a question was taken away: its bubble is emptied where it was shown as one, its thread goes on, and
// the next question is shown.
fn end_question<R: Rng + Drop>(
    state: &mut State<R>,
    alloc: Global,
    project: &Project,
    question: &Question,
) -> Result<(), Stop>
    requires { IsIdle project.now state.old }
    ensures ok { IfOk result (λ _. question_ended question.now (seen R.stream project.now state.old) ≡ Goes (seen R.stream project.now state.new)) }
    ensures stop { StopIs result (question_ended question.now (seen R.stream project.now state.old)) }
    ensures kept { IfOk result (λ _. IsIdle project.now state.new) }
{
    let targets = &mut state.targets;
    let devices = &mut state.devices;
    match first_taken(alloc, targets, devices, question.bubble, question.of) {
        Ok(()) => match resume(state, project, question.thread) {
            Ok(()) => Ok(()),
            Err(_) => Err(Stop::NoMemory),
        },
        Err(stop) => Err(stop),
    }
}

/// Answers the first question, where one is asked: its bubble is emptied where it was shown as one, its thread goes on, and
/// the next question is shown. The text is the last answer in any case (scratch-vm, blocks/scratch3_sensing.js, _onAnswer).
/// `Stop` is `Counter` of bubbles exactly where an update of a bubble has no number; the only other one is `NoMemory`. After
/// a stop nothing is told of the run.
pub fn answer<R: Rng + Drop>(
    state: &mut State<R>,
    alloc: Global,
    project: &Project,
    text: BoundText,
) -> Result<(), Stop>
    requires { IsIdle project.now state.old }
    ensures ok { IfOk result (λ _. machine.answered state.old.devices.questions (machine.with_answer text (seen R.stream project.now state.old)) ≡ Goes (seen R.stream project.now state.new)) }
    ensures stop { StopIs result (machine.answered state.old.devices.questions (machine.with_answer text (seen R.stream project.now state.old))) }
    ensures kept { IfOk result (λ _. IsIdle project.now state.new) }
{
    match state.devices.answer(text) {
        Some(question) => end_question(state, alloc, project, &question),
        None => Ok(()),
    }
}
