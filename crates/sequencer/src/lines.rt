//! What a line does.

ghost use Rattle.std.specs.Prelude.{◌≡◌, false, IfErr, IfOk};
ghost use Rattle.machine_spec.specs.Line as machine;
ghost use Rattle.machine_spec.specs.Outcome.{Goes, StopIs};
ghost use Rattle.project_check.specs.Loaded.{program_of};
ghost use Rattle.executions.specs.Resting.{IsIdle};
ghost use Rattle.executions.specs.Seen.{seen};
ghost use Rattle.sequencer.specs.Frames.{is_frame};
ghost use Rattle.sequencer.specs.Stops.{IsOfLinesOrMemory};

use crate::clicks::click;
use crate::flags::flag;
use crate::keys::press;
use executions::State;
use frames::answer;
use machine_spec::Line;
use project_check::Project;
use scratch_values::BoundText;
use script_words::{Rng, Stop};
use std::alloc::Global;

// Answers the first question with a text that stays with its line.
fn answer_with<R: Rng + Drop>(
    state: &mut State<R>,
    alloc: Global,
    project: &Project,
    text: &BoundText,
) -> Result<(), Stop>
    requires { IsIdle project.now state.old }
    ensures ok { IfOk result (λ _. machine.answered state.old.devices.questions (machine.with_answer text.now (seen R.stream project.now state.old)) ≡ Goes (seen R.stream project.now state.new)) }
    ensures stop { StopIs result (machine.answered state.old.devices.questions (machine.with_answer text.now (seen R.stream project.now state.old))) }
    ensures kept { IfOk result (λ _. IsIdle project.now state.new) }
{
    match text.clone() {
        Ok(text) => answer(state, alloc, project, text),
        Err(_) => Err(Stop::NoMemory),
    }
}

// What a line does that is no frame.
fn apply<R: Rng + Drop>(
    state: &mut State<R>,
    alloc: Global,
    project: &Project,
    line: &Line,
) -> Result<(), Stop>
    requires idle { IsIdle project.now state.old }
    requires no_frame { is_frame line.now ≡ false }
    ensures ok { IfOk result (λ _. machine.after (program_of project.now) line.now (seen R.stream project.now state.old) ≡ Goes (seen R.stream project.now state.new)) }
    ensures stop { StopIs result (machine.after (program_of project.now) line.now (seen R.stream project.now state.old)) }
    ensures kept { IfOk result (λ _. IsIdle project.now state.new) }
{
    match line {
        Line::Nothing => Ok(()),
        Line::Flag => flag(state, alloc, project),
        Line::Stop => {
            state.stop_all(project);
            Ok(())
        }
        Line::KeyDown(key) => press(state, alloc, project, *key),
        Line::KeyUp(key) => {
            state.devices.key_up(key);
            Ok(())
        }
        Line::Mouse { x, y } => {
            state.devices.set_mouse(*x, *y);
            Ok(())
        }
        Line::Button(down) => {
            state.devices.set_button(*down);
            Ok(())
        }
        Line::Click(place) => click(state, alloc, project, *place),
        Line::Answer(text) => answer_with(state, alloc, project, text),
        Line::Turbo(on) => {
            state.devices.set_turbo(*on);
            Ok(())
        }
        Line::Frame(_) => unreachable!(),
    }
}

/// Applies a line of an input script that is no frame. The green flag stops everything, sets the answer to the empty text,
/// resets the timer, forgets the values of edge hats, and starts the flag hats (scratch-vm, engine/runtime.js, greenFlag);
/// the stop sign stops everything (stopAll). A key that is pressed starts its hats, then those of any key, and then it is
/// held until it is let go (io/keyboard.js). A click starts the hats of the instance at a place of the executable order
/// (io/mouse.js); where there is none it does nothing. An answer goes to the first question. The others set the mouse, its
/// button and turbo mode. `Stop` is the first limit that is met: `Stack` where a thread is started while 65,536 levels are
/// open, `Counter` where a thread or an update of a bubble has no number; the only other one is `NoMemory`. After a stop
/// nothing is told of the run.
pub fn apply_line<R: Rng + Drop>(
    state: &mut State<R>,
    alloc: Global,
    project: &Project,
    line: &Line,
) -> Result<(), Stop>
    requires idle { IsIdle project.now state.old }
    requires no_frame { is_frame line.now ≡ false }
    ensures ok { IfOk result (λ _. machine.after (program_of project.now) line.now (seen R.stream project.now state.old) ≡ Goes (seen R.stream project.now state.new)) }
    ensures stop { StopIs result (machine.after (program_of project.now) line.now (seen R.stream project.now state.old)) }
    ensures kind { IfErr result IsOfLinesOrMemory }
    ensures kept { IfOk result (λ _. IsIdle project.now state.new) }
{
    apply(state, alloc, project, line)
}
