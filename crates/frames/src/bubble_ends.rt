//! Bubbles whose time has passed.

ghost use Rattle.std.specs.Prelude.{◌≡◌, length, OnOk, IfOk};
ghost use Rattle.machine_spec.specs.Frame as machine;
ghost use Rattle.machine_spec.specs.Outcome.{Outcome, Goes, StopIs};
ghost use Rattle.machine_spec.specs.Slice.{go_on};
ghost use Rattle.machine_spec.specs.Stores.{live};
ghost use Rattle.machine_spec.specs.Tasks.{Task};
ghost use Rattle.machine_spec.specs.World.{World};
ghost use Rattle.speech_bubbles.specs.Scenes.{scene_in};
ghost use Rattle.targets.specs.Live.{IsSameCast};
ghost use Rattle.executions.specs.Resting.{IsIdle};
ghost use Rattle.executions.specs.Seen.{seen};
ghost use Rattle.frames.specs.Timers.{emptied_or_not, next_end};

use crate::resumption::resume;
use devices::Devices;
use executions::State;
use machine_spec::BubbleTimer;
use project_check::Project;
use script_words::{Rng, Stop};
use speech_bubbles::empty_bubble;
use std::alloc::Global;
use targets::Targets;

// Whether the bubble of an instance is still the one that the timer is for.
fn still_fits(targets: &Targets, timer: &BubbleTimer) -> bool
    ensures { result ≡ machine.still_fits timer.now (live timer.now.of targets.now) }
{
    match targets.get(timer.of) {
        Some(instance) => instance.bubble.usage == timer.usage,
        None => false,
    }
}

// Empties the bubble that a timer is for, where it is still there.
fn end_bubble(
    alloc: Global,
    targets: &mut Targets,
    devices: &mut Devices,
    timer: &BubbleTimer,
) -> Result<(), Stop>
    ensures ok { OnOk result (emptied_or_not timer.now (scene_in targets.old devices.old) ≡ Goes (scene_in targets.new devices.new)) }
    ensures stop { StopIs result (emptied_or_not timer.now (scene_in targets.old devices.old)) }
    ensures cast { OnOk result (IsSameCast targets.old targets.new) }
{
    if still_fits(targets, timer) {
        empty_bubble(alloc, targets, devices, timer.of)
    } else {
        Ok(())
    }
}

// What follows where a timer was taken away: its bubble is emptied where it is still there, and its thread goes on.
fn end_timer<R: Rng + Drop>(
    state: &mut State<R>,
    alloc: Global,
    project: &Project,
    timer: &BubbleTimer,
) -> Result<(), Stop>
    requires { IsIdle project.now state.old }
    ensures ok { IfOk result (λ _. machine.timer_ended timer.now (seen R.stream project.now state.old) ≡ Goes (seen R.stream project.now state.new)) }
    ensures stop { StopIs result (machine.timer_ended timer.now (seen R.stream project.now state.old)) }
    ensures kept { IfOk result (λ _. IsIdle project.now state.new) }
{
    let targets = &mut state.targets;
    let devices = &mut state.devices;
    match end_bubble(alloc, targets, devices, timer) {
        Ok(()) => match resume(state, project, timer.thread) {
            Ok(()) => Ok(()),
            Err(_) => Err(Stop::NoMemory),
        },
        Err(stop) => Err(stop),
    }
}

// Ends the due timer with the least time; false where none is due.
fn end_next<R: Rng + Drop>(
    state: &mut State<R>,
    alloc: Global,
    project: &Project,
) -> Result<bool, Stop>
    requires { IsIdle project.now state.old }
    ensures ok { IfOk result (λ ended. (rest : World Task → Outcome (World Task)) → next_end (seen R.stream project.now state.old) rest ≡ go_on ended rest (λ w. Goes w) (seen R.stream project.now state.new)) }
    ensures stop { (rest : World Task → Outcome (World Task)) → StopIs result (next_end (seen R.stream project.now state.old) rest) }
    ensures kept { IfOk result (λ _. IsIdle project.now state.new) }
{
    match state.devices.take_due() {
        Some(timer) => match end_timer(state, alloc, project, &timer) {
            Ok(()) => Ok(true),
            Err(stop) => Err(stop),
        },
        None => Ok(false),
    }
}

/// Ends the bubble timers that are due, the least time first, the earliest made of equals: each empties its bubble where no
/// later update was made of it, and its thread goes on (scratch-vm, blocks/scratch3_looks.js, sayforsecs, whose timeouts
/// come with the clock; here they end at the start of a frame). `Stop` is `Counter` of bubbles exactly where an update of a
/// bubble has no number; the only other one is `NoMemory`. After a stop nothing is told of the run.
pub fn end_timers<R: Rng + Drop>(
    state: &mut State<R>,
    alloc: Global,
    project: &Project,
) -> Result<(), Stop>
    requires { IsIdle project.now state.old }
    ensures ok { IfOk result (λ _. machine.timers_ended (length state.old.devices.timers) (seen R.stream project.now state.old) ≡ Goes (seen R.stream project.now state.new)) }
    ensures stop { StopIs result (machine.timers_ended (length state.old.devices.timers) (seen R.stream project.now state.old)) }
    ensures kept { IfOk result (λ _. IsIdle project.now state.new) }
{
    let count = state.devices.timers().len();
    for ended in 0..count {
        match end_next(state, alloc, project) {
            Ok(true) => {}
            Ok(false) => return Ok(()),
            Err(stop) => return Err(stop),
        }
    }
    Ok(())
}
