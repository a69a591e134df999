//! Bubbles: say and think.

ghost use Rattle.std.specs.Prelude.{◌≡◌, codes, IfErr, IfOk};
ghost use Rattle.speech_bubbles.specs.Scenes.{scene_in};
ghost use Rattle.looks_blocks.specs.Stops.{IsOfCountersOrMemory};
ghost use Rattle.scratch_number.specs.Arithmetic.{add as sum};
ghost use Rattle.machine_spec.specs.Looks.{goes_on, shown_bubble, spoken, timed_bubble};
ghost use Rattle.machine_spec.specs.Outcome.{Goes, StopIs};
ghost use Rattle.machine_spec.specs.Parts.{bubble_updated};
ghost use Rattle.machine_spec.specs.Stores.{from_zero, seconds};
ghost use Rattle.machine_spec.specs.Texts as texts;
ghost use Rattle.machine_spec.specs.View.{number_at, value_at};
ghost use Rattle.machine_spec.specs.Words.{Words};
ghost use Rattle.machine_spec.specs.declared.threads.Context.TheVariants.{Spoken};
ghost use Rattle.machine_spec.specs.declared.threads.Control.TheVariants.{Promise};
ghost use Rattle.targets.specs.Live.{IsSameCast};
ghost use Rattle.looks_blocks.specs.Blocks.{leaves, parts};

use crate::bubble_texts::bubble_text;
use crate::instance::bubble_usage;
use block_arguments::{from_zero, given, number};
use devices::{BubbleTimer, Devices, seconds};
use machine_spec::{BubbleText, InstanceId, Say, Serial};
use scratch_number::{Num, add, of_whole};
use scratch_values::{Args, Value};
use script_words::Stop;
use speech_bubbles::update_bubble;
use std::alloc::{AllocError, Global};
use targets::Targets;

// What a bubble shows of the message. The only error is want of memory.
fn message(alloc: Global, args: &Args<'_>) -> Result<BubbleText, AllocError>
    ensures { IfOk result (λ t. t ≡ texts.bubble_text (value_at (codes "MESSAGE") args.entry.now)) }
{
    let zero = Value::Number(of_whole(0));
    bubble_text(alloc, given(args, "MESSAGE", &zero))
}

// Shows the message in a bubble.
#[tactic(auto, using(crate::proofs::Stopping::bubbles_stop))]
fn speak(
    alloc: Global,
    args: &Args<'_>,
    kind: Say,
    here: InstanceId,
    targets: &mut Targets,
    devices: &mut Devices,
) -> Result<(), Stop>
    ensures ok { IfOk result (λ _. bubble_updated here kind (texts.bubble_text (value_at (codes "MESSAGE") args.entry.now)) (scene_in targets.old devices.old) ≡ Goes (scene_in targets.new devices.new)) }
    ensures stop { StopIs result (bubble_updated here kind (texts.bubble_text (value_at (codes "MESSAGE") args.entry.now)) (scene_in targets.old devices.old)) }
    ensures kind { IfErr result IsOfCountersOrMemory }
    ensures cast { IsSameCast targets.old targets.new }
{
    let text = message(alloc, args)?;
    update_bubble(targets, devices, here, kind, text)
}

// `say MESSAGE` and `think MESSAGE`: tells whether a redraw is requested.
pub(crate) fn say(
    alloc: Global,
    args: &Args<'_>,
    kind: Say,
    here: InstanceId,
    targets: &mut Targets,
    devices: &mut Devices,
) -> Result<bool, Stop>
    ensures ok { IfOk result (λ redraw. (w : Words) → spoken kind args.entry.now here (parts targets.old devices.old w) (shown_bubble here) ≡ Goes (goes_on redraw (parts targets.new devices.new w))) }
    ensures stop { StopIs result (bubble_updated here kind (texts.bubble_text (value_at (codes "MESSAGE") args.entry.now)) (scene_in targets.old devices.old)) }
    ensures kind { IfErr result IsOfCountersOrMemory }
    ensures cast { IsSameCast targets.old targets.new }
{
    match speak(alloc, args, kind, here, targets, devices) {
        Ok(()) => Ok(targets.is_visible(here)),
        Err(stop) => Err(stop),
    }
}

// When so many seconds from now are over; never, where they are infinite.
fn due_in(secs: Num, devices: &Devices) -> Num
    ensures { result ≡ sum (seconds devices.now.clock) (from_zero secs) }
{
    add(seconds(devices.clock()), from_zero(secs))
}

// The timer of the bubble of an instance. The only error is want of memory.
fn time(
    secs: Num,
    here: InstanceId,
    thread: Serial,
    targets: &Targets,
    devices: &mut Devices,
) -> Result<bool, AllocError>
    ensures ok { IfOk result (λ redraw. (w : Words) → timed_bubble secs here thread (parts targets.now devices.old w) ≡ leaves (parts targets.now devices.new w) Spoken Promise redraw) }
{
    let timer = BubbleTimer {
        due: due_in(secs, devices),
        of: here,
        thread,
        usage: bubble_usage(here, targets),
    };
    devices.speak_until(timer)?;
    Ok(targets.is_visible(here))
}

// `say MESSAGE for SECS seconds` and `think MESSAGE for SECS seconds`: it waits for the end of the bubble's timer. Tells
// whether a redraw is requested.
pub(crate) fn say_for_secs(
    alloc: Global,
    args: &Args<'_>,
    kind: Say,
    here: InstanceId,
    thread: Serial,
    targets: &mut Targets,
    devices: &mut Devices,
) -> Result<bool, Stop>
    ensures ok { IfOk result (λ redraw. (w : Words) → spoken kind args.entry.now here (parts targets.old devices.old w) (timed_bubble (number_at (codes "SECS") args.entry.now) here thread) ≡ Goes (leaves (parts targets.new devices.new w) Spoken Promise redraw)) }
    ensures stop { StopIs result (bubble_updated here kind (texts.bubble_text (value_at (codes "MESSAGE") args.entry.now)) (scene_in targets.old devices.old)) }
    ensures kind { IfErr result IsOfCountersOrMemory }
    ensures cast { IsSameCast targets.old targets.new }
{
    match speak(alloc, args, kind, here, targets, devices) {
        Ok(()) => Ok(time(number(args, "SECS"), here, thread, targets, devices)?),
        Err(stop) => Err(stop),
    }
}
