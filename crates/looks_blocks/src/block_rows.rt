//! A block of looks executed.

ghost use Rattle.std.specs.Prelude.{◌≡◌, ℕ, false, true, IfErr, IfOk};
ghost use Rattle.opcode_table.specs.Kinds.{kind};
ghost use Rattle.machine_spec.specs.Keeping.{control_fits};
ghost use Rattle.machine_spec.specs.Laws.{is_own};
ghost use Rattle.machine_spec.specs.Looks.{looks_row};
ghost use Rattle.machine_spec.specs.Outcome.{Goes, StopIs};
ghost use Rattle.machine_spec.specs.Program.{stage_number};
ghost use Rattle.machine_spec.specs.Stores.{instance_at};
ghost use Rattle.machine_spec.specs.declared.threads.Context.TheVariants.{Fresh, Spoken};
ghost use Rattle.machine_spec.specs.declared.threads.Control.TheVariants.{Next, Promise};
ghost use Rattle.target_records.specs.Records.{records_in};
ghost use Rattle.targets.specs.Live.{IsLive, target_of, HasOneEach};
ghost use Rattle.thread_frames.specs.Threads.{listed};
ghost use Rattle.block_arguments.specs.Afresh.{was_afresh};
ghost use Rattle.looks_blocks.specs.Blocks.{parts_of};
ghost use Rattle.looks_blocks.specs.Controls.{is_own_or_start};
ghost use Rattle.looks_blocks.specs.Costumes.{HasCostumes};
ghost use Rattle.looks_blocks.specs.Stops.{IsOfCountersOrMemory};

use crate::{backdrops, bubbles, costumes, effects, layers, sizes};
use devices::Devices;
use machine_spec::{Context, Control, InstanceId, Say, Serial};
use opcode_table::Opcode;
use scratch_values::Args;
use script_words::{Counted, Rng, Stop};
use std::alloc::Global;
use target_records::Records;
use targets::Targets;
use thread_frames::Threads;

// It goes on, and keeps nothing.
#[inline]
fn go_on(redraw: bool, context: &mut Context) -> (Control, bool)
    ensures control { result.0 ≡ Next }
    ensures redraw { result.1 ≡ redraw }
    ensures context { context.new ≡ Fresh }
{
    *context = Context::Fresh;
    (Control::Next, redraw)
}

// It waits for the end of its bubble.
#[inline]
fn wait(redraw: bool, context: &mut Context) -> (Control, bool)
    ensures control { result.0 ≡ Promise }
    ensures redraw { result.1 ≡ redraw }
    ensures context { context.new ≡ Spoken }
{
    *context = Context::Spoken;
    (Control::Promise, redraw)
}

// It starts hats with a redraw, and keeps nothing.
#[inline]
fn start(control: Control, context: &mut Context) -> (Control, bool)
    ensures control { result.0 ≡ control }
    ensures redraw { result.1 ≡ true }
    ensures context { context.new ≡ Fresh }
{
    *context = Context::Fresh;
    (control, true)
}

/// Executes a block of looks or a command of sound: the row of its opcode (scratch-vm, blocks/scratch3_looks.js,
/// scratch3_sound.js). A live instance executes it in a thread, and `context` is what the block keeps from one execution to
/// the next. Each number is that of one instance at most. The target of that instance and that of the stage have costumes,
/// fewer than 2^32. It gives what the thread does, which is a control of its own thread or starts hats, and whether a redraw
/// is requested. The same instances stay live, each of its target, also where it stops. A block of another group changes
/// nothing, goes on and keeps nothing. `Stop` is `Counter` of bubbles exactly where a bubble is updated and 2^62 − 2 were,
/// `Counter` of the words exactly where a random backdrop needs a word and none of 2^62 − 1 is left; the only other one is
/// `NoMemory`.
pub fn apply<R: Rng + Drop>(
    alloc: Global,
    op: Opcode,
    args: &Args<'_>,
    here: InstanceId,
    thread: Serial,
    records: &Records,
    targets: &mut Targets,
    devices: &mut Devices,
    words: &mut Counted<R>,
    threads: &Threads,
    context: &mut Context,
) -> Result<(Control, bool), Stop>
    requires live { IsLive here targets.old }
    requires one_each { HasOneEach targets.old }
    requires costumes { HasCostumes (records_in records.now) (instance_at here targets.old) }
    requires backdrops { HasCostumes (records_in records.now) (instance_at (stage_number (records_in records.now)) targets.old) }
    ensures ok { IfOk result (λ r. looks_row (records_in records.now) (listed threads.now) op args.entry.now here thread context.old (parts_of R.stream targets.old devices.old words.old) ≡ Goes (record { parts = parts_of R.stream targets.new devices.new words.new; context = context.new; control = r.0; redraw = r.1 })) }
    ensures stop { StopIs result (looks_row (records_in records.now) (listed threads.now) op args.entry.now here thread context.old (parts_of R.stream targets.old devices.old words.old)) }
    ensures kind { IfErr result IsOfCountersOrMemory }
    ensures fits { IfOk result (λ r. control_fits r.0 (kind op) context.new ≡ true) }
    ensures own { IfOk result (λ r. is_own r.0 ≡ false → context.new ≡ Fresh) }
    ensures afresh { IfOk result (λ r. is_own r.0 ≡ false → was_afresh (kind op) context.old ≡ true) }
    ensures starts { IfOk result (λ r. is_own_or_start r.0 ≡ true) }
    ensures targets { (n : ℕ) → target_of n targets.new ≡ target_of n targets.old }
    ensures one_each { HasOneEach targets.new }
{
    match op {
        Opcode::LooksSay => {
            let redraw = bubbles::say(alloc, args, Say::Say, here, targets, devices)?;
            Ok(go_on(redraw, context))
        }
        Opcode::LooksThink => {
            let redraw = bubbles::say(alloc, args, Say::Think, here, targets, devices)?;
            Ok(go_on(redraw, context))
        }
        Opcode::LooksSayForSecs => {
            let said = bubbles::say_for_secs(
                alloc,
                args,
                Say::Say,
                here,
                thread,
                targets,
                devices,
            )?;
            Ok(wait(said, context))
        }
        Opcode::LooksThinkForSecs => {
            let said = bubbles::say_for_secs(
                alloc,
                args,
                Say::Think,
                here,
                thread,
                targets,
                devices,
            )?;
            Ok(wait(said, context))
        }
        Opcode::LooksSwitchCostumeTo => {
            let redraw = costumes::switch_costume(args, here, records, targets, words)?;
            Ok(go_on(redraw, context))
        }
        Opcode::LooksNextCostume => {
            Ok(go_on(costumes::next_costume(here, records, targets), context))
        }
        Opcode::LooksSwitchBackdropTo => {
            let control = backdrops::switch_backdrop(alloc, args, false, records, targets, words)?;
            Ok(start(control, context))
        }
        Opcode::LooksSwitchBackdropToAndWait => backdrops::switch_and_wait(
            alloc, args, records, targets, words, threads, context,
        ),
        Opcode::LooksNextBackdrop => {
            let control = backdrops::next_backdrop(alloc, records, targets)?;
            Ok(start(control, context))
        }
        Opcode::LooksChangeSizeBy => {
            Ok(go_on(sizes::change_size(args, here, records, targets), context))
        }
        Opcode::LooksSetSizeTo => {
            Ok(go_on(sizes::set_size(args, here, records, targets), context))
        }
        Opcode::LooksChangeEffectBy => {
            let redraw = effects::change_effect(alloc, args, here, targets)?;
            Ok(go_on(redraw, context))
        }
        Opcode::LooksSetEffectTo => {
            let redraw = effects::set_effect(alloc, args, here, targets)?;
            Ok(go_on(redraw, context))
        }
        Opcode::LooksClearGraphicEffects => Ok(go_on(targets.clear_effects(here), context)),
        Opcode::LooksShow => Ok(go_on(sizes::set_visible(true, here, records, targets), context)),
        Opcode::LooksHide => Ok(go_on(sizes::set_visible(false, here, records, targets), context)),
        Opcode::LooksGoToFrontBack => {
            Ok(go_on(
                layers::go_to_front_or_back(args, here, records, targets),
                context,
            ))
        }
        Opcode::LooksGoForwardBackwardLayers => {
            Ok(go_on(layers::go_layers(args, here, records, targets), context))
        }
        _ => Ok(go_on(false, context)),
    }
}
