//! Backdrops: the costumes of the stage, and the hats for them.

ghost use Rattle.std.specs.Prelude.{◌≡◌, ◌&&◌, codes, false, option_map, true, IfErr, IfOk};
ghost use Rattle.opcode_table.specs.declared.kinds.Kind.TheVariants.{Starts};
ghost use Rattle.machine_spec.specs.Looks as machine;
ghost use Rattle.machine_spec.specs.Looks.{backdrop_and_wait, backdrop_hats, backdrop_switched, changed, with_backdrop};
ghost use Rattle.machine_spec.specs.Outcome.{Goes, StopIs};
ghost use Rattle.machine_spec.specs.Program.{stage_number};
ghost use Rattle.machine_spec.specs.Sensing.{costume_name};
ghost use Rattle.machine_spec.specs.Stores.{Devices, instance_at};
ghost use Rattle.machine_spec.specs.View.{value_at};
ghost use Rattle.machine_spec.specs.Words.{Words, seen_words};
ghost use Rattle.machine_spec.specs.declared.threads.Context.TheVariants.{Fresh};
ghost use Rattle.machine_spec.specs.declared.threads.Control.TheVariants.{Start};
ghost use Rattle.machine_spec.specs.declared.threads.Filter.TheVariants.{Backdrop};
ghost use Rattle.target_records.specs.Records.{records_in};
ghost use Rattle.targets.specs.Live.{IsSameCast};
ghost use Rattle.thread_frames.specs.Threads.{listed};
ghost use Rattle.looks_blocks.specs.Blocks.{leaves, parts};
ghost use Rattle.looks_blocks.specs.Choices.{place_in};
ghost use Rattle.looks_blocks.specs.Costumes.{HasCostumes};
ghost use Rattle.looks_blocks.specs.Keeps.{KeepsWell};
ghost use Rattle.looks_blocks.specs.Stops.{IsOfCountersOrMemory};

use crate::costume_choice::Pick;
use crate::costumes::next_costume;
use crate::dress::{asked_for, present_name};
use block_arguments::given;
use machine_spec::{Boxed, Context, Control, Filter, InstanceId};
use project_json::Text;
use scratch_number::of_whole;
use scratch_values::{Args, Value};
use script_words::{Counted, Rng, Stop};
use std::alloc::{AllocError, Global};
use target_records::Records;
use targets::Targets;
use thread_frames::Threads;

// The original of the stage.
fn stage(records: &Records) -> InstanceId
    ensures { result ≡ stage_number (records_in records.now) }
{
    InstanceId(u64::from(records.stage().0))
}

// Puts the backdrop up that is picked, if one is.
fn put_up(pick: Option<Pick>, records: &Records, targets: &mut Targets)
    ensures new { (d : Devices) (w : Words) → with_backdrop (option_map place_in pick) (records_in records.now) (parts targets.old d w) ≡ parts targets.new d w }
    ensures cast { IsSameCast targets.old targets.new }
{
    match pick {
        Some(pick) => {
            targets.set_costume(stage(records), pick.index, pick.costumes);
        }
        None => {}
    }
}

// The hats for the present backdrop are started, and their threads are waited for or not. The only error is want of memory.
fn hats(
    alloc: Global,
    wait: bool,
    records: &Records,
    targets: &Targets,
) -> Result<Control, AllocError>
    ensures { IfOk result (λ r. r ≡ Start (Backdrop (costume_name (records_in records.now) (instance_at (stage_number (records_in records.now)) targets.now))) wait) }
{
    let name = present_name(stage(records), records, targets);
    let hats = Filter::Backdrop(Text::from_str(alloc, name)?);
    Ok(Control::Start {
        hats: Boxed::new(alloc, hats)?,
        wait,
    })
}

// The backdrop that the input asks for.
fn asked<R: Rng + Drop>(
    args: &Args<'_>,
    records: &Records,
    targets: &Targets,
    words: &mut Counted<R>,
) -> Result<Option<Pick>, Stop>
    requires { HasCostumes (records_in records.now) (instance_at (stage_number (records_in records.now)) targets.now) }
    ensures ok { IfOk result (λ pick. machine.switched_to true (value_at (codes "BACKDROP") args.entry.now) (records_in records.now) (instance_at (stage_number (records_in records.now)) targets.now) (seen_words R.stream words.old) ≡ Goes (record { value = option_map place_in pick; words = seen_words R.stream words.new })) }
    ensures stop { StopIs result (machine.switched_to true (value_at (codes "BACKDROP") args.entry.now) (records_in records.now) (instance_at (stage_number (records_in records.now)) targets.now) (seen_words R.stream words.old)) }
    ensures kind { IfErr result IsOfCountersOrMemory }
{
    let zero = Value::Number(of_whole(0));
    let value = given(args, "BACKDROP", &zero);
    asked_for(true, value, stage(records), records, targets, words)
}

// `switch backdrop to BACKDROP`, which waits for the threads that it starts or not. A redraw is always requested.
pub(crate) fn switch_backdrop<R: Rng + Drop>(
    alloc: Global,
    args: &Args<'_>,
    wait: bool,
    records: &Records,
    targets: &mut Targets,
    words: &mut Counted<R>,
) -> Result<Control, Stop>
    requires { HasCostumes (records_in records.now) (instance_at (stage_number (records_in records.now)) targets.old) }
    ensures ok { IfOk result (λ control. (d : Devices) → backdrop_switched wait (value_at (codes "BACKDROP") args.entry.now) (records_in records.now) (parts targets.old d (seen_words R.stream words.old)) ≡ Goes (leaves (parts targets.new d (seen_words R.stream words.new)) Fresh control true)) }
    ensures stop { StopIs result (machine.switched_to true (value_at (codes "BACKDROP") args.entry.now) (records_in records.now) (instance_at (stage_number (records_in records.now)) targets.old) (seen_words R.stream words.old)) }
    ensures kind { IfErr result IsOfCountersOrMemory }
    ensures control { IfOk result (λ control. control ≡ Start (Backdrop (costume_name (records_in records.now) (instance_at (stage_number (records_in records.now)) targets.new))) wait) }
    ensures cast { IsSameCast targets.old targets.new }
{
    match asked(args, records, targets, words) {
        Ok(pick) => {
            put_up(pick, records, targets);
            Ok(hats(alloc, wait, records, targets)?)
        }
        Err(stop) => Err(stop),
    }
}

// `next backdrop`. The only error is want of memory.
pub(crate) fn next_backdrop(
    alloc: Global,
    records: &Records,
    targets: &mut Targets,
) -> Result<Control, AllocError>
    requires { HasCostumes (records_in records.now) (instance_at (stage_number (records_in records.now)) targets.old) }
    ensures ok { IfOk result (λ control. (d : Devices) (w : Words) → backdrop_hats false (records_in records.now) (changed (machine.next_costume (records_in records.now)) (stage_number (records_in records.now)) (parts targets.old d w)) ≡ leaves (parts targets.new d w) Fresh control true) }
    ensures control { IfOk result (λ control. control ≡ Start (Backdrop (costume_name (records_in records.now) (instance_at (stage_number (records_in records.now)) targets.new))) false) }
    ensures cast { IsSameCast targets.old targets.new }
{
    next_costume(stage(records), records, targets);
    hats(alloc, false, records, targets)
}

// `switch backdrop to BACKDROP and wait`: first the backdrop is switched and the hats are started; then it goes on, yields or
// yields a tick by the threads that were started.
pub(crate) fn switch_and_wait<R: Rng + Drop>(
    alloc: Global,
    args: &Args<'_>,
    records: &Records,
    targets: &mut Targets,
    words: &mut Counted<R>,
    threads: &Threads,
    context: &mut Context,
) -> Result<(Control, bool), Stop>
    requires { HasCostumes (records_in records.now) (instance_at (stage_number (records_in records.now)) targets.old) }
    ensures ok { IfOk result (λ r. (d : Devices) → backdrop_and_wait context.old (value_at (codes "BACKDROP") args.entry.now) (records_in records.now) (listed threads.now) (parts targets.old d (seen_words R.stream words.old)) ≡ Goes (leaves (parts targets.new d (seen_words R.stream words.new)) context.new r.0 r.1)) }
    ensures stop { (d : Devices) → StopIs result (backdrop_and_wait context.old (value_at (codes "BACKDROP") args.entry.now) (records_in records.now) (listed threads.now) (parts targets.old d (seen_words R.stream words.old))) }
    ensures kind { IfErr result IsOfCountersOrMemory }
    ensures keeps { IfOk result (λ r. KeepsWell Starts context.old context.new r.0) }
    ensures cast { IsSameCast targets.old targets.new }
{
    match context {
        Context::Started(serials) => { Ok((threads.wait_for(serials.get().as_slice()), false)) }
        _ => {
            *context = Context::Fresh;
            match switch_backdrop(alloc, args, true, records, targets, words) {
                Ok(control) => Ok((control, true)),
                Err(stop) => Err(stop),
            }
        }
    }
}
