//! Glides: first a glide keeps the clock and both ends, later it is where the clock says.

ghost use Rattle.std.specs.Prelude.{◌≡◌, true, if◌then◌else◌, option_map, IfOk, IfErr};
ghost use Rattle.opcode_table.specs.declared.kinds.Kind.TheVariants.{Glides};
ghost use Rattle.opcode_table.specs.declared.opcode.Opcode.TheVariants as opcode;
ghost use Rattle.scratch_number.specs.Arithmetic.{add as sum, div as quotient, mul as product, sub as difference};
ghost use Rattle.scratch_values.specs.Casts.{zero_number};
ghost use Rattle.machine_spec.specs.Keeping.{control_fits};
ghost use Rattle.machine_spec.specs.Laws.{is_own};
ghost use Rattle.machine_spec.specs.Motion as machine;
ghost use Rattle.machine_spec.specs.Motion.{sprite_row};
ghost use Rattle.machine_spec.specs.Outcome.{Goes, StopIs, then_do};
ghost use Rattle.machine_spec.specs.Program.{Records as SeenRecords};
ghost use Rattle.machine_spec.specs.Stores.{elapsed, instance_at, less, on_instance};
ghost use Rattle.machine_spec.specs.Words.{Words, seen_words};
ghost use Rattle.machine_spec.specs.declared.threads.Context.TheVariants.{Fresh, Glide};
ghost use Rattle.machine_spec.specs.declared.threads.Control.TheVariants.{Next, Yield};
ghost use Rattle.target_records.specs.Records.{records_in};
ghost use Rattle.targets.specs.Live.{IsSameCast};
ghost use Rattle.motion_blocks.specs.Blocks.{leaves, parts_of};
ghost use Rattle.motion_blocks.specs.Points.{point};
ghost use Rattle.block_arguments.specs.Stops.{IsOfWordsOrMemory};

use crate::instance::{Point, stance_of};
use crate::places::point_named;
use block_arguments::{given, number};
use devices::Devices;
use machine_spec::{Boxed, Context, Control, GlideState, InstanceId};
use operators::Written;
use scratch_number::{Num, add, div, is_less, mul, of_whole, sub};
use scratch_values::{Args, Value};
use script_words::{Counted, Rng, Stop};
use std::alloc::{AllocError, Global};
use target_records::Records;
use targets::Targets;

// So much of the way from one number to another.
fn part_way(part: Num, from: Num, to: Num) -> Num
    ensures { result ≡ sum from (product part (difference to from)) }
{
    let start = from;
    add(from, mul(part, sub(to, start)))
}

// Where a glide is after so many seconds.
fn place_after(seconds: Num, state: &GlideState) -> Point
    ensures { point result ≡ machine.part_way (quotient seconds state.now.duration) (machine.from_point state.now) (machine.to_point state.now) }
{
    let part = div(seconds, state.duration);
    let same = part;
    Point {
        x: part_way(part, state.x0, state.x1),
        y: part_way(same, state.y0, state.y1),
    }
}

// What a glide keeps that begins at an instance.
fn state_from(
    devices: &Devices,
    seconds: Num,
    end: Point,
    here: InstanceId,
    targets: &Targets,
) -> GlideState
    ensures { result ≡ machine.glide_from devices.now seconds (instance_at here targets.now) (point end) }
{
    let own = stance_of(targets, here);
    GlideState {
        start: devices.clock(),
        duration: seconds,
        x0: own.x,
        y0: own.y,
        x1: end.x,
        y1: end.y,
    }
}

// Whether less time has gone by than a glide lasts.
fn lasts(devices: &Devices, state: &GlideState) -> bool
    ensures { result ≡ less (elapsed state.now.start devices.now) state.now.duration }
{
    is_less(devices.elapsed(state.start), state.duration)
}

// Moves an instance that glides to where the clock says, and tells whether a redraw is requested.
fn glide_on(devices: &Devices, state: &GlideState, here: InstanceId, targets: &mut Targets) -> bool
    ensures new { let k = state.now in targets.new ≡ on_instance here (machine.at_point (machine.part_way (quotient (elapsed k.start devices.now) k.duration) (machine.from_point k) (machine.to_point k))) targets.old }
    ensures redraw { result ≡ (instance_at here targets.old).visible }
    ensures cast { IsSameCast targets.old targets.new }
{
    let place = place_after(devices.elapsed(state.start), state);
    targets.set_xy(here, place.x, place.y)
}

// The end of a glide.
fn end_of(state: &GlideState) -> Point
    ensures { point result ≡ machine.to_point state.now }
{
    Point {
        x: state.x1,
        y: state.y1,
    }
}

// Moves an instance to the end of a glide, which keeps nothing and goes on.
fn arrive(
    end: Point,
    here: InstanceId,
    targets: &mut Targets,
    context: &mut Context,
) -> (Control, bool)
    ensures row { (w : Words) → machine.moved Next Fresh (machine.at_point (point end)) here (record { targets = targets.old; words = w }) ≡ leaves targets.new w context.new result.0 result.1 }
    ensures control { result.0 ≡ Next }
    ensures cast { IsSameCast targets.old targets.new }
{
    *context = Context::Fresh;
    (Control::Next, targets.set_xy(here, end.x, end.y))
}

// Begins a glide. One that lasts no time is over at once. The only error is want of memory.
fn begin(
    alloc: Global,
    devices: &Devices,
    seconds: Num,
    end: Point,
    here: InstanceId,
    targets: &mut Targets,
    context: &mut Context,
) -> Result<(Control, bool), AllocError>
    ensures ok { IfOk result (λ r. (w : Words) → (if less zero_number seconds then machine.unmoved Yield (Glide (machine.glide_from devices.now seconds (instance_at here targets.old) (point end))) (record { targets = targets.old; words = w }) else machine.moved Next Fresh (machine.at_point (point end)) here (record { targets = targets.old; words = w })) ≡ leaves targets.new w context.new r.0 r.1) }
    ensures fits { IfOk result (λ r. control_fits r.0 Glides context.new ≡ true) }
    ensures own { IfOk result (λ r. is_own r.0 ≡ true) }
    ensures cast { IsSameCast targets.old targets.new }
{
    let duration = seconds;
    if is_less(of_whole(0), seconds) {
        let state = state_from(devices, duration, end, here, targets);
        *context = Context::Glide(Boxed::new(alloc, state)?);
        return Ok((Control::Yield, false));
    }
    Ok(arrive(end, here, targets, context))
}

// A glide to a place; the end that was kept counts. The only error is want of memory.
fn glide(
    alloc: Global,
    devices: &Devices,
    seconds: Num,
    end: Point,
    here: InstanceId,
    targets: &mut Targets,
    context: &mut Context,
) -> Result<(Control, bool), AllocError>
    ensures ok { IfOk result (λ r. (w : Words) → machine.glide devices.now seconds (point end) context.old here (record { targets = targets.old; words = w }) ≡ leaves targets.new w context.new r.0 r.1) }
    ensures fits { IfOk result (λ r. control_fits r.0 Glides context.new ≡ true) }
    ensures own { IfOk result (λ r. is_own r.0 ≡ true) }
    ensures cast { IsSameCast targets.old targets.new }
{
    match context {
        Context::Glide(state) => {
            if lasts(devices, state.get()) {
                let redraw = glide_on(devices, state.get(), here, targets);
                return Ok((Control::Yield, redraw));
            }
            let end = end_of(state.get());
            Ok(arrive(end, here, targets, context))
        }
        _ => begin(alloc, devices, seconds, end, here, targets, context),
    }
}

// A glide to a place, if there is one; without one it goes on. The only error is want of memory.
fn glide_to_place(
    alloc: Global,
    devices: &Devices,
    seconds: Num,
    end: Option<Point>,
    here: InstanceId,
    targets: &mut Targets,
    context: &mut Context,
) -> Result<(Control, bool), AllocError>
    ensures ok { IfOk result (λ r. (w : Words) → machine.glide_to devices.now seconds (option_map point end) context.old here (record { targets = targets.old; words = w }) ≡ leaves targets.new w context.new r.0 r.1) }
    ensures fits { IfOk result (λ r. control_fits r.0 Glides context.new ≡ true) }
    ensures own { IfOk result (λ r. is_own r.0 ≡ true) }
    ensures cast { IsSameCast targets.old targets.new }
{
    match end {
        Some(end) => glide(alloc, devices, seconds, end, here, targets, context),
        None => {
            *context = Context::Fresh;
            Ok((Control::Next, false))
        }
    }
}

// `glide SECS secs to x: X y: Y`. The only error is want of memory.
pub(crate) fn glide_to_xy(
    alloc: Global,
    args: &Args<'_>,
    here: InstanceId,
    targets: &mut Targets,
    devices: &Devices,
    context: &mut Context,
) -> Result<(Control, bool), AllocError>
    ensures ok { IfOk result (λ r. (records : SeenRecords) (w : Words) → sprite_row records devices.now opcode.MotionGlideSecsToXY args.entry.now here context.old (record { targets = targets.old; words = w }) ≡ Goes (leaves targets.new w context.new r.0 r.1)) }
    ensures fits { IfOk result (λ r. control_fits r.0 Glides context.new ≡ true) }
    ensures own { IfOk result (λ r. is_own r.0 ≡ true) }
    ensures cast { IsSameCast targets.old targets.new }
{
    let end = Point {
        x: number(args, "X"),
        y: number(args, "Y"),
    };
    glide(
        alloc,
        devices,
        number(args, "SECS"),
        end,
        here,
        targets,
        context,
    )
}

// A glide to the place of a name.
fn glide_to_named<R: Rng + Drop>(
    alloc: Global,
    name: &str,
    seconds: Num,
    here: InstanceId,
    records: &Records,
    targets: &mut Targets,
    devices: &Devices,
    words: &mut Counted<R>,
    context: &mut Context,
) -> Result<(Control, bool), Stop>
    ensures ok { IfOk result (λ r. then_do (machine.point_named name.now (records_in records.now) devices.now (parts_of R.stream targets.old words.old)) (λ q. Goes (machine.glide_to devices.now seconds q.value context.old here (record { targets = targets.old; words = q.words }))) ≡ Goes (leaves targets.new (seen_words R.stream words.new) context.new r.0 r.1)) }
    ensures stop { StopIs result (machine.point_named name.now (records_in records.now) devices.now (parts_of R.stream targets.old words.old)) }
    ensures kind { IfErr result IsOfWordsOrMemory }
    ensures fits { IfOk result (λ r. control_fits r.0 Glides context.new ≡ true) }
    ensures own { IfOk result (λ r. is_own r.0 ≡ true) }
    ensures cast { IsSameCast targets.old targets.new }
{
    match point_named(name, records, targets, devices, words) {
        Ok(end) => Ok(glide_to_place(alloc, devices, seconds, end, here, targets, context)?),
        Err(stop) => Err(stop),
    }
}

// `glide SECS secs to TO`. A random place takes two words, also where the glide has begun.
pub(crate) fn glide_to<R: Rng + Drop>(
    alloc: Global,
    args: &Args<'_>,
    here: InstanceId,
    records: &Records,
    targets: &mut Targets,
    devices: &Devices,
    words: &mut Counted<R>,
    context: &mut Context,
) -> Result<(Control, bool), Stop>
    ensures ok { IfOk result (λ r. sprite_row (records_in records.now) devices.now opcode.MotionGlideTo args.entry.now here context.old (parts_of R.stream targets.old words.old) ≡ Goes (leaves targets.new (seen_words R.stream words.new) context.new r.0 r.1)) }
    ensures stop { StopIs result (sprite_row (records_in records.now) devices.now opcode.MotionGlideTo args.entry.now here context.old (parts_of R.stream targets.old words.old)) }
    ensures kind { IfErr result IsOfWordsOrMemory }
    ensures fits { IfOk result (λ r. control_fits r.0 Glides context.new ≡ true) }
    ensures own { IfOk result (λ r. is_own r.0 ≡ true) }
    ensures cast { IsSameCast targets.old targets.new }
{
    let zero = Value::Number(of_whole(0));
    let name = Written::of(given(args, "TO", &zero));
    let seconds = number(args, "SECS");
    glide_to_named(
        alloc,
        name.as_str(),
        seconds,
        here,
        records,
        targets,
        devices,
        words,
        context,
    )
}
