//! A block of motion executed.

ghost use Rattle.std.specs.Prelude.{◌≡◌, true, IfOk, IfErr};
ghost use Rattle.opcode_table.specs.Kinds.{kind};
ghost use Rattle.machine_spec.specs.Keeping.{control_fits};
ghost use Rattle.machine_spec.specs.Laws.{is_own};
ghost use Rattle.machine_spec.specs.Motion.{motion_row, sprite_row, stepped as machine_stepped};
ghost use Rattle.machine_spec.specs.Outcome.{Goes, StopIs};
ghost use Rattle.machine_spec.specs.Stores.{Devices as Seen, instance_at, on_instance};
ghost use Rattle.machine_spec.specs.Words.{Words, seen_words};
ghost use Rattle.machine_spec.specs.declared.threads.Context.{Context as Kept};
ghost use Rattle.machine_spec.specs.declared.threads.Context.TheVariants.{Fresh};
ghost use Rattle.machine_spec.specs.declared.threads.Control.TheVariants.{Next};
ghost use Rattle.target_records.specs.Records.{records_in};
ghost use Rattle.targets.specs.Live.{IsSameCast};
ghost use Rattle.motion_blocks.specs.Blocks.{goes_on, is_step as is_step_of, leaves, parts_of};
ghost use Rattle.block_arguments.specs.Stops.{IsOfWordsOrMemory};

use crate::{destinations, glide_steps, headings, instance, steps, turns};
use devices::Devices;
use machine_spec::{Context, Control, InstanceId};
use opcode_table::Opcode;
use scratch_values::Args;
use script_words::{Counted, Rng, Stop};
use std::alloc::Global;
use target_records::Records;
use targets::Targets;

// It goes on, and keeps nothing.
#[inline]
fn go_on(redraw: bool, context: &mut Context) -> (Control, bool)
    ensures control { result.0 ≡ Next }
    ensures redraw { result.1 ≡ redraw }
    ensures context { context.new ≡ Fresh }
{
    *context = Context::Fresh;
    (Control::Next, redraw)
}

// A block that always changes its instance, and tells whether a redraw is requested; one of another group leaves it.
fn stepped(op: Opcode, args: &Args<'_>, here: InstanceId, targets: &mut Targets) -> bool
    ensures new { targets.new ≡ on_instance here (machine_stepped op args.entry.now) targets.old }
    ensures redraw { result ≡ (instance_at here targets.old).visible }
    ensures cast { IsSameCast targets.old targets.new }
{
    match op {
        Opcode::MotionMoveSteps => steps::move_steps(args, here, targets),
        Opcode::MotionTurnRight => turns::turn_right(args, here, targets),
        Opcode::MotionTurnLeft => turns::turn_left(args, here, targets),
        Opcode::MotionPointInDirection => turns::point_in_direction(args, here, targets),
        Opcode::MotionGoToXY => steps::go_to_xy(args, here, targets),
        Opcode::MotionChangeXBy => steps::change_x(args, here, targets),
        Opcode::MotionSetX => steps::set_x(args, here, targets),
        Opcode::MotionChangeYBy => steps::change_y(args, here, targets),
        Opcode::MotionSetY => steps::set_y(args, here, targets),
        _ => instance::is_visible(here, targets),
    }
}

// A block that a sprite executes.
fn moved<R: Rng + Drop>(
    alloc: Global,
    op: Opcode,
    args: &Args<'_>,
    here: InstanceId,
    records: &Records,
    targets: &mut Targets,
    devices: &Devices,
    words: &mut Counted<R>,
    context: &mut Context,
) -> Result<(Control, bool), Stop>
    ensures ok { IfOk result (λ r. sprite_row (records_in records.now) devices.now op args.entry.now here context.old (parts_of R.stream targets.old words.old) ≡ Goes (leaves targets.new (seen_words R.stream words.new) context.new r.0 r.1)) }
    ensures stop { StopIs result (sprite_row (records_in records.now) devices.now op args.entry.now here context.old (parts_of R.stream targets.old words.old)) }
    ensures kind { IfErr result IsOfWordsOrMemory }
    ensures fits { IfOk result (λ r. control_fits r.0 (kind op) context.new ≡ true) }
    ensures own { IfOk result (λ r. is_own r.0 ≡ true) }
    ensures cast { IsSameCast targets.old targets.new }
{
    match op {
        Opcode::MotionGoTo => {
            let redraw = destinations::go_to(args, here, records, targets, devices, words)?;
            Ok(go_on(redraw, context))
        }
        Opcode::MotionPointTowards => {
            let redraw = headings::point_towards(args, here, records, targets, devices, words)?;
            Ok(go_on(redraw, context))
        }
        Opcode::MotionSetRotationStyle => {
            Ok(go_on(turns::set_rotation_style(args, here, targets), context))
        }
        Opcode::MotionGlideSecsToXY => {
            Ok(glide_steps::glide_to_xy(alloc, args, here, targets, devices, context)?)
        }
        Opcode::MotionGlideTo => glide_steps::glide_to(
            alloc, args, here, records, targets, devices, words, context,
        ),
        _ => Ok(go_on(stepped(op, args, here, targets), context)),
    }
}

/// Whether a block of motion only moves or turns its instance: it keeps nothing and draws no word.
#[inline(always)]
pub fn is_step(op: Opcode) -> bool
    ensures { result ≡ is_step_of op }
{
    match op {
        Opcode::MotionMoveSteps
        | Opcode::MotionTurnRight
        | Opcode::MotionTurnLeft
        | Opcode::MotionPointInDirection
        | Opcode::MotionGoToXY
        | Opcode::MotionChangeXBy
        | Opcode::MotionSetX
        | Opcode::MotionChangeYBy
        | Opcode::MotionSetY => true,
        _ => false,
    }
}

/// Executes a block of motion that only moves or turns its instance: what `apply` does with it, behind which the next block
/// always follows. It tells whether a redraw is requested.
pub fn apply_step(
    op: Opcode,
    args: &Args<'_>,
    here: InstanceId,
    records: &Records,
    targets: &mut Targets,
) -> bool
    requires { is_step_of op ≡ true }
    ensures row { (devices : Seen) → (context : Kept) → (words : Words) → motion_row (records_in records.now) devices op args.entry.now here context (record { targets = targets.old; words = words }) ≡ Goes (goes_on targets.new words result) }
    ensures cast { IsSameCast targets.old targets.new }
{
    if targets.is_on_stage(records, here) {
        return false;
    }
    stepped(op, args, here, targets)
}

/// Executes a block of motion of an instance: the row of its opcode (scratch-vm, blocks/scratch3_motion.js). `context` is
/// what the block keeps from one execution to the next. It gives what the thread does, which is never a control of other
/// threads, and whether a redraw is requested. On the stage a block goes on and does nothing. A block of another group
/// changes nothing, goes on and keeps nothing; a redraw is requested where the instance is visible. `Stop` is `Counter` of
/// the words exactly where a random place, of two words, or a random direction, of one, takes more than are left of
/// 2^62 − 1; the only other one is `NoMemory`.
pub fn apply<R: Rng + Drop>(
    alloc: Global,
    op: Opcode,
    args: &Args<'_>,
    here: InstanceId,
    records: &Records,
    targets: &mut Targets,
    devices: &Devices,
    words: &mut Counted<R>,
    context: &mut Context,
) -> Result<(Control, bool), Stop>
    ensures ok { IfOk result (λ r. motion_row (records_in records.now) devices.now op args.entry.now here context.old (parts_of R.stream targets.old words.old) ≡ Goes (record { parts = parts_of R.stream targets.new words.new; context = context.new; control = r.0; redraw = r.1 })) }
    ensures stop { StopIs result (motion_row (records_in records.now) devices.now op args.entry.now here context.old (parts_of R.stream targets.old words.old)) }
    ensures kind { IfErr result IsOfWordsOrMemory }
    ensures fits { IfOk result (λ r. control_fits r.0 (kind op) context.new ≡ true) }
    ensures own { IfOk result (λ r. is_own r.0 ≡ true) }
    ensures cast { IsSameCast targets.old targets.new }
{
    if targets.is_on_stage(records, here) {
        return Ok(go_on(false, context));
    }
    moved(
        alloc, op, args, here, records, targets, devices, words, context,
    )
}
