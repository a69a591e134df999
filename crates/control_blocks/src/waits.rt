//! Waiting for a time or a condition, and the timer.

ghost use Rattle.std.specs.Prelude.{◌≡◌, List, codes, true, IfOk, if◌then◌else◌};
ghost use Rattle.opcode_table.specs.declared.kinds.Kind.TheVariants.{Plain, Waits};
ghost use Rattle.machine_spec.specs.ControlRows.{wait_row};
ghost use Rattle.machine_spec.specs.declared.instance.Instance.{Instance};
ghost use Rattle.machine_spec.specs.declared.threads.Control.TheVariants.{Next, Yield};
ghost use Rattle.machine_spec.specs.declared.threads.Context.TheVariants.{Fresh};
ghost use Rattle.machine_spec.specs.Stores.{elapsed, less};
ghost use Rattle.machine_spec.specs.View.{number_at, truth_at};
ghost use Rattle.speech_bubbles.specs.Scenes.{scene_in};
ghost use Rattle.machine_spec.specs.Laws.{is_own};
ghost use Rattle.control_blocks.specs.Same.{KeepsWell};

use block_arguments::{from_zero, number, truth};
use devices::Devices;
use machine_spec::{Boxed, Context, Control, WaitState};
use scratch_number::is_less;
use scratch_values::Args;
use std::alloc::{AllocError, Global};

// Whether less time has gone by than the wait lasts.
fn lasts(devices: &Devices, state: &WaitState) -> bool
    ensures { result ≡ less (elapsed state.now.start devices.now) state.now.duration }
{
    is_less(devices.elapsed(state.start), state.duration)
}

// `wait DURATION`: first the clock and the duration are kept, with a redraw; later it yields while less time has gone by.
// The only error is want of memory.
pub(crate) fn wait(
    alloc: Global,
    args: &Args<'_>,
    devices: &Devices,
    context: &mut Context,
) -> Result<(Control, bool), AllocError>
    ensures ok { IfOk result (λ r. (targets : List Instance) → wait_row context.old (number_at (codes "DURATION") args.entry.now) (scene_in targets devices.now) ≡ record { parts = scene_in targets devices.now; context = context.new; control = r.0; redraw = r.1 }) }
    ensures keeps { IfOk result (λ r. KeepsWell Waits context.new r.0) }
{
    match context {
        Context::Wait(state) => {
            if lasts(devices, state.get()) {
                return Ok((Control::Yield, false));
            }
            *context = Context::Fresh;
            Ok((Control::Next, false))
        }
        _ => {
            let state = WaitState {
                start: devices.clock(),
                duration: from_zero(number(args, "DURATION")),
            };
            *context = Context::Wait(Boxed::new(alloc, state)?);
            Ok((Control::Yield, true))
        }
    }
}

// `wait until CONDITION`: it yields while the condition does not hold.
#[inline]
pub(crate) fn wait_until(args: &Args<'_>, context: &mut Context) -> Control
    ensures control { result ≡ (if truth_at (codes "CONDITION") args.entry.now then Next else Yield) }
    ensures context { context.new ≡ Fresh }
    ensures keeps { KeepsWell Plain context.new result }
    ensures own { is_own result ≡ true }
{
    *context = Context::Fresh;
    if truth(args, "CONDITION") {
        Control::Next
    } else {
        Control::Yield
    }
}

// `reset timer`.
pub(crate) fn reset_timer(devices: &mut Devices, context: &mut Context) -> Control
    ensures control { result ≡ Next }
    ensures context { context.new ≡ Fresh }
    ensures new { devices.new ≡ record devices.old { timer = devices.old.clock } }
{
    devices.reset_timer();
    *context = Context::Fresh;
    Control::Next
}
