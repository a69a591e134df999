//! Broadcasts.

ghost use Rattle.std.specs.Prelude.{◌≡◌, codes, false, IfOk};
ghost use Rattle.opcode_table.specs.declared.kinds.Kind.TheVariants.{Starts};
ghost use Rattle.machine_spec.specs.ControlRows.{broadcast_and_wait};
ghost use Rattle.machine_spec.specs.declared.threads.Control.TheVariants.{Start};
ghost use Rattle.machine_spec.specs.declared.threads.Context.TheVariants.{Fresh};
ghost use Rattle.machine_spec.specs.declared.threads.Filter.TheVariants.{Broadcast};
ghost use Rattle.machine_spec.specs.View.{text_at};
ghost use Rattle.thread_frames.specs.Threads.{listed};
ghost use Rattle.machine_spec.specs.Laws.{is_own};
ghost use Rattle.machine_spec.specs.Keeping.{is_started};
ghost use Rattle.control_blocks.specs.Same.{IsOnly, KeepsWell};

use block_arguments::text;
use machine_spec::{Boxed, Context, Control, Filter};
use scratch_values::Args;
use std::alloc::{AllocError, Global};
use thread_frames::Threads;

// The hats of the message are started, and their threads are waited for or not. The only error is want of memory.
fn start(alloc: Global, args: &Args<'_>, wait: bool) -> Result<Control, AllocError>
    ensures { IfOk result (λ r. r ≡ Start (Broadcast (text_at (codes "BROADCAST_INPUT") args.entry.now)) wait) }
{
    let message = text(alloc, args, "BROADCAST_INPUT")?;
    let hats = Filter::Broadcast(message.into_text()?);
    Ok(Control::Start {
        hats: Boxed::new(alloc, hats)?,
        wait,
    })
}

// `broadcast BROADCAST_INPUT`. The only error is want of memory.
pub(crate) fn broadcast(
    alloc: Global,
    args: &Args<'_>,
    context: &mut Context,
) -> Result<Control, AllocError>
    ensures control { IfOk result (λ r. r ≡ Start (Broadcast (text_at (codes "BROADCAST_INPUT") args.entry.now)) false) }
    ensures context { IfOk result (λ r. context.new ≡ Fresh) }
{
    *context = Context::Fresh;
    start(alloc, args, false)
}

// `broadcast BROADCAST_INPUT and wait`: first the hats are started; then it goes on, yields or yields a tick by the threads
// that were started. The only error is want of memory.
pub(crate) fn broadcast_and_wait(
    alloc: Global,
    args: &Args<'_>,
    threads: &Threads,
    context: &mut Context,
) -> Result<Control, AllocError>
    ensures row { IfOk result (λ r. IsOnly (broadcast_and_wait (listed threads.now) context.old (text_at (codes "BROADCAST_INPUT") args.entry.now)) context.new r) }
    ensures keeps { IfOk result (λ r. KeepsWell Starts context.new r) }
    ensures afresh { IfOk result (λ r. is_own r ≡ false → is_started context.old ≡ false) }
{
    match context {
        Context::Started(serials) => Ok(threads.wait_for(serials.get().as_slice())),
        _ => {
            *context = Context::Fresh;
            start(alloc, args, true)
        }
    }
}
