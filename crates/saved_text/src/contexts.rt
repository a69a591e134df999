//! What blocks keep.

ghost use Rattle.std.specs.Prelude.{OnOk};
ghost use Rattle.serde_json.specs.Events.{SendsValue};
ghost use Rattle.std.specs.List.{All};
ghost use Rattle.saved_spec.specs.Contexts as saved;
ghost use Rattle.saved_spec.specs.Ranges as range;

use crate::rows::{Saved, send_each, send_word};
use machine_spec::{Context, Count, GlideState, Serial, WaitState};
use project_json::Text;
use scratch_values::Value;
use serde::Serializer;

impl Saved for Count {
    ghost as_data = { saved.count };

    ghost in_range = { λ n. range.IsCount n };

    fn send<S: Serializer>(&self, out: &mut S) -> Result<(), S::Error> {
        match self {
            Count::Whole(turns) => turns.send(out),
            Count::Infinite => out.str("inf"),
        }
    }
}

impl Saved for (Text, Value) {
    ghost as_data = { saved.param };

    ghost in_range = { λ p. range.IsParam p };

    fn send<S: Serializer>(&self, out: &mut S) -> Result<(), S::Error> {
        out.begin_seq(Some(2))?;
        out.str(self.0.as_str())?;
        self.1.send(out)?;
        out.end_seq()
    }
}

impl Saved for WaitState {
    ghost as_data = { saved.wait };

    ghost in_range = { range.IsWait };

    fn send<S: Serializer>(&self, out: &mut S) -> Result<(), S::Error> {
        out.begin_seq(Some(3))?;
        out.str("wait")?;
        self.start.send(out)?;
        self.duration.send(out)?;
        out.end_seq()
    }
}

impl Saved for GlideState {
    ghost as_data = { saved.glide };

    ghost in_range = { range.IsGlide };

    fn send<S: Serializer>(&self, out: &mut S) -> Result<(), S::Error> {
        out.begin_seq(Some(7))?;
        out.str("glide")?;
        self.start.send(out)?;
        self.duration.send(out)?;
        self.x0.send(out)?;
        self.y0.send(out)?;
        self.x1.send(out)?;
        self.y1.send(out)?;
        out.end_seq()
    }
}

// Sends what a block keeps that was executed, or was not, and keeps nothing else.
fn send_fresh<S: Serializer>(is_loop: bool, out: &mut S) -> Result<(), S::Error>
    ensures sent { OnOk result (SendsValue (saved.fresh is_loop) (S.written out.old) (S.written out.new)) }
{
    if is_loop {
        send_word("loop", out)
    } else {
        out.unit()
    }
}

// Sends the turns that a repeat has left.
fn send_repeat<S: Serializer>(turns: &Count, out: &mut S) -> Result<(), S::Error>
    ensures sent { OnOk result (SendsValue (saved.repeat turns.now) (S.written out.old) (S.written out.new)) }
    ensures ranges { OnOk result (range.IsCount turns.now) }
{
    out.begin_seq(Some(2))?;
    out.str("repeat")?;
    turns.send(out)?;
    out.end_seq()
}

// Sends the threads that a block has started.
fn send_started<S: Serializer>(serials: &[Serial], out: &mut S) -> Result<(), S::Error>
    ensures sent { OnOk result (SendsValue (saved.started serials.now) (S.written out.old) (S.written out.new)) }
    ensures ranges { OnOk result (All range.IsWhole serials.now) }
{
    out.begin_seq(Some(2))?;
    out.str("started")?;
    send_each(serials, out)?;
    out.end_seq()
}

// Sends the parameters with which a block has called.
fn send_call<S: Serializer>(params: &[(Text, Value)], out: &mut S) -> Result<(), S::Error>
    ensures sent { OnOk result (SendsValue (saved.call params.now) (S.written out.old) (S.written out.new)) }
    ensures ranges { OnOk result (range.AreParams params.now) }
{
    out.begin_seq(Some(2))?;
    out.str("call")?;
    send_each(params, out)?;
    out.end_seq()
}

// Sends what a block keeps, by its loop mark and the parameters of its call.
pub(crate) fn send_context<S: Serializer>(
    is_loop: bool,
    params: &[(Text, Value)],
    context: &Context,
    out: &mut S,
) -> Result<(), S::Error>
    ensures sent { OnOk result (SendsValue (saved.context is_loop params.now context.now) (S.written out.old) (S.written out.new)) }
    ensures ranges { OnOk result (range.IsKept params.now context.now) }
{
    match context {
        Context::Fresh => send_fresh(is_loop, out),
        Context::Repeat(turns) => send_repeat(turns, out),
        Context::Wait(state) => state.get().send(out),
        Context::Glide(state) => state.get().send(out),
        Context::Started(serials) => send_started(serials.get().as_slice(), out),
        Context::Asked => send_word("asked", out),
        Context::Spoken => send_word("spoken", out),
        Context::Called => send_call(params, out),
    }
}
