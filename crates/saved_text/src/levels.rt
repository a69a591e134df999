//! Threads with their levels.

ghost use Rattle.std.specs.Prelude.{◌≡◌, OnOk, ⊤, reverse, take};
ghost use Rattle.std.specs.List.{All};
ghost use Rattle.serde_json.specs.Data.{string};
ghost use Rattle.serde_json.specs.Events.{SendsValue};
ghost use Rattle.saved_spec.specs.Ranges.{IsBlock};
ghost use Rattle.saved_spec.specs.Rows.{each};
ghost use Rattle.saved_spec.specs.Threads as form;
ghost use Rattle.saved_text.specs.Ranges as range;
ghost use Rattle.saved_text.specs.Sending.{SendsEach};
ghost use Rattle.saved_text.specs.Threads as saved;
ghost use Rattle.thread_frames.specs.Reading.{params_in};

use crate::contexts::send_context;
use crate::rows::{Saved, send_member};
use machine_spec::{BlockId, InstanceId, Serial, Status, Which};
use project_json::Text;
use scratch_values::Value;
use serde::Serializer;
use thread_frames::{Level, Levels, Threads};

impl Saved for Option<BlockId> {
    ghost as_data = { form.block };

    ghost in_range = { λ k. IsBlock k };

    fn send<S: Serializer>(&self, out: &mut S) -> Result<(), S::Error> {
        match self {
            Some(block) => block.send(out),
            None => out.unit(),
        }
    }
}

// The parameters with which the block of a level called, and none where it has not.
fn params_of(level: &Level) -> &[(Text, Value)]
    ensures { result.now ≡ params_in level.now }
{
    match &level.params {
        Some(params) => params.get().pairs(),
        None => &[],
    }
}

impl Saved for Level {
    ghost as_data = { saved.level };

    ghost in_range = { range.IsLevel };

    fn send<S: Serializer>(&self, out: &mut S) -> Result<(), S::Error> {
        out.begin_seq(Some(2))?;
        self.block.send(out)?;
        send_context(self.is_loop, params_of(self), &self.context, out)?;
        out.end_seq()
    }
}

// Sends so many of the topmost levels, or all where there are fewer, from the lowest of them up. Levels are read from the top
// down, so the lower half is gone to and sent first: to go down anew to each level would take the square of the depth.
fn send_topmost<S: Serializer>(
    levels: &Levels<'_>,
    count: usize,
    out: &mut S,
) -> Result<(), S::Error>
    ensures sent { OnOk result (SendsEach saved.level (reverse (take count levels.now)) (S.written out.old) (S.written out.new)) }
    ensures ranges { OnOk result (All range.IsLevel (take count levels.now)) }
{
    if count == 0 {
        return Ok(());
    }
    if count == 1 {
        return send_top(levels, out);
    }
    let half = count / 2;
    send_topmost(&levels.below(half), count - half, out)?;
    send_topmost(levels, half, out)
}

// Sends the top level, if there is one.
fn send_top<S: Serializer>(levels: &Levels<'_>, out: &mut S) -> Result<(), S::Error>
    ensures sent { OnOk result (SendsEach saved.level (take 1 levels.now) (S.written out.old) (S.written out.new)) }
    ensures ranges { OnOk result (All range.IsLevel (take 1 levels.now)) }
{
    match levels.top() {
        Some(level) => level.send(out),
        None => Ok(()),
    }
}

impl Saved for Levels<'_> {
    ghost as_data = { saved.levels };

    ghost in_range = { All range.IsLevel };

    fn send<S: Serializer>(&self, out: &mut S) -> Result<(), S::Error> {
        let depth = self.depth();
        out.begin_seq(Some(depth))?;
        send_topmost(self, depth, out)?;
        out.end_seq()
    }
}

impl Saved for Status {
    ghost as_data = { λ s. string (form.status_name s) };

    ghost in_range = { λ s. ⊤ };

    fn send<S: Serializer>(&self, out: &mut S) -> Result<(), S::Error> {
        match self {
            Status::Running => out.str("run"),
            Status::YieldTick => out.str("tick"),
            Status::PromiseWait => out.str("wait"),
            Status::Done => out.str("done"),
        }
    }
}

// Sends a thread by its parts.
#[tactic(auto, unfolding(saved_spec::specs::Threads::thread_of))]
fn send_thread<S: Serializer>(
    hat: BlockId,
    levels: &Levels<'_>,
    number: Serial,
    of: InstanceId,
    status: Status,
    out: &mut S,
) -> Result<(), S::Error>
    ensures sent { OnOk result (SendsValue (form.thread_of hat number of status (saved.levels levels.now)) (S.written out.old) (S.written out.new)) }
    ensures ranges { OnOk result (range.HasThread hat number of levels.now) }
{
    out.begin_map(Some(5))?;
    send_member("hat", &hat, out)?;
    send_member("levels", levels, out)?;
    send_member("number", &number, out)?;
    send_member("of", &of, out)?;
    send_member("status", &status, out)?;
    out.end_map()
}

impl Saved for Threads {
    ghost as_data = { λ ts. each saved.thread ts.list };

    ghost in_range = { λ ts. All range.IsThread ts.list };

    fn send<S: Serializer>(&self, out: &mut S) -> Result<(), S::Error> {
        let count = self.len();
        out.begin_seq(Some(count as usize))?;
        for slot in 0..count {
            let thread = self.thread(Which::Slot(slot)).unwrap();
            send_thread(
                thread.hat(),
                &self.levels_at(Which::Slot(slot)),
                thread.serial(),
                thread.of(),
                thread.status(),
                out,
            )?;
        }
        out.end_seq()
    }
}
