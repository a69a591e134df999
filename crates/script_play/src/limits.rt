//! The lines of limits.

ghost use Rattle.std.specs.Prelude.{◌≡◌, ◌∷◌, ◌++◌, [], IfOk};
ghost use Rattle.std.specs.Fmt.{decimal};
ghost use Rattle.call_outcomes.specs.Seen.{sink_now};
ghost use Rattle.call_outcomes.specs.Stages.{Writes};
ghost use Rattle.script_play.specs.Limits.{limit_in, line_at, IsLimitEnd};
ghost use Rattle.script_play.specs.Lines.{IsWriteEnd};
ghost use Rattle.script_play.specs.Stops.{course, course_of};

use crate::stops::PlayStop;
use call_outcomes::write_text;
use itoa::Buffer;
use run_save::Limit;
use script_words::Stop;
use std::alloc::{AllocError, Global};
use sv_channels::{Sink, SinkError};

/// Writes one text by one write. The only errors are `WriteFault`, exactly where the count of failed writes rose, and
/// `NoMemory`.
pub fn write<K: Sink>(alloc: Global, text: &[u8], out: &mut K) -> Result<(), PlayStop>
    ensures ends { IsWriteEnd result }
    ensures writes { Writes (sink_now K.written K.faults K.calls out.old)
        (sink_now K.written K.faults K.calls out.new) ⊥ (text.now ∷ []) (course result) }
{
    match write_text(alloc, text, out) {
        Ok(()) => Ok(()),
        Err(SinkError::Failed) => Err(PlayStop::WriteFault),
        Err(SinkError::NoMemory) => Err(PlayStop::NoMemory),
    }
}

/// The limit of a stop; want of memory is none.
pub(crate) fn limit_of(stop: Stop) -> Option<Limit>
    ensures { result ≡ limit_in stop }
{
    match stop {
        Stop::Stack => Some(Limit::Stack),
        Stop::Text { length } => Some(Limit::Text { length }),
        Stop::Counter { which } => Some(Limit::Counter { which }),
        Stop::NoMemory => None,
    }
}

// These bytes. The only error is want of memory.
fn text_of(alloc: Global, bytes: &[u8]) -> Result<Vec<u8>, AllocError>
    ensures { IfOk result (λ text. text.items ≡ bytes.now) }
{
    let mut text = Vec::new(alloc);
    text.extend_from_slice(bytes)?;
    Ok(text)
}

// These bytes, a number and a line end. The only error is want of memory.
fn length_text(alloc: Global, before: &[u8], length: u64) -> Result<Vec<u8>, AllocError>
    ensures { IfOk result (λ text. text.items ≡ before.now ++ decimal length ++ 10 ∷ []) }
{
    let mut text = Vec::new(alloc);
    text.extend_from_slice(before)?;
    let mut buffer = Buffer::new();
    text.extend_from_slice(buffer.format(length).as_bytes())?;
    text.push(b'\n')?;
    Ok(text)
}

// The line of a limit. The only error is want of memory.
fn limit_text(alloc: Global, limit: Limit) -> Result<Vec<u8>, AllocError>
    ensures { IfOk result (λ text. text.items ≡ line_at limit) }
{
    match limit {
        Limit::Stack => text_of(alloc, b"limit stack 65536\n"),
        Limit::Text { length } => length_text(alloc, b"limit text ", length),
        Limit::Counter { .. } => text_of(alloc, b"limit counter\n"),
        Limit::Save { length } => length_text(alloc, b"limit save ", length),
    }
}

/// Writes the line of a limit, by one write: why the play stops then, which is the limit itself where the line was written.
pub fn tell_limit<K: Sink>(alloc: Global, limit: Limit, out: &mut K) -> PlayStop
    ensures ends { IsLimitEnd limit result }
    ensures writes { Writes (sink_now K.written K.faults K.calls out.old)
        (sink_now K.written K.faults K.calls out.new) ⊥ (line_at limit ∷ []) (course_of result) }
{
    let Ok(text) = limit_text(alloc, limit) else {
        return PlayStop::NoMemory;
    };
    match write(alloc, &text, out) {
        Ok(()) => PlayStop::Limit(limit),
        Err(stop) => stop,
    }
}
