//! The top call.

ghost use Rattle.std.specs.Prelude.{◌≡◌, ◌≢◌, ◌↔◌, ◌∷◌, [], map, string_bytes, None};
ghost use Rattle.call_outcomes.specs.Seen.{shelf_now, sink_now};
ghost use Rattle.call_outcomes.specs.Stages.{Writes};
ghost use Rattle.report_command.specs.Naming.{name_of};
ghost use Rattle.report_command.specs.Promise.{course, Owes, Reports, WantWroteNothing};
ghost use Rattle.report_command.specs.Stages.{ToldOf};

use crate::block_names::name_of;
use crate::judgement::{Judged, judge};
use crate::status::Status;
use call_outcomes::{fetch, write_text};
use project_spec::PROJECT_LIMIT;
use std::alloc::Global;
use sv_channels::{Shelf, Sink, SinkError};

// Writes what is said of a file.
fn tell<K: Sink>(alloc: Global, judged: Judged, out: &mut K) -> Status
    ensures told { ToldOf judged.refusal result }
    ensures writes { Writes (sink_now K.written K.faults K.calls out.old)
        (sink_now K.written K.faults K.calls out.new) ⊥ (judged.text.items ∷ []) (course result) }
    ensures want { WantWroteNothing (sink_now K.written K.faults K.calls out.old)
        (sink_now K.written K.faults K.calls out.new) result }
{
    let Judged { text, refusal } = judged;
    match write_text(alloc, &text, out) {
        Ok(()) => match refusal {
            None => Status::Done,
            Some(refusal) => Status::BadProject(refusal),
        },
        Err(SinkError::Failed) => Status::WriteFault,
        Err(SinkError::NoMemory) => Status::NoMemory,
    }
}

// Fetches a project file, judges it, and writes what is said of it.
fn run<H: Shelf, K: Sink>(alloc: Global, name: &str, shelf: &mut H, out: &mut K) -> Status
    ensures owes { Owes name.now
        (shelf_now H.held H.fetch_faults H.put_faults H.calls H.wants shelf.old)
        (shelf_now H.held H.fetch_faults H.put_faults H.calls H.wants shelf.new)
        (sink_now K.written K.faults K.calls out.old) (sink_now K.written K.faults K.calls out.new) result }
    ensures no_usage { result ≢ Status.Usage }
{
    let bytes = match fetch(alloc, shelf, name, PROJECT_LIMIT) {
        Ok(bytes) => bytes,
        Err(error) => return Status::from(error),
    };
    match judge(alloc, &bytes) {
        Ok(judged) => tell(alloc, judged, out),
        Err(_) => Status::NoMemory,
    }
}

/// Says of a project file what it has, or why and where it is refused and what to change: the command's words without the
/// program's name, which are the name of the file alone.
///
/// The file is fetched from the shelf, and the text is written by one write: specs/Text.antt defines it, line by line, and
/// docs/refusals.md has an example of each rule. A project that loads ends as `Done`, one that is refused as `BadProject`.
/// specs/Promise.antt says what the clauses mean. After a fault no further call is made on the shelf or the sink.
pub fn report<H: Shelf, K: Sink>(
    alloc: Global,
    words: &[String],
    shelf: &mut H,
    out: &mut K,
) -> Status
    // Usage exactly where the words are not one name.
    ensures usage { (result ≡ Status.Usage) ↔ (name_of (map string_bytes words.now) ≡ None) }

    // What is owed by the words, between what is seen before and after.
    ensures owes { Reports (name_of (map string_bytes words.now))
        (shelf_now H.held H.fetch_faults H.put_faults H.calls H.wants shelf.old)
        (shelf_now H.held H.fetch_faults H.put_faults H.calls H.wants shelf.new)
        (sink_now K.written K.faults K.calls out.old) (sink_now K.written K.faults K.calls out.new) result }
{
    match name_of(words) {
        None => Status::Usage,
        Some(name) => run(alloc, name, shelf, out),
    }
}
