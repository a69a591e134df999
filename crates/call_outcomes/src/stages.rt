//! The stages of a call: a fetch, the write of a text, and a put.

ghost use Rattle.std.specs.Prelude.{[], ◌∷◌};
ghost use Rattle.call_outcomes.specs.Course.{of_writing};
ghost use Rattle.call_outcomes.specs.Seen.{shelf_now, sink_now};
ghost use Rattle.call_outcomes.specs.Stages.{Fetches, PutsOnce, Unwritten, Writes};

use std::alloc::Global;
use sv_channels::{FetchError, PutError, Shelf, Sink, SinkError};

/// The bytes under a name, where they are at most `limit`.
pub fn fetch<H: Shelf>(
    alloc: Global,
    shelf: &mut H,
    name: &str,
    limit: u64,
) -> Result<Vec<u8>, FetchError>
    ensures { Fetches name.now limit
        (shelf_now H.held H.fetch_faults H.put_faults H.calls H.wants shelf.old)
        (shelf_now H.held H.fetch_faults H.put_faults H.calls H.wants shelf.new) result }
{
    shelf.fetch(alloc, name, limit)
}

/// Puts a text under a name, in place of what it held.
pub fn put_text<H: Shelf>(
    alloc: Global,
    shelf: &mut H,
    name: &str,
    text: &[u8],
) -> Result<(), PutError>
    ensures { PutsOnce name.now text.now
        (shelf_now H.held H.fetch_faults H.put_faults H.calls H.wants shelf.old)
        (shelf_now H.held H.fetch_faults H.put_faults H.calls H.wants shelf.new) result }
{
    shelf.put(alloc, name, text)
}

/// Writes one text, by one write.
pub fn write_text<K: Sink>(alloc: Global, text: &[u8], out: &mut K) -> Result<(), SinkError>
    ensures writes { Writes (sink_now K.written K.faults K.calls out.old)
        (sink_now K.written K.faults K.calls out.new) ⊥ (text.now ∷ []) (of_writing result) }
    ensures unwritten { Unwritten (sink_now K.written K.faults K.calls out.old)
        (sink_now K.written K.faults K.calls out.new) result }
{
    out.write(alloc, text)
}
