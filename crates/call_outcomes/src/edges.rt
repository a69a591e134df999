//! The real files and the standard output, and the word on the standard error.

ghost use Rattle.std.specs.Prelude.{◌≡◌, IfOk};

use std::alloc::AllocError;
use std::io::{Eprint, Print};
use std::rt::Files;
use sv_channels::{FileShelf, StdSink};

/// The files of the system and the standard output. No call was made yet. The only error is want of memory.
pub fn edges_of<R: Files + Print + Clone + Drop>(
    rt: &R,
) -> Result<(FileShelf<R>, StdSink<R>), AllocError>
    ensures shelf { IfOk result (λ edges. edges.0 ≡ record { fetches = 0; puts = 0; calls = 0; wants = 0 }) }
    ensures sink { IfOk result (λ edges. edges.1 ≡ record { faults = 0; calls = 0 }) }
{
    Ok((FileShelf::new(rt.clone()?), StdSink::new(rt.clone()?)))
}

/// Tells how a call ended on the standard error: its name and what stands behind it. It takes no memory, so that want of
/// memory is told too.
pub fn tell(rt: &impl Eprint, name: &str, rest: &str) {
    let _ = rt.eprint(name);
    let _ = rt.eprintln(rest);
}
