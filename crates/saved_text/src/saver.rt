//! Saving a run.

ghost use Rattle.std.specs.Prelude.{◌≡◌, IfOk};
ghost use Rattle.saved_spec.specs.Ranges.{IsRun};
ghost use Rattle.saved_text.specs.Ranges.{IsThread};
ghost use Rattle.saved_spec.specs.Saved.{saved_text, saved_limit};
ghost use Rattle.saved_text.specs.Saving.{IsSaved};
ghost use Rattle.saved_text.specs.Seen.{seen};
ghost use Rattle.saved_text.specs.Threads.{thread};

use crate::run::{SavedRun, Written};
use std::alloc::{AllocError, Global};
use thiserror::Error;

/// The most bytes of a saved run: 128 MiB.
pub const SAVED_LIMIT: u64 = 134_217_728;

/// Why a run was not saved.
#[derive(Clone, Copy, PartialEq, Eq, Debug, Drop, Error)]
pub enum SaveStop {
    /// Its text is longer than 128 MiB.
    #[error("the saved run has {length} bytes")]
    TooLarge { length: u64 },
    /// Memory was wanting.
    #[error("out of memory")]
    NoMemory,
}

/// The text of a run, of any length (docs/formats.md, section 5). The only error is want of memory.
pub fn text_of(alloc: Global, run: &SavedRun<'_>) -> Result<Vec<u8>, AllocError>
    ensures text { IfOk result (λ text. text.items ≡ saved_text thread (seen run.now)) }
    ensures ranges { IfOk result (λ _. IsRun IsThread (seen run.now)) }
{
    let digits = hex::encode(alloc, &run.digest)?;
    let written = Written {
        run,
        digits: digits.as_str(),
    };
    match serde_json::to_vec(alloc, &written) {
        Ok(text) => Ok(text),
        Err(_error) => Err(AllocError),
    }
}

// A text, where it is no longer than the limit.
pub(crate) fn within(limit: u64, text: Vec<u8>) -> Result<Vec<u8>, SaveStop>
    ensures { IsSaved limit text.items result }
{
    let length = text.len() as u64;
    if length > limit {
        return Err(SaveStop::TooLarge { length });
    }
    Ok(text)
}

/// The text of a saved run, version 1 (docs/formats.md, section 5): compact JSON, members in the order of their names.
/// `TooLarge` exactly where it is longer than 128 MiB; the only other error is want of memory.
pub fn save(alloc: Global, run: &SavedRun<'_>) -> Result<Vec<u8>, SaveStop>
    ensures text { IsSaved saved_limit (saved_text thread (seen run.now)) result }
    ensures ranges { IfOk result (λ _. IsRun IsThread (seen run.now)) }
{
    let Ok(text) = text_of(alloc, run) else {
        return Err(SaveStop::NoMemory);
    };
    within(SAVED_LIMIT, text)
}
