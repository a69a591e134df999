//! Why a document has no records.

ghost use Rattle.std.specs.Prelude.{◌≡◌};
ghost use Rattle.target_records.specs.declared.refusal.RecordRefusal.TheVariants.{NoMemory};
ghost use Rattle.target_records.specs.Bounds.{refusal_of, IsTooManyAt};
ghost use Rattle.json_shapes.specs.Places.{path};

use json_shapes::{Fault, Place};
use project_json::Text;
use std::alloc::{AllocError, AllocFailed, Global};

/// Why a document has no records, in the order of the tests.
#[derive(Debug, Drop)]
pub enum RecordRefusal {
    /// The value at the path has not its shape.
    Shape { path: Text },
    /// The targets with `isStage` true are not one.
    StageCount { n: u32 },
    /// A count or a length at the path is too large.
    TooMany { path: Text },
    /// Memory ran out.
    NoMemory,
}

impl From<Fault> for RecordRefusal {
    ghost from_gives = { λ fault e. e ≡ refusal_of fault };

    fn from(fault: Fault) -> RecordRefusal {
        match fault {
            Fault::Shape { path } => RecordRefusal::Shape { path },
            Fault::NoMemory => RecordRefusal::NoMemory,
        }
    }
}

impl From<AllocError> for RecordRefusal {
    ghost from_gives = { λ _ e. e ≡ NoMemory };

    fn from(_error: AllocError) -> RecordRefusal {
        RecordRefusal::NoMemory
    }
}

impl<T: Drop> From<AllocFailed<T>> for RecordRefusal {
    ghost from_gives = { λ _ e. e ≡ NoMemory };

    fn from(_error: AllocFailed<T>) -> RecordRefusal {
        RecordRefusal::NoMemory
    }
}

impl RecordRefusal {
    // What is counted at the place is too many.
    pub(crate) fn too_many(alloc: Global, place: &Place) -> RecordRefusal
        ensures { IsTooManyAt (path place.now) result }
    {
        match place.path(alloc) {
            Ok(path) => RecordRefusal::TooMany { path },
            Err(_) => RecordRefusal::NoMemory,
        }
    }
}
