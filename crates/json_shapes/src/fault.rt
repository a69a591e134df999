//! Why a document is not read.

ghost use Rattle.std.specs.Prelude.{◌≡◌};
ghost use Rattle.json_shapes.specs.declared.fault.Fault.TheVariants.{NoMemory};

use project_json::Text;
use std::alloc::{AllocError, AllocFailed};

/// Why a reader gives nothing: the value at a path has not its shape, or memory ran out.
#[derive(Debug, Drop)]
pub enum Fault {
    Shape { path: Text },
    NoMemory,
}

impl From<AllocError> for Fault {
    ghost from_gives = { λ _ e. e ≡ NoMemory };

    fn from(_error: AllocError) -> Fault {
        Fault::NoMemory
    }
}

impl<T: Drop> From<AllocFailed<T>> for Fault {
    ghost from_gives = { λ _ e. e ≡ NoMemory };

    fn from(_error: AllocFailed<T>) -> Fault {
        Fault::NoMemory
    }
}
