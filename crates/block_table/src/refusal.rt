//! Why the blocks of a target are refused.

ghost use Rattle.std.specs.Prelude.{◌≡◌};
ghost use Rattle.block_table.specs.declared.refusal.BlockRefusal.TheVariants.{NoMemory};
ghost use Rattle.block_table.specs.Refused.{of_fault};

use json_shapes::Fault;
use project_json::Text;
use std::alloc::{AllocError, AllocFailed};

/// Why there is no table of the blocks of a target.
#[derive(Debug, Drop)]
pub enum BlockRefusal {
    /// The value at the path has not its shape.
    Shape { path: Text },
    /// The text at the path, of a literal, a field or the defaults of a prototype, has more than 1,048,576 bytes.
    TooLong { path: Text },
    /// Memory ran out.
    NoMemory,
}

impl From<Fault> for BlockRefusal {
    ghost from_gives = { λ fault e. e ≡ of_fault fault };

    fn from(fault: Fault) -> BlockRefusal {
        match fault {
            Fault::Shape { path } => BlockRefusal::Shape { path },
            Fault::NoMemory => BlockRefusal::NoMemory,
        }
    }
}

impl From<AllocError> for BlockRefusal {
    ghost from_gives = { λ _ e. e ≡ NoMemory };

    fn from(_error: AllocError) -> BlockRefusal {
        BlockRefusal::NoMemory
    }
}

impl<T: Drop> From<AllocFailed<T>> for BlockRefusal {
    ghost from_gives = { λ _ e. e ≡ NoMemory };

    fn from(_error: AllocFailed<T>) -> BlockRefusal {
        BlockRefusal::NoMemory
    }
}
