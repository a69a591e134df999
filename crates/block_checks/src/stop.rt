//! Why a test stops.

ghost use Rattle.std.specs.Prelude.{◌≡◌};
ghost use Rattle.project_spec.specs.declared.refusals.Refusal.TheVariants as refusal;
ghost use Rattle.block_checks.specs.declared.stop.Stop.TheVariants.{NoMemory};
ghost use Rattle.block_checks.specs.Stops.{Tells};

use project_json::Text;
use project_spec::{At, Refusal};
use std::alloc::{AllocError, AllocFailed, Global};

// A refusal, or want of memory.
#[derive(Drop)]
pub(crate) enum Stop {
    Refused(Refusal),
    NoMemory,
}

impl From<AllocError> for Stop {
    ghost from_gives = { λ _ e. e ≡ NoMemory };

    fn from(_error: AllocError) -> Stop {
        Stop::NoMemory
    }
}

impl<T: Drop> From<AllocFailed<T>> for Stop {
    ghost from_gives = { λ _ e. e ≡ NoMemory };

    fn from(_error: AllocFailed<T>) -> Stop {
        Stop::NoMemory
    }
}

// A link of the block names no block.
pub(crate) fn dangling(alloc: Global, at: At, id: &str) -> Stop
    ensures { Tells (refusal.Dangling at id.now) result }
{
    match Text::from_str(alloc, id) {
        Ok(to) => Stop::Refused(Refusal::Dangling { at, to }),
        Err(_) => Stop::NoMemory,
    }
}

// The block does not fit its place.
pub(crate) fn misplaced(alloc: Global, at: At, opcode: &str) -> Stop
    ensures { Tells (refusal.Opcode at opcode.now) result }
{
    match Text::from_str(alloc, opcode) {
        Ok(name) => Stop::Refused(Refusal::Opcode { at, name }),
        Err(_) => Stop::NoMemory,
    }
}

// An input of the block is missing.
pub(crate) fn missing(alloc: Global, at: At, name: &str) -> Stop
    ensures { Tells (refusal.MissingInput at name.now) result }
{
    match Text::from_str(alloc, name) {
        Ok(input) => Stop::Refused(Refusal::MissingInput { at, input }),
        Err(_) => Stop::NoMemory,
    }
}

// A field of the block is absent, or holds what is refused.
pub(crate) fn unfit(alloc: Global, at: At, name: &str) -> Stop
    ensures { Tells (refusal.Field at name.now) result }
{
    match Text::from_str(alloc, name) {
        Ok(field) => Stop::Refused(Refusal::Field { at, field }),
        Err(_) => Stop::NoMemory,
    }
}
