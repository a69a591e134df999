//! Why a call to the outside has no answer.

ghost use Rattle.std.specs.Prelude.{◌≡◌};
ghost use Rattle.sv_channels.specs.declared.errors.FetchError.TheVariants as fetch;
ghost use Rattle.sv_channels.specs.declared.errors.PutError.TheVariants as put;
ghost use Rattle.sv_channels.specs.declared.errors.SinkError.TheVariants as sink;

use std::alloc::AllocError;
use thiserror::Error;

/// Why a fetch gave no bytes.
#[derive(Clone, Copy, Debug, PartialEq, Eq, Error)]
pub enum FetchError {
    /// The file is not held, or reading it failed. The shelf counts it.
    #[error("the file was not read")]
    Failed,
    /// The file has more than `limit` bytes, the limit that the call was given.
    #[error("the file has more than {limit} bytes")]
    TooLarge { limit: u64 },
    /// Memory ran out.
    #[error("out of memory")]
    NoMemory,
}

/// Why bytes were not put.
#[derive(Clone, Copy, Debug, PartialEq, Eq, Error)]
pub enum PutError {
    /// Writing the file failed, and it may hold anything now. The shelf counts it.
    #[error("the file was not written")]
    Failed,
    /// Memory ran out, and nothing was changed.
    #[error("out of memory")]
    NoMemory,
}

/// Why a piece was not written whole.
#[derive(Clone, Copy, Debug, PartialEq, Eq, Error)]
pub enum SinkError {
    /// The write failed, perhaps after a first part of the piece. The sink counts it.
    #[error("the output was not written")]
    Failed,
    /// Memory ran out, and nothing was written.
    #[error("out of memory")]
    NoMemory,
}

impl From<AllocError> for FetchError {
    ghost from_gives = { λ _ e. e ≡ fetch.NoMemory };

    fn from(_error: AllocError) -> FetchError {
        FetchError::NoMemory
    }
}

impl From<AllocError> for PutError {
    ghost from_gives = { λ _ e. e ≡ put.NoMemory };

    fn from(_error: AllocError) -> PutError {
        PutError::NoMemory
    }
}

impl From<AllocError> for SinkError {
    ghost from_gives = { λ _ e. e ≡ sink.NoMemory };

    fn from(_error: AllocError) -> SinkError {
        SinkError::NoMemory
    }
}
