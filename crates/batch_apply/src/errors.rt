//! Why a batch was not applied.
ghost use Rattle.std.specs.Prelude.{◌≡◌};
ghost use Rattle.batch_apply.specs.declared.errors.ApplyError.TheVariants as apply;
ghost use Rattle.batch_apply.specs.Refused.{refused_as};

use std::alloc::{AllocError, AllocFailed};
use thiserror::Error;
use workers::WorkError;

/// Why a batch was not applied, or not split.
#[derive(Clone, Copy, Debug, PartialEq, Eq, Error)]
pub enum ApplyError {
    /// An edit names a vertex that the graph does not have.
    #[error("an edit names a vertex that the graph does not have")]
    VertexRange = 1,
    /// There are more than 65,536 edits.
    #[error("there are more than 65536 edits")]
    TooManyEdits = 2,
    /// There is no memory for it.
    #[error("out of memory")]
    OutOfMemory = 3,
    /// A thread could not be started.
    #[error("a worker could not be started")]
    WorkerRefused = 4,
}

impl From<WorkError> for ApplyError {
    ghost from_gives = { λ error e. e ≡ refused_as error };

    fn from(error: WorkError) -> ApplyError {
        match error {
            WorkError::OutOfMemory => ApplyError::OutOfMemory,
            WorkError::WorkerRefused => ApplyError::WorkerRefused,
        }
    }
}

impl From<AllocError> for ApplyError {
    ghost from_gives = { λ _ e. e ≡ apply.OutOfMemory };

    fn from(_e: AllocError) -> ApplyError {
        ApplyError::OutOfMemory
    }
}

impl<T: Drop> From<AllocFailed<T>> for ApplyError {
    ghost from_gives = { λ _ e. e ≡ apply.OutOfMemory };

    fn from(_e: AllocFailed<T>) -> ApplyError {
        ApplyError::OutOfMemory
    }
}
