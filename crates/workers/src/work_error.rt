//! Why workers gave no answer.
ghost use Rattle.std.specs.Prelude.{◌≡◌};
ghost use Rattle.workers.specs.declared.work_error.WorkError.TheVariants as error;

use std::alloc::{AllocError, AllocFailed};
use thiserror::Error;

/// Why workers gave no answer.
#[derive(Clone, Copy, Debug, PartialEq, Eq, Error)]
pub enum WorkError {
    /// There is no memory for what they make.
    #[error("out of memory")]
    OutOfMemory,
    /// A thread could not be started.
    #[error("a worker could not be started")]
    WorkerRefused,
}

impl From<AllocError> for WorkError {
    ghost from_gives = { λ _ e. e ≡ error.OutOfMemory };

    fn from(_e: AllocError) -> WorkError {
        WorkError::OutOfMemory
    }
}

impl<T: Drop> From<AllocFailed<T>> for WorkError {
    ghost from_gives = { λ _ e. e ≡ error.OutOfMemory };

    fn from(_e: AllocFailed<T>) -> WorkError {
        WorkError::OutOfMemory
    }
}
