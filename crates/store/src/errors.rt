//! Why a store, a batch or a step is refused.
ghost use Rattle.std.specs.Prelude.{◌≡◌};
ghost use Rattle.store.specs.declared.errors.StoreError.TheVariants as opening;
ghost use Rattle.store.specs.Refused.{refused_as};

use past_model::Batch;
use std::alloc::{AllocError, AllocFailed};
use thiserror::Error;
use workers::WorkError;

/// Why no store was made.
#[derive(Clone, Copy, Debug, PartialEq, Eq, Error)]
pub enum StoreError {
    /// The number of vertices is not from 1 to 1,048,576.
    #[error("the number of vertices is not from 1 to 1048576")]
    VertexCount = 1,
    /// There is no memory for the first version, the queue or the readers.
    #[error("out of memory")]
    OutOfMemory = 2,
}

impl From<AllocError> for StoreError {
    ghost from_gives = { λ _ e. e ≡ opening.OutOfMemory };

    fn from(_e: AllocError) -> StoreError {
        StoreError::OutOfMemory
    }
}

impl<T: Drop> From<AllocFailed<T>> for StoreError {
    ghost from_gives = { λ _ e. e ≡ opening.OutOfMemory };

    fn from(_e: AllocFailed<T>) -> StoreError {
        StoreError::OutOfMemory
    }
}

/// Why a batch was not submitted.
#[derive(Clone, Copy, Debug, PartialEq, Eq, Error)]
pub enum SubmitCause {
    /// 64 batches wait in the queue.
    #[error("64 batches wait in the queue")]
    Full = 1,
    /// An edit names a vertex that the graph does not have.
    #[error("an edit names a vertex that the graph does not have")]
    VertexRange = 2,
    /// There are more than 65,536 edits.
    #[error("there are more than 65536 edits")]
    TooManyEdits = 3,
}

/// The reason why a batch was not submitted, and the batch.
#[derive(Debug, Drop)]
pub struct SubmitError {
    /// Why it was not submitted.
    pub cause: SubmitCause,
    /// The batch, as it was handed in.
    pub batch: Batch,
}

/// Why no batch was published.
#[derive(Clone, Copy, Debug, PartialEq, Eq, Error)]
pub enum PublishError {
    /// There is no memory for the next version. A batch that was taken is held, and is the next one that a step publishes.
    #[error("out of memory")]
    OutOfMemory = 1,
    /// 4,096 batches were published since the last rebase, and there is room for no more before the next one.
    #[error("4096 batches were published, and there is room for no more before a rebase")]
    LogFull = 2,
    /// A thread could not be started. The batch is held, and is the next one that a step publishes.
    #[error("a worker could not be started")]
    WorkerRefused = 3,
}

/// Why no rebase was published.
#[derive(Clone, Copy, Debug, PartialEq, Eq, Error)]
pub enum RebaseError {
    /// There is no memory for the next version. Nothing is changed.
    #[error("out of memory")]
    OutOfMemory = 1,
    /// 1,024 rebases were published, and there is room for no more.
    #[error("1024 rebases were published, and there is room for no more")]
    EpochsFull = 2,
}

impl From<WorkError> for PublishError {
    ghost from_gives = { λ error e. e ≡ refused_as error };

    fn from(error: WorkError) -> PublishError {
        match error {
            WorkError::OutOfMemory => PublishError::OutOfMemory,
            WorkError::WorkerRefused => PublishError::WorkerRefused,
        }
    }
}
