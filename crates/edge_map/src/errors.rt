//! Why a map gave no answer.
ghost use Rattle.std.specs.Prelude.{◌≡◌};
ghost use Rattle.edge_map.specs.Refused.{refused_as};

use thiserror::Error;
use workers::WorkError;

/// Why a map gave no answer.
#[derive(Clone, Copy, Debug, PartialEq, Eq, Error)]
pub enum MapError {
    /// The argument does not have the record's length less 16 bytes.
    #[error("the argument does not have the record's length less 16 bytes")]
    ArgumentLength = 1,
    /// The frontier does not strictly ascend, or has a vertex that the graph does not have.
    #[error("the frontier does not ascend, or has a vertex outside the graph")]
    Frontier = 2,
    /// There is no memory for the map.
    #[error("out of memory")]
    OutOfMemory = 3,
    /// A thread could not be started.
    #[error("a worker could not be started")]
    WorkerRefused = 4,
}

impl From<WorkError> for MapError {
    ghost from_gives = { λ error e. e ≡ refused_as error };

    fn from(error: WorkError) -> MapError {
        match error {
            WorkError::OutOfMemory => MapError::OutOfMemory,
            WorkError::WorkerRefused => MapError::WorkerRefused,
        }
    }
}
