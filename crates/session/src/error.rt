//! Why a command was not performed.

ghost use Rattle.std.specs.Prelude.{◌≡◌};
ghost use Rattle.session.specs.Runs.{map_error_of};
ghost use Rattle.session.specs.declared.error.CommandError.TheVariants as errors;

use edge_map::MapError;
use session_model::Fault;
use std::alloc::{AllocError, AllocFailed};
use thiserror::Error;

/// Why a command was not performed. After a fault the session is as it was.
#[derive(Clone, Copy, Debug, PartialEq, Eq, Error)]
pub enum CommandError {
    /// Something is wrong with the command.
    #[error("a command has a fault")]
    Fault(Fault),
    /// There is no memory for it. If it hands in a batch, one may be held, to be handed in again.
    #[error("out of memory")]
    OutOfMemory,
    /// A thread could not be started. If it hands in a batch, one may be held, to be handed in again.
    #[error("a worker could not be started")]
    WorkerRefused,
    /// A version cannot have one owner more, or the store did not answer as it should: it refused a batch or a pin, had no
    /// batch, or published or pinned another.
    #[error("a version cannot have one owner more")]
    Store,
}

impl From<MapError> for CommandError {
    ghost from_gives = { λ error e. e ≡ map_error_of error };

    fn from(error: MapError) -> CommandError {
        match error {
            MapError::ArgumentLength => CommandError::Fault(Fault::ArgumentLength),
            MapError::Frontier => CommandError::Fault(Fault::Frontier),
            MapError::OutOfMemory => CommandError::OutOfMemory,
            MapError::WorkerRefused => CommandError::WorkerRefused,
        }
    }
}

impl From<Fault> for CommandError {
    ghost from_gives = { λ fault e. e ≡ errors.Fault fault };

    fn from(fault: Fault) -> CommandError {
        CommandError::Fault(fault)
    }
}

impl From<AllocError> for CommandError {
    ghost from_gives = { λ _ e. e ≡ errors.OutOfMemory };

    fn from(_e: AllocError) -> CommandError {
        CommandError::OutOfMemory
    }
}

impl<T: Drop> From<AllocFailed<T>> for CommandError {
    ghost from_gives = { λ _ e. e ≡ errors.OutOfMemory };

    fn from(_e: AllocFailed<T>) -> CommandError {
        CommandError::OutOfMemory
    }
}
