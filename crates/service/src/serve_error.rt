//! Why a script was not served to its end.

ghost use Rattle.std.specs.Prelude.{◌≡◌};

use script::ScriptError;
use std::alloc::AllocError;
use thiserror::Error;

/// Why a script was not served to its end.
#[derive(Clone, Copy, Debug, PartialEq, Eq, Error)]
pub enum ServeError {
    /// A read failed.
    #[error("a read failed")]
    Read = 1,
    /// A write failed.
    #[error("a write failed")]
    Write = 2,
    /// There is no memory for it.
    #[error("out of memory")]
    OutOfMemory = 3,
    /// A thread could not be started.
    #[error("a worker could not be started")]
    WorkerRefused = 4,
    /// A version cannot have one owner more, or the store did not answer as it should.
    #[error("a version cannot have one owner more")]
    Store = 5,
}

impl From<ScriptError> for ServeError {
    ghost use Rattle.service.specs.Rounds.{serve_error_of};

    ghost from_gives = { λ s e. e ≡ serve_error_of s };

    fn from(e: ScriptError) -> ServeError {
        match e {
            ScriptError::OutOfMemory => ServeError::OutOfMemory,
            ScriptError::WorkerRefused => ServeError::WorkerRefused,
            ScriptError::Store => ServeError::Store,
        }
    }
}

impl From<AllocError> for ServeError {
    ghost use Rattle.service.specs.declared.serve_error.ServeError.TheVariants.{OutOfMemory as NoMemory};

    ghost from_gives = { λ _ e. e ≡ NoMemory };

    fn from(_e: AllocError) -> ServeError {
        ServeError::OutOfMemory
    }
}
