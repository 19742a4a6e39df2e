//! Why a line was not executed.

ghost use Rattle.std.specs.Prelude.{◌≡◌};
ghost use Rattle.script.specs.Executes.{line_error_of};
ghost use Rattle.script.specs.declared.error.LineError.TheVariants as errors;

use script_model::LineFault;
use session::CommandError;
use session_model::Fault;
use std::alloc::{AllocError, AllocFailed};
use thiserror::Error;

/// Why a line was not executed.
#[derive(Clone, Copy, Debug, PartialEq, Eq, Error)]
pub enum LineError {
    /// Something is wrong with the line.
    #[error("a line has a fault")]
    Fault(LineFault),
    /// There is no memory for it.
    #[error("out of memory")]
    OutOfMemory,
    /// A thread could not be started.
    #[error("a worker could not be started")]
    WorkerRefused,
    /// A version cannot have one owner more, or the store did not answer as it should.
    #[error("a version cannot have one owner more")]
    Store,
}

impl From<LineFault> for LineError {
    ghost from_gives = { λ fault e. e ≡ errors.Fault fault };

    fn from(fault: LineFault) -> LineError {
        LineError::Fault(fault)
    }
}

impl From<CommandError> for LineError {
    ghost from_gives = { λ error e. e ≡ line_error_of error };

    fn from(error: CommandError) -> LineError {
        match error {
            CommandError::Fault(fault) => LineError::Fault(LineFault::Command(fault)),
            CommandError::OutOfMemory => LineError::OutOfMemory,
            CommandError::WorkerRefused => LineError::WorkerRefused,
            CommandError::Store => LineError::Store,
        }
    }
}

impl From<AllocError> for LineError {
    ghost from_gives = { λ _ e. e ≡ errors.OutOfMemory };

    fn from(_e: AllocError) -> LineError {
        LineError::OutOfMemory
    }
}

impl<T: Drop> From<AllocFailed<T>> for LineError {
    ghost from_gives = { λ _ e. e ≡ errors.OutOfMemory };

    fn from(_e: AllocFailed<T>) -> LineError {
        LineError::OutOfMemory
    }
}

/// Why a script cannot go on, though its lines have no fault.
#[derive(Clone, Copy, Debug, PartialEq, Eq, Error)]
pub enum ScriptError {
    /// There is no memory for it.
    #[error("out of memory")]
    OutOfMemory,
    /// A thread could not be started.
    #[error("a worker could not be started")]
    WorkerRefused,
    /// A version cannot have one owner more, or the store did not answer as it should.
    #[error("a version cannot have one owner more")]
    Store,
}

impl From<AllocError> for ScriptError {
    ghost use Rattle.script.specs.declared.error.ScriptError.TheVariants.{OutOfMemory as NoMemory};

    ghost from_gives = { λ _ e. e ≡ NoMemory };

    fn from(_e: AllocError) -> ScriptError {
        ScriptError::OutOfMemory
    }
}

impl<T: Drop> From<AllocFailed<T>> for ScriptError {
    ghost use Rattle.script.specs.declared.error.ScriptError.TheVariants.{OutOfMemory as NoMemory};

    ghost from_gives = { λ _ e. e ≡ NoMemory };

    fn from(_e: AllocFailed<T>) -> ScriptError {
        ScriptError::OutOfMemory
    }
}
