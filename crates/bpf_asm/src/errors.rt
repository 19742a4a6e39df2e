//! What may be wrong with a text, or with code that is to become one.
ghost use Rattle.std.specs.Prelude.{◌≡◌};
ghost use Rattle.bpf_asm.specs.declared.errors.TextCause.TheVariants as causes;
ghost use Rattle.bpf_asm.specs.declared.errors.DisassembleError.TheVariants as disassembling;

use std::alloc::{AllocError, AllocFailed};
use thiserror::Error;

/// What is wrong with a line of a text.
#[derive(Clone, Copy, Debug, PartialEq, Eq, Error)]
pub enum TextCause {
    /// The line is not a word with arguments or a label, or they are not those of its word.
    #[error("the line is not a statement or a label")]
    Syntax = 1,
    /// No statement has this word.
    #[error("no statement has this word")]
    UnknownName = 2,
    /// The label stands on a line before.
    #[error("the label was defined before")]
    DoubleLabel = 3,
    /// No line has the label to which the statement goes.
    #[error("no line has this label")]
    UnknownLabel = 4,
    /// A number or a distance is outside its range.
    #[error("a number is outside its range")]
    NumberRange = 5,
    /// The code has more than 4,096 units with this line.
    #[error("the code has more than 4096 units")]
    TooLong = 6,
    /// There is no memory for the code.
    #[error("out of memory")]
    OutOfMemory = 7,
}

/// Why a text means no code.
#[derive(Clone, Copy, Debug, PartialEq, Eq, Error)]
#[error("line {line}: {cause}")]
pub struct AssembleError {
    /// The line, counted from 1. Where there is no memory it says nothing.
    pub line: usize,
    /// What is wrong with the line, or that there is no memory.
    pub cause: TextCause,
}

impl From<AllocError> for AssembleError {
    ghost from_gives = { λ _ e. e.cause ≡ causes.OutOfMemory };

    fn from(_e: AllocError) -> AssembleError {
        AssembleError {
            line: 0,
            cause: TextCause::OutOfMemory,
        }
    }
}

impl<T: Drop> From<AllocFailed<T>> for AssembleError {
    ghost from_gives = { λ _ e. e.cause ≡ causes.OutOfMemory };

    fn from(_e: AllocFailed<T>) -> AssembleError {
        AssembleError {
            line: 0,
            cause: TextCause::OutOfMemory,
        }
    }
}

/// Why code has no text.
#[derive(Clone, Copy, Debug, PartialEq, Eq, Error)]
pub enum DisassembleError {
    /// No instruction stands at this pc, which is the first such.
    #[error("no instruction at pc {0}")]
    BadCode(usize),
    /// The jump or local call at this pc, the first such, goes where no instruction starts.
    #[error("the jump at pc {0} goes where no instruction starts")]
    JumpOut(usize),
    /// The code has more than 32,768 bytes.
    #[error("the code has more than 32768 bytes")]
    TooLong,
    /// There is no memory for the text.
    #[error("out of memory")]
    OutOfMemory,
}

impl From<AllocError> for DisassembleError {
    ghost from_gives = { λ _ e. e ≡ disassembling.OutOfMemory };

    fn from(_e: AllocError) -> DisassembleError {
        DisassembleError::OutOfMemory
    }
}

impl<T: Drop> From<AllocFailed<T>> for DisassembleError {
    ghost from_gives = { λ _ e. e ≡ disassembling.OutOfMemory };

    fn from(_e: AllocFailed<T>) -> DisassembleError {
        DisassembleError::OutOfMemory
    }
}
