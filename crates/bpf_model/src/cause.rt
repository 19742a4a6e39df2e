//! Which rule a program breaks.
use thiserror::Error;

/// Which of the verifier's rules a program breaks. The numbers are part of the script language.
#[derive(Clone, Copy, Debug, PartialEq, Eq, Error)]
pub enum Cause {
    /// No instruction stands there.
    #[error("no instruction")]
    BadInstruction = 1,
    /// A jump goes to no instruction, or out of its function.
    #[error("a jump goes to no instruction of its function")]
    JumpOut = 2,
    /// A jump goes back, or to itself.
    #[error("a jump goes back")]
    JumpBack = 3,
    /// A call goes to no instruction after itself.
    #[error("a call goes to no instruction after it")]
    CallTarget = 4,
    /// The last instruction of a function goes on after its end.
    #[error("the last instruction is no exit")]
    FallsOff = 5,
    /// Some walk through the code has more live stack frames than a run may have.
    #[error("a run may have too many stack frames")]
    TooDeep = 6,
    /// Some walk through the code counts more instructions than a run may have.
    #[error("a run may be too long")]
    TooLong = 7,
    /// A register is read of which nothing is known.
    #[error("an unset register is read")]
    UnsetRegister = 8,
    /// R10 is written.
    #[error("r10 is written")]
    FrameRegister = 9,
    /// A pointer is used where only a number may be, or a number where only a pointer may be.
    #[error("a pointer is used as a number, or a number as a pointer")]
    PointerUse = 10,
    /// An access, or a pointer, may lie outside the record, the table or the stack frame.
    #[error("an access may be out of range")]
    OutOfRange = 11,
    /// A stack byte is read that may not be set.
    #[error("an unset stack byte is read")]
    UnsetStackByte = 12,
    /// An argument of a helper is not what it has to be.
    #[error("an argument of a helper is not as it has to be")]
    HelperArgument = 13,
    /// A helper is called that does not exist.
    #[error("there is no such helper")]
    UnknownHelper = 14,
    /// The result of a function is a pointer.
    #[error("the result is a pointer")]
    ResultNotNumber = 15,
    /// There was no memory for what is known of the program.
    #[error("out of memory")]
    OutOfMemory = 16,
    /// A store, or gather, goes by a pointer into the table.
    #[error("the table is written")]
    ReadOnly = 17,
    /// The functions count too many instructions, each function once for every call of it in the code.
    #[error("there are too many calls to verify one by one")]
    TooManyPairs = 18,
}
