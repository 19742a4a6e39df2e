//! Why no instruction stands at a place.
use thiserror::Error;

/// Why no instruction stands at a place of the code. Where several apply, the first one is given.
#[derive(Clone, Copy, Debug, PartialEq, Eq, Error)]
pub enum DecodeError {
    /// Fewer than 8 bytes are left, or fewer than 16 for an instruction of two units.
    #[error("the code ends inside the instruction")]
    Truncated = 1,
    /// No instruction has this opcode with what the field beside it chooses.
    #[error("no instruction has this opcode")]
    UnknownOpcode = 2,
    /// A field that the instruction does not use is not zero.
    #[error("a field that is not used is not zero")]
    UnusedField = 3,
    /// A register field that the instruction uses is above 10.
    #[error("a register above r10")]
    BadRegister = 4,
    /// The second unit of a wide instruction has more than an immediate.
    #[error("the second unit of a wide instruction has more than an immediate")]
    BadWide = 5,
}
