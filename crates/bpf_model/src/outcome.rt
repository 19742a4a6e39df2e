//! How a run ended.
use crate::trap::TrapKind;

/// How a run of a program ended.
#[derive(Clone, Copy, Debug, PartialEq, Eq)]
pub enum Outcome {
    /// It exited with R0, after so many instructions, the exit counted.
    Exit { value: u64, steps: u64 },
    /// It was stopped at the instruction at `pc`, in units from the start of the code.
    Trap { kind: TrapKind, pc: i64 },
    /// All its fuel was used, and it had not ended.
    OutOfFuel,
}
