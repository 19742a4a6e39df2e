//! What came of one instruction.
use bpf_model::TrapKind;

/// What came of one instruction.
#[derive(Clone, Copy)]
pub enum Turn {
    /// The run goes on.
    Went,
    /// It has exited with this number.
    Exited(u64),
    /// It was stopped, where it was and with the record as it was before the instruction.
    Trapped(TrapKind),
}
