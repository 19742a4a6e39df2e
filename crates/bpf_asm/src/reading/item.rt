//! What a line of a text says.
use bpf_isa::{Comparison, Instruction, Operand, Register, Width};

/// A statement that goes to a label.
#[derive(Clone, Copy)]
pub enum Jumping {
    Near,
    Far,
    Call,
    Branch(Width, Comparison, Register, Operand),
}

/// What a line says.
#[derive(Clone, Copy)]
pub(crate) enum Item<'a> {
    Blank,
    Label(&'a [u8]),
    Plain(Instruction),
    /// It goes to the label of this name.
    Goes(Jumping, &'a [u8]),
}
