//! The BPF instruction set, conformance groups base64 and divmul64 of RFC 9669: what an instruction
//! is, and which bytes spell it.
#![tactic(auto)]

mod code_unit;
mod decode;
mod decode_error;
mod encoding;
mod instruction;
pub mod laws;
mod limits;
mod making;
mod register;
mod row;
mod row_table;

pub use decode::decode_at;
pub use decode_error::DecodeError;
pub use encoding::encode;
pub use instruction::{
    ByteOrder, Comparison, Distance, Extension, Instruction, Operand, Operation, SignedSize, Size,
    SwapBits, Width,
};
pub use limits::{MOST_CODE_BYTES, MOST_UNITS};
pub use register::Register;
