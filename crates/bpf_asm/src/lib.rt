//! An assembler's text and the code that it means.
#![tactic(auto)]

mod errors;
pub mod laws;
mod reading;
mod writing;

pub use errors::{AssembleError, DisassembleError, TextCause};
pub use reading::assembler::assemble;
pub use writing::disassembler::disassemble;
pub use writing::placed::{Placed, Target};
pub use writing::statement_texts::put_statement;
