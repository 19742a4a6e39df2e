//! The script language: what a script's bytes say, line by line, and what is written for them.
//! Definitions (in `specs/`) and the types that they name.
#![tactic(auto)]

mod ending;
mod limits;
mod line_fault;

pub use ending::Ending;
pub use limits::{MOST_LINE_BYTES, MOST_PROGRAM_LINES};
pub use line_fault::LineFault;
