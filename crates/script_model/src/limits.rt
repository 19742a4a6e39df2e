//! How much a script may have.

/// The greatest length of a line in bytes, its end left out.
pub const MOST_LINE_BYTES: usize = 80_000;

/// The greatest number of lines of a program in assembler text.
pub const MOST_PROGRAM_LINES: u32 = 65_536;
