//! How long the record and the table of a program may be. Clauses and definitions cite it by name.

/// The least length of a program's record, in bytes: an edge's own bytes, which come first.
pub const LEAST_RECORD_LENGTH: u16 = 16;

/// The greatest length of a program's record, in bytes.
pub const MOST_RECORD_LENGTH: u16 = 256;

/// The greatest length of a program's table, in bytes.
pub const MOST_TABLE_LENGTH: usize = 4096;
