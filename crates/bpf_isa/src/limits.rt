//! How long the code of a program may be. Clauses and definitions cite it by name.

/// How many units of code a program may have.
pub const MOST_UNITS: usize = 4_096;

/// How many bytes of code a program may have: those of its units.
pub const MOST_CODE_BYTES: usize = 8 * MOST_UNITS;
