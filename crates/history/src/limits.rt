//! How long a history may become.

/// How many publications a history may have: as many as its word of 64 bits counts.
pub const MOST_PUBLICATIONS: u64 = u64::MAX;
