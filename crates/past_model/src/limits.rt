//! The limits that several crates share. Clauses and definitions cite them by name.

/// How many vertices a graph may have. A vertex is a number below it.
pub const MOST_VERTICES: u32 = 268_435_456;

/// How many vertices a graph may have in a store with feeds and readers, in a session and in a script. It is at most
/// `MOST_VERTICES`.
pub const SERVED_VERTICES: u32 = 1_048_576;

/// How many vertices a range has: those from 256 times its number on. The last range of a graph may
/// have fewer.
pub const RANGE_VERTICES: u32 = 256;

/// How many ranges a graph may have: `MOST_VERTICES` divided by `RANGE_VERTICES`.
pub const MOST_RANGES: u32 = 1_048_576;

/// How many feeds hand in batches: A is 0, and D is 3.
pub const FEEDS: u8 = 4;

/// How many edits a batch may have.
pub const MOST_EDITS: usize = 65_536;

/// How many batches a log may have.
pub const MOST_BATCHES: u64 = 4_096;

/// How many epochs may end before a version, each by a rebase: as many as 64 bits count.
pub const MOST_EPOCHS: u64 = 18_446_744_073_709_551_615;

/// How many epochs may end in a store with feeds and readers, in a session and in a script. It is at most `MOST_EPOCHS`.
pub const SERVED_EPOCHS: u64 = 1_024;
