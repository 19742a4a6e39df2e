//! How much a session may have, besides what its graph and its batches may have.

/// The greatest number of programs that are kept, and of pins.
pub const MOST_KEPT: usize = 256;

/// The greatest number of columns that are kept. Each has eight bytes for each vertex.
pub const MOST_KEPT_COLUMNS: usize = 64;
