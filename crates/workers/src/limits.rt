//! How many workers there may be.
/// The most workers that there may be.
pub const MOST_WORKERS: u8 = 16;
