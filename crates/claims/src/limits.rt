//! How many may claim, and how often.

/// The parts of a counter. Whoever claims has one at least, and whoever has all of them knows all that was claimed.
pub const PARTS: u64 = 16;

/// How many numbers may be claimed with one part: 2^32. So a counter never comes round to 0.
pub const CLAIMS_OF_A_PART: u64 = 4_294_967_296;
