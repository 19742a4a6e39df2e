//! How a script ends.

/// How a script ended.
#[derive(Clone, Copy, Debug, PartialEq, Eq)]
pub enum Ending {
    /// Every line was executed, and no block was left open.
    Complete,
    /// A line had a fault, which is the last line that was written.
    Fault,
}
