//! How numbers of edges become one number.
/// How the numbers of a vertex's edges become one number.
#[derive(Clone, Copy, Debug, PartialEq, Eq)]
pub enum Reduction {
    /// The least; 2^64 - 1 of none.
    Min,
    /// The greatest; 0 of none.
    Max,
    /// The sum modulo 2^64; 0 of none.
    Sum,
}
