//! An edge with its number.

/// An edge, and the number that a program exited with for it.
#[derive(Clone, Copy, Debug, PartialEq, Eq)]
pub struct ListedEdge {
    /// The vertex that the edge leaves.
    pub source: u32,
    /// The vertex that it leads to.
    pub target: u32,
    /// What the edge's run exits with.
    pub number: u64,
}
