//! A vertex with what its edges' numbers reduce to.
/// What the numbers of a vertex's edges reduce to.
#[derive(Clone, Copy, Debug, PartialEq, Eq)]
pub struct Row {
    /// The vertex.
    pub vertex: u32,
    /// What the numbers of its edges reduce to.
    pub value: u64,
}
