//! Where a vertex's words lie.

/// How many places a segment has.
pub const SEGMENT: usize = 32;

/// How many vertices an array can hold the words of.
pub const VERTICES: usize = 256;

/// A row of neighbouring segments, filled from the left: the first `count` of its places have words.
// Numbers of four bytes, since an array has a run or none for each of its vertices, and an edit of a page copies them all.
#[derive(Clone, Copy)]
pub struct Run {
    /// The number of its first segment in the array.
    pub segment: u32,
    /// How many segments it has.
    pub segments: u32,
    /// How many words it has.
    pub count: u32,
}
