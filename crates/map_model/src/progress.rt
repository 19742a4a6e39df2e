//! How far work over a frontier, or over pairs, has come.

/// Work under way that goes on from call to call: what it may still do, what is done, and where it goes on. It begins where
/// `vertex` and `place` are 0. It holds no reference, so it may be kept, sent or written down.
#[repr(C)]
#[derive(Clone, Copy, Debug, PartialEq, Eq)]
pub struct Progress {
    /// How much work the next call may do. It falls by what is done.
    pub budget: u64,
    /// How many edges, or pairs, have a number.
    pub edges: u64,
    /// What the numbers of these edges reduce to, for a run.
    pub total: u64,
    /// How many vertices of the frontier are done, or how many pairs. It is the place of the next one.
    pub vertex: u32,
    /// How many edges of the next vertex are done.
    pub place: u32,
}
