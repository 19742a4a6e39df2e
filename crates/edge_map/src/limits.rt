//! How large pieces of work and blocks of edges are.

/// The places of a frontier that are one piece of work, but for the last piece, which may have fewer.
pub const PIECE_VERTICES: usize = 64;

/// The edges of a list that are one block, but for the last block, which may have fewer.
pub const BLOCK_EDGES: usize = 4_096;

/// About how many places of a frontier are weighed to cut it, at most.
pub(crate) const MOST_WEIGHED: usize = 16_384;

/// A push of an edge costs about as much as so many vertices of an array of a worker's own.
pub(crate) const PUSHES_OF_AN_EDGE: u64 = 4;
