//! What a graph in shards answers: a vertex's neighbours lent in place, slice by slice, and single
//! questions after them. Nothing here takes memory.
#![tactic(auto)]

mod answers;
mod cursor;
mod place;
mod words;

pub use answers::{degree, edgeless_from, has_edge, neighbour};
pub use cursor::Cursor;
pub use words::gather;
