//! A set of at most 12 words that lies in place. No call of it takes memory.
#![tactic(auto)]

mod block;
pub mod laws;

pub use block::{PLACES, VertexBlock};
