//! A set of words in a tree whose versions share their unchanged parts.
#![tactic(auto)]

pub mod laws;
mod levels;
mod root;
mod slices;
mod tree;

pub use slices::Slices;
pub use tree::NeighbourTree;
