//! The levels of a tree: leaves of up to 64 words, and inner nodes of up to 64 children of the level below, which are a quarter full
//! or more. Nodes are shared by their owners, and one that is shared is never written.
mod change;
mod child;
mod fifth;
mod in_place;
mod inner;
mod leaf;
mod level;
mod lists;
mod rows;
mod search;
mod third;

pub(crate) use change::{Change, Grown};
pub(crate) use fifth::{Fifth, fifths};
pub(crate) use inner::Inner;
pub(crate) use leaf::Leaf;
pub(crate) use level::{Level, MOST};
pub(crate) use rows::{leaves, nodes};
pub(crate) use third::{Third, thirds};
