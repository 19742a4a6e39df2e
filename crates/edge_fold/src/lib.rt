//! A verified program mapped over the edges of some vertices, and what its numbers reduce to. One thread
//! does it, in one pass over these edges.
#![tactic(auto)]

mod ahead;
mod blocks;
mod budget;
mod counted;
mod edge;
mod edgeless;
mod ends;
mod few;
mod fold;
mod kept;
pub mod laws;
mod map;
mod mapped;
mod memory;
mod numbering;
mod numbers_some;
mod outcome;
mod pairs;
mod parts;
mod pushes;
mod reducing;
mod rounds;
mod rows;
mod running;
mod some;
mod span;

pub use ahead::number_ahead;
pub use budget::{EDGE_COST, VERTEX_COST};
pub use edge::Edge;
pub use ends::columns_fit;
pub use map::{map_frontier, map_whole};
pub use map_model::{COLUMN_BYTES, EDGE_BYTES, MOST_COLUMNS, Progress, Reduction, Row};
pub use mapped::{Mapped, Request};
pub use memory::Memory;
pub use numbering::number_edges;
pub use numbers_some::number_some;
pub use outcome::MapOutcome;
pub use pairs::{Pairs, number_pairs};
pub use parts::map_some;
pub use pushes::{push_some, push_whole};
pub use reducing::{combine, nothing};
pub use rows::Rows;
pub use verifier::Verified;
pub use version::Version;
