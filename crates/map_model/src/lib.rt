//! What the map of a program over the edges of a graph is: the record of an edge, the numbers of all runs, and
//! what they reduce to. Definitions (in `specs/`), and the types that they name.
#![tactic(auto)]

pub mod laws;
mod limits;
mod listed_edge;
mod progress;
mod push;
mod reduction;
mod row;

pub use limits::{COLUMN_BYTES, EDGE_BYTES, MOST_COLUMNS};
pub use listed_edge::ListedEdge;
pub use progress::Progress;
pub use push::{count_changed, join_values, push_numbers};
pub use reduction::Reduction;
pub use row::Row;
