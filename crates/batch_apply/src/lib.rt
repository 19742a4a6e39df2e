//! A batch of edits on the shards of a graph, by several workers.
#![tactic(auto)]

mod apply;
mod by_range;
mod edited;
mod errors;
mod grouped;
mod hands;
mod one_range;
mod pieces;
mod runs;

pub use apply::apply_batch;
pub use by_range::split;
pub use edited::{edit_table, edit_table_alone};
pub use errors::ApplyError;
