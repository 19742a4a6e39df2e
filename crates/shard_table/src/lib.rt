//! The table of a graph's shards, in blocks that tables share. A batch makes the next table, which shares the blocks and
//! shards that it does not edit.
#![tactic(auto)]

mod arrays;
mod block;
mod letting_go;
mod shard_list;
mod table;
mod width;

pub use shard_list::{empty_shards, shard_of, share_shards};
pub use table::Table;
