//! Ranges of a graph's vertices under edit: a shard is one range as it stands in a version, and a batch
//! makes the next one of it, which shares the lists that it does not change. Nothing here knows a graph's other ranges.
#![tactic(auto)]

mod arrays;
mod buffer;
mod copied_page;
mod counts;
mod edited;
mod edited_page;
mod edited_run;
mod edited_shard;
mod edited_tree;
mod edited_vertex;
mod groups;
mod in_place;
mod linked;
mod lists;
mod lists_changed;
mod merge;
mod nearby;
mod page_size;
mod pages;
mod put_vertex;
mod rebuilt_page;
mod scratch;
mod shard;
mod short_blocks;
mod single_edit;
mod targets;

pub use arrays::SortedLists;
pub use counts::Counts;
pub use edited_shard::EditedShard;
pub use groups::{Grouping, Groups};
pub use scratch::Scratch;
pub use shard::Shard;
pub use targets::Targets;
