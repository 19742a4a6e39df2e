//! All that the store does over time, as one function over lists of events: whatever their order, what it
//! answers and what it has then is what `store_model` says.
#![tactic(auto)]

mod execution;
mod held;
mod lend;
mod reader_run;
mod version_shards;
mod world;

pub use execution::{run, shards, step};
pub use store_model::{Event, Reply};
pub use world::World;
