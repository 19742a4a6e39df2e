//! A store over threads: four feeds submit batches, a publisher makes one version after another of them, and readers
//! pin versions.
#![tactic(auto)]

mod board;
mod committer;
mod errors;
mod feed;
mod finished;
mod pending;
mod pin;
mod publisher;
mod queue;
mod reader;
mod receipt;
mod recorded;
mod store;

pub use board::{NoPlace, PinError};
pub use errors::{PublishError, RebaseError, StoreError, SubmitCause, SubmitError};
pub use feed::Feed;
pub use finished::Finished;
pub use graph_model::GraphView;
pub use past_model::{Batch, Edit, Entry};
pub use pin::Pin;
pub use publisher::Publisher;
pub use reader::Reader;
pub use receipt::Receipt;
pub use store::{Ends, Store};
pub use version::{Cursor, Version};
pub use workers::{Gate, OpenGate, Workers};
