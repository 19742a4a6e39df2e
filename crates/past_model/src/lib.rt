//! What a batch of edits, a log of batches and a version are, and where a vertex's list is kept. The store's
//! contracts speak in these words; here stand the definitions (in `specs/`), the types that they name, and
//! their laws.
#![tactic(auto)]

mod batch;
mod edit;
mod entry;
mod home;
pub mod laws;
mod limits;

pub use batch::Batch;
pub use edit::{Edit, are_below};
pub use entry::Entry;
pub use home::{ARRAY_MOST, ARRAY_RETURN, BLOCK_MOST, BLOCK_RETURN, Home};
pub use limits::{
    FEEDS, MOST_BATCHES, MOST_EDITS, MOST_EPOCHS, MOST_RANGES, MOST_VERTICES, RANGE_VERTICES,
    SERVED_EPOCHS, SERVED_VERTICES,
};
