//! What a history is a list of.
use past_model::Entry;

/// What a store publishes. The history stands in the proofs alone, so no value of it is made.
#[derive(Drop)]
pub enum Published {
    /// A batch, which makes the log longer.
    Batch(Entry),
    /// A rebase, which begins a new epoch.
    Rebase,
}
