//! What the queue holds.
use past_model::Entry;

/// What the queue holds: an entry, or at first the number of vertices that the entries' edits are about.
#[derive(Drop)]
pub(crate) struct Message {
    pub vertex_count: u32,
    pub entry: Entry,
}
