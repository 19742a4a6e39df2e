//! What the passes of the queue know. No value of it is ever made.
use past_model::Entry;
use std::collections::LinkedList;

/// What a pass knows: the first one, whether it has said how many vertices there are; one that takes, what was taken
/// and what it knows of the feeds; one of a feed, what the feed put.
pub(crate) struct QueueView {
    pub opens: bool,
    pub waits: bool,
    pub vertex_count: u32,
    pub takes: bool,
    pub taken: LinkedList<Entry>,
    pub made: u64,
    pub ended: LinkedList<LinkedList<Entry>>,
    pub feeds: bool,
    pub feed: u8,
    pub sent: LinkedList<Entry>,
}
