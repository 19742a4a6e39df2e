//! What is left of a store that has ended.
use past_model::Entry;
use std::sync::Arc;
use version::Version;

/// What a store leaves when it ends.
pub struct Finished {
    /// The last version.
    pub last: Arc<Version>,
    /// The batch that was taken and was not published, where there is one.
    pub held: Option<Entry>,
    /// The batches that waited, in their order.
    pub left: Vec<Entry>,
}

impl Drop for Finished {
    // Written out, so that crates above prove a call here, and not the drop of each part.
    fn drop(self) {
        let Finished {
            last: _last,
            held: _held,
            left: _left,
        } = self;
    }
}
