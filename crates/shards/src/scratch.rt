//! The space in which the pages of shards are made.

use crate::buffer::Buffer;
use crate::lists::Lists;
use past_model::Edit;
use std::alloc::Global;

/// Space for the pages of shards that are made one after another, so that each takes just the memory that it needs. What it
/// holds between two shards means nothing.
pub struct Scratch {
    /// Where lists are made.
    pub(crate) alloc: Global,
    /// The lists of a page.
    pub(crate) lists: Lists,
    /// The edits of a vertex.
    pub(crate) own: Vec<Edit>,
    /// The words of a list that lies in more than one slice.
    pub(crate) gathered: Vec<u32>,
    /// The words of a list after its edits.
    pub(crate) merged: Buffer,
}

impl Drop for Scratch {
    // Written out, so that crates above prove a call here, and not the drop of each part.
    fn drop(self) {
        let Scratch {
            alloc: _,
            lists: _lists,
            own: _own,
            gathered: _gathered,
            merged: _merged,
        } = self;
    }
}

impl Scratch {
    /// Space that takes no memory yet: each part grows where a list needs it.
    pub fn new(alloc: Global) -> Scratch {
        Scratch {
            alloc,
            lists: Lists::new(alloc),
            own: Vec::new(alloc),
            gathered: Vec::new(alloc),
            merged: Buffer::new(alloc),
        }
    }
}
