//! The log of a version.
ghost use Rattle.std.specs.Prelude.{◌≡◌, ◌+◌, ◌<◌, [], ◌∷◌, ◌++◌, length, slice_set, Some, IfOk};
ghost use Rattle.past_model.specs.declared.limits.TheConstants.{MOST_BATCHES};
ghost use Rattle.past_model.specs.Epochs.{mark_of, marked};
ghost use Rattle.past_model.specs.Shared.{shared_items};

use crate::chunks::{Chunks, shared_list, with_chunk};
use past_model::{Entry, FEEDS};
use std::alloc::{AllocError, Global};
use std::marker::Model;
use std::sync::Arc;

// How many entries a full chunk has.
const CHUNK: usize = 16;

/// Of each feed, from A on, how many batches came by it.
pub type Mark = [u64; FEEDS as usize];

/// The entries of a version, in order. Logs share the chunks that they have in common, and the list of
/// them: a longer log copies less than one chunk, and the list where a chunk becomes full.
#[derive(Drop)]
pub struct Log {
    full: Chunks<Entry>,
    // What comes after the full chunks.
    last: Vec<Entry>,
    len: u64,
    // Kept as the log grows, so that a rebase does not walk it.
    mark: Mark,
}

impl Model for Log {
    ghost use Rattle.std.specs.Prelude.{◌≡◌, List, length};
    ghost use Rattle.past_model.specs.declared.entry.Entry.{Entry};
    ghost use Rattle.past_model.specs.Shared.{shared_items};
    ghost use Rattle.past_model.specs.Epochs.{mark_of};
    ghost use Rattle.version.specs.Chunks.{items_of};

    ghost Value = { List Entry };

    ghost view = { λ l. items_of (shared_items l.full) l.last.items };

    ghost invariant = { λ l. (l.len ≡ length (items_of (shared_items l.full) l.last.items))
        × (l.mark ≡ mark_of (items_of (shared_items l.full) l.last.items)) };
}

impl Log {
    /// The log of no entries. It takes no memory.
    pub(crate) fn empty(alloc: Global) -> Log
        ensures { result ≡ [] }
    {
        Log {
            full: None,
            last: Vec::new(alloc),
            len: 0,
            mark: [0; FEEDS as usize],
        }
    }

    /// How many entries it has.
    pub(crate) fn len(&self) -> u64
        ensures { result ≡ length self.now }
    {
        self.len
    }

    /// Of each feed, how many of its batches came by it.
    pub(crate) fn mark(&self) -> Mark
        ensures { result ≡ mark_of self.now }
    {
        self.mark
    }

    /// The log with one entry more. This one stays.
    pub(crate) fn with(&self, alloc: Global, entry: Entry) -> Result<Log, AllocError>
        requires { length self.now < MOST_BATCHES }
        ensures { IfOk result (λ log. log ≡ self.now ++ entry ∷ []) }
    {
        let mark = counted(self.mark, entry.feed);
        let mut last = shared_entries(alloc, &self.last)?;
        last.push(entry)?;
        let len = self.len + 1;
        if last.len() < CHUNK {
            let full = shared_list(&self.full)?;
            return Ok(Log {
                full,
                last,
                len,
                mark,
            });
        }
        let full = with_chunk(alloc, &self.full, Arc::new(alloc, last)?)?;
        Ok(Log {
            full: Some(full),
            last: Vec::new(alloc),
            len,
            mark,
        })
    }
}

// A mark with one batch more of a feed. It counts nothing for a number that is no feed's.
fn counted(mark: Mark, feed: u8) -> Mark
    requires { marked mark feed < MOST_BATCHES }
    ensures { result ≡ slice_set mark feed (marked mark feed + 1) }
{
    let mut mark = mark;
    let place = usize::from(feed);
    if place < mark.len() {
        mark[place] += 1;
    }
    mark
}

// Entries of the same batches, in a list with room for one more.
// A function of its own: as part of the long function that makes a version each entry takes half as much again.
#[inline(never)]
fn shared_entries(alloc: Global, entries: &[Entry]) -> Result<Vec<Entry>, AllocError>
    ensures { IfOk result (λ copy. copy.items ≡ entries.now) }
{
    let mut copy = Vec::with_capacity(alloc, entries.len().saturating_add(1))?;
    for entry in entries {
        copy.push(entry.share()?)?;
    }
    Ok(copy)
}
