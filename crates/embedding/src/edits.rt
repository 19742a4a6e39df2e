//! Batches from arrays.
ghost use Rattle.std.specs.Prelude.{◌≡◌, length, IfOk};
ghost use Rattle.embedding.specs.Spelled.{spelled, edit_of};

use past_model::{Batch, Edit, Entry};
use std::alloc::{AllocError, Global};

/// Edits as three arrays: for each place an edge from a source to a target, which is put in, or taken out where
/// `removes` is not 0.
#[derive(Clone, Copy)]
pub struct Arrays<'a> {
    /// The vertex that each edge leaves.
    pub sources: &'a [u32],
    /// The vertex that each edge leads to.
    pub targets: &'a [u32],
    /// 0 where the edge is put in.
    pub removes: &'a [u8],
}

/// One of these edits.
fn edit_from(source: u32, target: u32, remove: u8) -> Edit
    ensures { result ≡ edit_of source target remove }
{
    if remove == 0 {
        Edit::Insert(source, target)
    } else {
        Edit::Remove(source, target)
    }
}

/// The edits, in order.
fn edits_of(alloc: Global, arrays: Arrays<'_>) -> Result<Vec<Edit>, AllocError>
    requires targets { length arrays.targets.now ≡ length arrays.sources.now }
    requires removes { length arrays.removes.now ≡ length arrays.sources.now }
    ensures { IfOk result (λ edits. edits.items
        ≡ spelled arrays.entry.sources.now arrays.entry.targets.now arrays.entry.removes.now) }
{
    let mut edits = Vec::with_capacity(alloc, arrays.sources.len())?;
    'edits: for at in 0..arrays.sources.len() {
        edits.push(edit_from(arrays.sources[at], arrays.targets[at], arrays.removes[at]))?;
    }
    Ok(edits)
}

/// The batch of these edits, with the feed that it comes by.
pub(crate) fn entry_of(alloc: Global, feed: u8, arrays: Arrays<'_>) -> Result<Entry, AllocError>
    requires targets { length arrays.targets.now ≡ length arrays.sources.now }
    requires removes { length arrays.removes.now ≡ length arrays.sources.now }
    ensures feed { IfOk result (λ entry. entry.feed ≡ feed) }
    ensures batch { IfOk result (λ entry. entry.batch
        ≡ spelled arrays.entry.sources.now arrays.entry.targets.now arrays.entry.removes.now) }
{
    let edits = edits_of(alloc, arrays)?;
    let batch = Batch::new(alloc, edits)?;
    Ok(Entry { feed, batch })
}
