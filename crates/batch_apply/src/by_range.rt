//! A batch's edits by ranges, as the batch alone determines them.
ghost use Rattle.std.specs.Prelude.{◌≡◌, IfOk, IfErr};
ghost use Rattle.batch_apply.specs.Splits.{IsSplitByRange};

use crate::errors::ApplyError;
use crate::grouped::linked;
use crate::runs::{cut, sorted};
use past_model::{Batch, Edit, MOST_VERTICES, are_below};
use std::alloc::{AllocError, Global};
use std::thread::Threads;

/// From so many edits on, threads sort them.
const SORTED_FROM: usize = 2_048;

/// The split by a sort in several threads.
fn threaded<R: Threads + Sync>(
    rt: &R,
    alloc: Global,
    edits: &[Edit],
) -> Result<Vec<(u32, Vec<Edit>)>, AllocError>
    ensures { IfOk result (λ pieces. IsSplitByRange edits.now pieces.items) }
{
    let ascending = sorted(rt, alloc, edits)?;
    cut(alloc, &ascending)
}

/// The split of some edits: by links if they are few and of vertices that a graph may have, else by a sort.
fn split_edits<R: Threads + Sync>(
    rt: &R,
    alloc: Global,
    edits: &[Edit],
) -> Result<Vec<(u32, Vec<Edit>)>, AllocError>
    ensures { IfOk result (λ pieces. IsSplitByRange edits.now pieces.items) }
{
    if edits.len() < SORTED_FROM && are_below(edits, MOST_VERTICES) {
        linked(alloc, edits)
    } else {
        threaded(rt, alloc, edits)
    }
}

/// Each range that a batch edits, once and ascending, with its edits in the batch's order. A batch may be of any length
/// and name any vertices. The only error is `OutOfMemory`. From 2,048 edits on threads sort them, and it may wait for
/// these; if no thread can be started, the caller's own sorts all.
pub fn split<R: Threads + Sync>(
    rt: &R,
    alloc: Global,
    batch: &Batch,
) -> Result<Vec<(u32, Vec<Edit>)>, ApplyError>
    ensures split { IfOk result (λ pieces. IsSplitByRange batch.now pieces.items) }
    ensures only { IfErr result (λ error. error ≡ ApplyError.OutOfMemory) }
{
    let pieces = split_edits(rt, alloc, batch.edits())?;
    Ok(pieces)
}
