//! A vertex's list after its edits.
ghost use Rattle.std.specs.Prelude.{◌≡◌, ◌<◌, ℕ, Bool, [], length, filter, slice_index_or, IfOk};
ghost use Rattle.graph_model.specs.Graph.{numbers_below};
ghost use Rattle.shards.specs.Lists.{AreKept, rows_of};
ghost use Rattle.shards.specs.Merge.{AreEditsFrom, IsMerged};

use crate::buffer::Buffer;
use crate::counts::Counts;
use crate::lists::Lists;
use crate::merge::{merge, sort_by_target};
use past_model::Edit;
use std::alloc::AllocError;

/// Puts a vertex's words after its edits, in their order, into a list in place of what it held, and returns what
/// the edits did. The edits are sorted in place. A list that does not lie in one slice is first gathered.
#[inline(never)]
pub(crate) fn edited_list(
    lists: &Lists,
    vertex: usize,
    edits: &mut Vec<Edit>,
    gathered: &mut Vec<u32>,
    merged: &mut Buffer,
) -> Result<Counts, AllocError>
    requires kept { AreKept lists.now }
    requires inside { vertex < length (rows_of lists.now) }
    ensures { IfOk result (λ counts. (u n : ℕ) (p : ℕ → Bool) → AreEditsFrom u n edits.old.items
        → slice_index_or (rows_of lists.now) vertex [] ≡ filter p (numbers_below n)
        → IsMerged edits.old.items u n p merged.new counts) }
{
    sort_by_target(edits)?;
    let slice = lists.lent_at(vertex, 0);
    if slice.len() == lists.degree(vertex) as usize {
        let counts = merge(slice, edits, merged)?;
        return Ok(counts);
    }
    lists.read(vertex, gathered)?;
    let counts = merge(gathered, edits, merged)?;
    Ok(counts)
}
