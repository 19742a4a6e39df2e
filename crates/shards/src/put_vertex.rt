//! The list of a vertex after the edits of its shard, put last among those of a page that is being made.
ghost use Rattle.std.specs.Prelude.{◌≡◌, ◌<◌, [], length, slice_index_or, IfOk};
ghost use Rattle.past_model.specs.declared.home.Home.TheVariants.{Block};
ghost use Rattle.shards.specs.declared.groups.Grouping.TheVariants.{ByVertex};
ghost use Rattle.shards.specs.declared.pages.TheConstants.{PAGE_VERTICES};
ghost use Rattle.shards.specs.Begun.{IsSomeVertex, IsPutLast};
ghost use Rattle.shards.specs.Lists.{AreKept, rows_of, homes_of};

use crate::counts::Counts;
use crate::edited_vertex::push_edited;
use crate::linked::Linked;
use crate::lists::Lists;
use crate::scratch::Scratch;
use std::alloc::AllocError;

/// Puts the list of a vertex, which stands at a place of a page, after the lists in the scratch, as the edits of its shard
/// leave it, and returns what they did to it. A list without an edit is kept as it is.
// Part of the loops over pages, where a call for each list would count.
#[inline(always)]
pub(crate) fn put_vertex(
    page: &Lists,
    place: usize,
    vertex: usize,
    groups: &Linked<'_>,
    scratch: &mut Scratch,
) -> Result<Counts, AllocError>
    requires vertices { groups.now.grouping ≡ ByVertex }
    requires within { vertex < groups.now.count }
    requires kept { AreKept page.now }
    requires inside { place < length (rows_of page.now) }
    requires made { AreKept scratch.old.lists }
    requires room { length (rows_of scratch.old.lists) < PAGE_VERTICES }
    requires its { IsSomeVertex groups.now.edits vertex (slice_index_or (rows_of page.now) place [])
        (slice_index_or (homes_of page.now) place Block) }
    ensures { IfOk result (λ more. IsPutLast groups.now.edits vertex (slice_index_or (rows_of page.now) place [])
        (slice_index_or (homes_of page.now) place Block) more scratch.old.lists scratch.new.lists) }
{
    if groups.is_unedited(vertex) {
        scratch.lists.push_kept(page, place)?;
        return Ok(Counts::NONE);
    }
    groups.read(vertex, &mut scratch.own)?;
    let more = push_edited(scratch.alloc, page, place, scratch)?;
    Ok(more)
}
