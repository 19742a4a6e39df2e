//! A page after few edits: a copy of it, in which each list that has edits is changed where it stands.
ghost use Rattle.std.specs.Prelude.{◌≡◌, ◌+◌, ◌<◌, ◌≤◌, [], length, slice_index_or, IfOk, IfSome};
ghost use Rattle.shards.specs.declared.groups.Grouping.TheVariants.{ByVertex};
ghost use Rattle.shards.specs.Begun.{IsNext, IsPageAfter};
ghost use Rattle.shards.specs.Groups.{edits_of};
ghost use Rattle.shards.specs.Lists.{AreKept, rows_of};
ghost use Rattle.shards.specs.Put.{AreOwnEdits, IsReplacedAfter};

use crate::counts::Counts;
use crate::groups::Groups;
use crate::in_place::edit_in_place;
use crate::lists::Lists;
use crate::scratch::Scratch;
use crate::single_edit::edited;
use std::alloc::AllocError;

// Puts the edits of a vertex into its list where it stands, and returns what they did, as `edit_in_place` does. The only edit of a
// batch takes no memory for itself where the list is at home in its block.
fn edit_vertex(
    lists: &mut Lists,
    place: usize,
    groups: &Groups<'_>,
    vertex: usize,
    scratch: &mut Scratch,
) -> Result<Option<Counts>, AllocError>
    requires kept { AreKept lists.old }
    requires inside { place < length (rows_of lists.old) }
    requires group { vertex < groups.now.count }
    requires edits { AreOwnEdits (edits_of groups.now vertex) (slice_index_or (rows_of lists.old) place []) }
    ensures { IfOk result (λ done. IfSome done (λ more.
        IsReplacedAfter (edits_of groups.now vertex) place more lists.old lists.new)) }
{
    if let Some(edit) = groups.single(vertex) {
        if let Some(targets) = lists.words_in_block(place) {
            let (words, more) = edited(targets, edit);
            let fits = lists.put_words(scratch.alloc, place, &words)?;
            return Ok(if fits { Some(more) } else { None });
        }
    }
    groups.read(vertex, &mut scratch.own)?;
    edit_in_place(scratch.alloc, lists, place, scratch)
}

/// A page after the edits of its shard, where it begins at this vertex of it, and what the edits did to the lists up to
/// its end, where these are the counts of those before it. `None` if a list has to move to another home, or does not fit
/// where it stands: the page then has to be rebuilt.
#[inline(never)]
pub(crate) fn copied_page(
    page: &Lists,
    first: usize,
    groups: &Groups<'_>,
    counts: Counts,
    scratch: &mut Scratch,
) -> Result<Option<(Lists, Counts)>, AllocError>
    requires vertices { groups.now.grouping ≡ ByVertex }
    requires within { first + length (rows_of page.now) ≤ groups.now.count }
    requires kept { AreKept page.now }
    requires next { IsNext groups.now.edits first page.now counts }
    ensures { IfOk result (λ done. IfSome done (λ next.
        IsPageAfter groups.now.edits first page.now counts next.0 next.1)) }
{
    let mut counts = counts;
    let mut lists = page.copy(scratch.alloc)?;
    let end = first + page.count();
    let mut vertex = groups.next_filled(first, end);
    while vertex < end {
        let place = vertex - first;
        let Some(more) = edit_vertex(&mut lists, place, groups, vertex, scratch)? else {
            return Ok(None);
        };
        counts = counts.plus(more);
        vertex = groups.next_filled(vertex + 1, end);
    }
    Ok(Some((lists, counts)))
}
