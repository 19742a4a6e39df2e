//! A page after edits, in one of two ways.
ghost use Rattle.std.specs.Prelude.{◌≡◌, ◌+◌, ◌<◌, ◌≤◌, ◌++◌, ℕ, List, length, IfOk};
ghost use Rattle.past_model.specs.declared.home.Home.{Home};
ghost use Rattle.shards.specs.declared.groups.Grouping.TheVariants.{ByVertex};
ghost use Rattle.shards.specs.Begun.{AreBegun, IsNext, IsPageOf};
ghost use Rattle.shards.specs.Lists.{AreKept, rows_of, homes_of};
ghost use Rattle.shards.specs.Part.{Part};

use crate::copied_page::copied_page;
use crate::counts::Counts;
use crate::groups::Groups;
use crate::lists::Lists;
use crate::rebuilt_page::rebuilt_page;
use crate::scratch::Scratch;
use std::alloc::AllocError;

/// A page is rebuilt if more than one of so many of its vertices have edits; another one is copied, and changed in the copy.
const VERTICES_A_CHANGE: usize = 8;

/// A page of few vertices is copied all the same if no more than these have edits.
const LEAST_CHANGED: usize = 2;

/// The pages of a shard that gets more edits than these are rebuilt, too: as a rule some list gets so many that a copy would
/// be dropped.
const MOST_EDITS: usize = 128;

/// A page after the edits of its shard, where it begins at this vertex of it, and what the edits did to the lists up to
/// its end, where these are the counts of those before it. A page of which few vertices have edits is copied as memory.
pub(crate) fn edited_page(
    page: &Lists,
    first: usize,
    groups: &Groups<'_>,
    counts: Counts,
    scratch: &mut Scratch,
) -> Result<(Lists, Counts), AllocError>
    requires vertices { groups.now.grouping ≡ ByVertex }
    requires within { first + length (rows_of page.now) ≤ groups.now.count }
    requires kept { AreKept page.now }
    requires next { IsNext groups.now.edits first page.now counts }
    ensures kept { IfOk result (λ next. AreKept next.0) }
    ensures count { IfOk result (λ next. length (rows_of next.0) ≡ length (rows_of page.now)) }
    ensures begun { IfOk result (λ next. (p : Part) (rows : List (List ℕ)) (homes : List Home)
        → IsPageOf groups.now.edits p first page.now → length rows ≡ first
        → AreBegun groups.now.edits p rows homes counts
        → AreBegun groups.now.edits p (rows ++ rows_of next.0) (homes ++ homes_of next.0) next.1) }
{
    // Few edits are of few vertices, which need no count.
    let edits = groups.edit_count();
    let most = (page.count() / VERTICES_A_CHANGE).max(LEAST_CHANGED);
    if edits <= most
        || edits <= MOST_EDITS && groups.count_filled(first, first + page.count()) <= most
    {
        if let Some(next) = copied_page(page, first, groups, counts, scratch)? {
            return Ok(next);
        }
    }
    if let Some(linked) = groups.linked() {
        return rebuilt_page(page, first, &linked, counts, scratch);
    }
    let links = groups.link(scratch.alloc)?;
    let linked = groups.linked_by(&links);
    rebuilt_page(page, first, &linked, counts, scratch)
}
