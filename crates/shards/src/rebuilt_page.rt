//! A page after many edits: each list is put after the one before it, into new memory.
ghost use Rattle.std.specs.Prelude.{◌≡◌, ◌+◌, ◌<◌, ◌≤◌, ◌++◌, ℕ, List, length, IfOk};
ghost use Rattle.past_model.specs.declared.home.Home.{Home};
ghost use Rattle.shards.specs.declared.groups.Grouping.TheVariants.{ByVertex};
ghost use Rattle.shards.specs.Begun.{AreBegun, IsNext, IsPageOf};
ghost use Rattle.shards.specs.Lists.{AreKept, rows_of, homes_of};
ghost use Rattle.shards.specs.Part.{Part};

use crate::counts::Counts;
use crate::linked::Linked;
use crate::lists::Lists;
use crate::put_vertex::put_vertex;
use crate::scratch::Scratch;
use std::alloc::AllocError;

/// A page rebuilt with the edits of its shard, where it begins at this vertex of it, and what the edits did to the lists up to
/// its end, where these are the counts of those before it. Each changed list is made once.
pub(crate) fn rebuilt_page(
    page: &Lists,
    first: usize,
    groups: &Linked<'_>,
    counts: Counts,
    scratch: &mut Scratch,
) -> Result<(Lists, Counts), AllocError>
    requires vertices { groups.now.grouping ≡ ByVertex }
    requires within { first + length (rows_of page.now) ≤ groups.now.count }
    requires kept { AreKept page.now }
    requires next { IsNext groups.now.edits first page.now counts }
    ensures kept { IfOk result (λ next. AreKept next.0) }
    ensures count { IfOk result (λ next. length (rows_of next.0) ≡ length (rows_of page.now)) }
    ensures begun { IfOk result (λ next. (p : Part) (rows : List (List ℕ)) (homes : List Home)
        → IsPageOf groups.now.edits p first page.now → length rows ≡ first
        → AreBegun groups.now.edits p rows homes counts
        → AreBegun groups.now.edits p (rows ++ rows_of next.0) (homes ++ homes_of next.0) next.1) }
{
    let mut counts = counts;
    scratch.lists.clear();
    for place in 0..page.count() {
        let more = put_vertex(page, place, first + place, groups, scratch)?;
        counts = counts.plus(more);
    }
    let next = scratch.lists.taken(scratch.alloc)?;
    Ok((next, counts))
}
