//! The pages of lists that stand in sorted arrays: each list is put into its home once.
ghost use Rattle.std.specs.Prelude.{◌≡◌, ◌+◌, ◌*◌, ◌<◌, ◌≤◌, length, IfOk};
ghost use Rattle.past_model.specs.declared.limits.TheConstants.{RANGE_VERTICES};
ghost use Rattle.shards.specs.declared.pages.TheConstants.{PAGE_VERTICES};
ghost use Rattle.shards.specs.Arrays.{AreLists, rows_from, homes_from};
ghost use Rattle.shards.specs.Lists.{AreKept, rows_of, homes_of};
ghost use Rattle.shards.specs.Pages.{ArePages, rows_in, homes_in};

use crate::lists::Lists;
use crate::page_size::PageSize;
use crate::pages::Cut;
use past_model::{ARRAY_MOST, Home};
use std::alloc::{AllocError, Global};
use std::sync::Arc;

/// The lists of vertices in sorted arrays: where each vertex's list begins, the end of all after the last one, and the
/// targets.
#[derive(Clone, Copy)]
pub struct SortedLists<'a> {
    /// Where each list begins, and where the last one ends.
    pub starts: &'a [u64],
    /// The targets of each vertex, ascending, one vertex after another.
    pub targets: &'a [u32],
}

// A page of the lists of so many vertices from one on, made in `page`, which keeps its room.
fn page_of_lists(
    alloc: Global,
    lists: SortedLists<'_>,
    first: usize,
    count: usize,
    page: &mut Lists,
) -> Result<Lists, AllocError>
    requires lists { AreLists lists.starts.now lists.targets.now }
    requires inside { first + count < length lists.starts.now }
    requires few { count ≤ PAGE_VERTICES }
    ensures kept { IfOk result (λ made. AreKept made) }
    ensures rows { IfOk result (λ made.
        rows_of made ≡ rows_from lists.entry.starts.now lists.entry.targets.now first count) }
    ensures homes { IfOk result (λ made.
        homes_of made ≡ homes_from lists.entry.starts.now lists.entry.targets.now first count) }
{
    let SortedLists { starts, targets } = lists;
    page.clear();
    for place in 0..count {
        let vertex = first + place;
        let words = &targets[starts[vertex] as usize..starts[vertex + 1] as usize];
        page.push(alloc, Home::Block.after(words.len() as u32), words)?;
    }
    page.taken(alloc)
}

// How many words the lists of so many vertices from one on have that are not at home in a tree.
fn words_of_lists(starts: &[u64], first: usize, vertices: usize) -> usize
    requires { first + vertices < length starts.now }
{
    let mut words = 0usize;
    for vertex in first..first + vertices {
        let degree = starts[vertex + 1].saturating_sub(starts[vertex]) as usize;
        if degree <= ARRAY_MOST as usize {
            words = words.saturating_add(degree);
        }
    }
    words
}

/// The pages of the lists of a range's vertices, where these are so many from one on.
pub(crate) fn pages_of_lists(
    alloc: Global,
    lists: SortedLists<'_>,
    first: usize,
    vertices: usize,
    page: &mut Lists,
) -> Result<Cut, AllocError>
    requires lists { AreLists lists.starts.now lists.targets.now }
    requires inside { first + vertices < length lists.starts.now }
    requires some { 0 < vertices }
    requires few { vertices ≤ RANGE_VERTICES }
    ensures pages { IfOk result (λ cut. ArePages cut.size.vertices cut.pages.items) }
    ensures rows { IfOk result (λ cut.
        rows_in cut.pages.items ≡ rows_from lists.entry.starts.now lists.entry.targets.now first vertices) }
    ensures homes { IfOk result (λ cut.
        homes_in cut.pages.items ≡ homes_from lists.entry.starts.now lists.entry.targets.now first vertices) }
{
    let words = words_of_lists(lists.starts, first, vertices);
    let size = PageSize::of(words, vertices);
    let width = usize::from(size.vertices);
    let count = vertices.div_ceil(width);
    let mut pages = Vec::with_capacity(alloc, count)?;
    for number in 0..count {
        let done = width * number;
        let own = (vertices - done).min(width);
        let made = page_of_lists(alloc, lists, first + done, own, page)?;
        pages.push(Arc::new(alloc, made)?)?;
    }
    Ok(Cut { pages, size, words })
}
