//! The pages of a range.
ghost use Rattle.std.specs.Prelude.{◌≡◌, ◌%◌, ◌<◌, ◌≤◌, [], length, replicate, slice_index_or, IfOk};
ghost use Rattle.past_model.specs.declared.limits.TheConstants.{RANGE_VERTICES};
ghost use Rattle.past_model.specs.declared.home.Home.TheVariants.{Block};
ghost use Rattle.shards.specs.Lists.{AreKept, rows_of, homes_of};
ghost use Rattle.shards.specs.Pages.{ArePages, rows_in, homes_in};

use crate::lists::Lists;
use crate::page_size::PageSize;
use std::alloc::{AllocError, Global};
use std::sync::Arc;

/// How many vertices a page has at most.
pub(crate) const PAGE_VERTICES: usize = 64;

/// The pages of a range as they were just made.
pub(crate) struct Cut {
    pub pages: Vec<Arc<Lists>>,
    /// How many vertices each page has but the last.
    pub size: PageSize,
    /// How many words they have, without those in trees.
    pub words: usize,
}

/// The pages of so many vertices without an edge.
pub(crate) fn empty_pages(alloc: Global, vertices: u16) -> Result<Vec<Arc<Lists>>, AllocError>
    requires few { vertices ≤ RANGE_VERTICES }
    ensures pages { IfOk result (λ pages. ArePages PAGE_VERTICES pages.items) }
    ensures rows { IfOk result (λ pages. rows_in pages.items ≡ replicate vertices []) }
    ensures homes { IfOk result (λ pages. homes_in pages.items ≡ replicate vertices Block) }
{
    let vertices = usize::from(vertices);
    let count = vertices.div_ceil(PAGE_VERTICES);
    let mut pages = Vec::with_capacity(alloc, count)?;
    for number in 0..count {
        let left = vertices - PAGE_VERTICES * number;
        let page = Lists::empty(alloc, left.min(PAGE_VERTICES));
        pages.push(Arc::new(alloc, page)?)?;
    }
    Ok(pages)
}

/// The page in which a vertex's list stands, at the vertex's remainder by the pages' size.
pub(crate) fn page_of(pages: &[Arc<Lists>], size: PageSize, vertex: usize) -> &Lists
    requires pages { ArePages size.vertices pages.now }
    requires inside { vertex < length (rows_in pages.now) }
    ensures kept { AreKept result.now }
    ensures inside { vertex % size.vertices < length (rows_of result.now) }
    ensures row { slice_index_or (rows_of result.now) (vertex % size.vertices) []
        ≡ slice_index_or (rows_in pages.now) vertex [] }
    ensures home { slice_index_or (homes_of result.now) (vertex % size.vertices) Block
        ≡ slice_index_or (homes_in pages.now) vertex Block }
{
    let number = size.page_of(vertex);
    &pages[number]
}
