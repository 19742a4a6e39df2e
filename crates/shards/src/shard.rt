//! A range's vertices with their lists, in one version.
ghost use Rattle.std.specs.Prelude.{◌≡◌, ◌↔◌, ◌+◌, ◌*◌, ◌<◌, ◌≤◌, ℕ, [], length, replicate, Contains, IsTrue, IfOk};
ghost use Rattle.past_model.specs.declared.home.Home.TheVariants.{Block};
ghost use Rattle.past_model.specs.declared.limits.TheConstants.{MOST_VERTICES, MOST_RANGES, RANGE_VERTICES};
ghost use Rattle.shards.specs.declared.groups.Grouping.TheVariants.{ByVertex};

use crate::arrays::{SortedLists, pages_of_lists};
use crate::counts::Counts;
use crate::edited_page::edited_page;
use crate::groups::{Grouping, Groups};
use crate::lists::Lists;
use crate::page_size::PageSize;
use crate::pages::{Cut, empty_pages, page_of};
use crate::put_vertex::put_vertex;
use crate::scratch::Scratch;
use crate::targets::Targets;
use past_model::{Edit, Home, MOST_VERTICES, RANGE_VERTICES};
use std::alloc::{AllocError, Global};
use std::marker::Model;
use std::sync::Arc;

/// A range of a graph's vertices in one version: its number, and for each of its vertices the
/// ascending list of its targets, in its home. It never changes after it was made.
pub struct Shard {
    range: u32,
    vertices: u16,
    // How many vertices each page has but the last.
    size: PageSize,
    // About how many words the pages have, without those in trees. Edits of trees count until the pages are cut anew.
    words: usize,
    pages: Vec<Arc<Lists>>,
}

impl Drop for Shard {
    // Written out, so that crates above prove a call here, and not the drop of each part.
    fn drop(self) {
        let Shard {
            range: _range,
            vertices: _vertices,
            size: _,
            words: _,
            pages: _pages,
        } = self;
    }
}

impl Model for Shard {
    ghost use Rattle.std.specs.Prelude.{◌≡◌, length};
    ghost use Rattle.shards.specs.Part.{Part, IsShard};
    ghost use Rattle.shards.specs.Pages.{part_in, rows_in, ArePages};

    ghost Value = { Part };

    ghost view = { λ s. part_in s.range s.pages.items };

    ghost invariant = { λ s. ArePages s.size.vertices s.pages.items
        × (s.vertices ≡ length (rows_in s.pages.items))
        × IsShard (part_in s.range s.pages.items) };
}

impl Shard {
    ghost use Rattle.shards.specs.Part.{row_at, home_at, IsShard, AreEditsOf, IsPartAfter, AreCounts, AreHomesAfter};
    ghost use Rattle.shards.specs.Lent.{IsLentAt};
    ghost use Rattle.shards.specs.Arrays.{AreLists, part_from};

    /// A range of so many vertices, without an edge.
    pub fn new(alloc: Global, range: u32, vertices: u16) -> Result<Shard, AllocError>
        requires range { range < MOST_RANGES }
        requires some { 1 ≤ vertices }
        requires few { vertices ≤ RANGE_VERTICES }
        ensures { IfOk result (λ shard. shard ≡ record {
          range = range;
          rows = replicate vertices [];
          homes = replicate vertices Block;
        }) }
    {
        let pages = empty_pages(alloc, vertices)?;
        Ok(Shard {
            range,
            vertices,
            size: PageSize::greatest(),
            words: 0,
            pages,
        })
    }

    /// A range of so many vertices with the lists that sorted arrays have of them, made in space that is lent. Each list
    /// is in the home to which its degree leads from a block.
    pub fn of_lists(
        alloc: Global,
        range: u32,
        vertices: u16,
        lists: SortedLists<'_>,
        scratch: &mut Scratch,
    ) -> Result<Shard, AllocError>
        requires range { range < MOST_RANGES }
        requires some { 1 ≤ vertices }
        requires few { vertices ≤ RANGE_VERTICES }
        requires lists { AreLists lists.starts.now lists.targets.now }
        requires inside { RANGE_VERTICES * range + vertices < length lists.starts.now }
        ensures { IfOk result (λ shard.
            shard ≡ part_from lists.entry.starts.now lists.entry.targets.now range vertices) }
    {
        let first = (RANGE_VERTICES * range) as usize;
        let page = &mut scratch.lists;
        let cut = pages_of_lists(alloc, lists, first, usize::from(vertices), page)?;
        let Cut { pages, size, words } = cut;
        Ok(Shard {
            range,
            vertices,
            size,
            words,
            pages,
        })
    }

    /// The range after a batch of edits of its vertices, to vertices that a graph may have, and what the
    /// edits did. This shard stays, and the next one shares the pages that no edit is of. It takes one
    /// pass over an edited page, and a second one if its copy cannot keep a list where it stands. If the shard has got many
    /// more words than its pages were cut for, or far fewer, the next one shares none.
    pub fn apply(&self, alloc: Global, edits: &[Edit]) -> Result<(Shard, Counts), AllocError>
        requires { AreEditsOf self.now edits.now }
        ensures after { IfOk result (λ next. IsPartAfter edits.now self.now next.0) }
        ensures counts { IfOk result (λ next. AreCounts edits.now self.now next.1) }
        ensures homes { IfOk result (λ next. AreHomesAfter self.now next.0) }
    {
        self.apply_in(alloc, edits, &mut Scratch::new(alloc))
    }

    /// The same, in space that is lent.
    pub(crate) fn apply_in(
        &self,
        alloc: Global,
        edits: &[Edit],
        scratch: &mut Scratch,
    ) -> Result<(Shard, Counts), AllocError>
        requires { AreEditsOf self.now edits.now }
        ensures after { IfOk result (λ next. IsPartAfter edits.now self.now next.0) }
        ensures counts { IfOk result (λ next. AreCounts edits.now self.now next.1) }
        ensures homes { IfOk result (λ next. AreHomesAfter self.now next.0) }
    {
        let vertices = usize::from(self.vertices);
        let groups = Groups::of(alloc, Grouping::ByVertex, vertices, edits)?;
        if !self.size.is_kept(self.words, vertices) {
            return self.cut_anew(alloc, &groups, scratch);
        }
        let size = self.size;
        let mut pages = Vec::with_capacity(alloc, self.pages.len())?;
        let mut counts = Counts::NONE;
        for (number, page) in self.pages.iter().enumerate() {
            let first = usize::from(size.vertices) * number;
            if groups.are_empty(first, first + page.count()) {
                pages.push(Arc::try_clone(page)?)?;
                continue;
            }
            let (next, done) = edited_page(page, first, &groups, counts, scratch)?;
            pages.push(Arc::new(alloc, next)?)?;
            counts = done;
        }
        let next = Shard {
            range: self.range,
            vertices: self.vertices,
            size,
            words: counts.words_after(self.words),
            pages,
        };
        Ok((next, counts))
    }

    // The same where pages of another size are made. Each list is put into new memory.
    fn cut_anew(
        &self,
        alloc: Global,
        groups: &Groups<'_>,
        scratch: &mut Scratch,
    ) -> Result<(Shard, Counts), AllocError>
        requires vertices { groups.now.grouping ≡ ByVertex }
        requires within { length self.now.rows ≤ groups.now.count }
        requires edits { AreEditsOf self.now groups.now.edits }
        ensures after { IfOk result (λ next. IsPartAfter groups.now.edits self.now next.0) }
        ensures counts { IfOk result (λ next. AreCounts groups.now.edits self.now next.1) }
        ensures homes { IfOk result (λ next. AreHomesAfter self.now next.0) }
    {
        let words = self.words_in_pages();
        let vertices = usize::from(self.vertices);
        let size = PageSize::of(words, vertices);
        let links = groups.link(alloc)?;
        let linked = groups.linked_by(&links);
        let mut pages = Vec::new(alloc);
        let mut counts = Counts::NONE;
        scratch.lists.clear();
        for vertex in 0..vertices {
            let page = page_of(&self.pages, self.size, vertex);
            let place = self.size.place_of(vertex);
            let more = put_vertex(page, place, vertex, &linked, scratch)?;
            counts = counts.plus(more);
            let made = scratch.lists.count();
            if made == usize::from(size.vertices) || vertex + 1 == vertices {
                let page = scratch.lists.taken(alloc)?;
                pages.push(Arc::new(alloc, page)?)?;
                scratch.lists.clear();
            }
        }
        let next = Shard {
            range: self.range,
            vertices: self.vertices,
            size,
            words: counts.words_after(words),
            pages,
        };
        Ok((next, counts))
    }

    // How many words the lists have that are not at home in a tree.
    fn words_in_pages(&self) -> usize {
        let mut words = 0usize;
        for vertex in 0..self.vertices {
            let vertex = vertex as u8;
            if self.home(vertex) != Home::Tree {
                words = words.saturating_add(self.degree(vertex) as usize);
            }
        }
        words
    }

    /// Its range's number: its first vertex's, divided by 256.
    pub fn range(&self) -> u32
        ensures value { result ≡ self.now.range }
        ensures small { result < MOST_RANGES }
    {
        self.range
    }

    /// How many vertices it has: from 1 to 256.
    pub fn vertex_count(&self) -> u16
        ensures value { result ≡ length self.now.rows }
        // The lists of a shard are those of a graph.
        ensures shard { IsShard self.now }
    {
        self.vertices
    }

    /// The home of a vertex's list, where `vertex` counts from the range's first.
    pub fn home(&self, vertex: u8) -> Home
        requires { vertex < length self.now.rows }
        ensures { result ≡ home_at self.now vertex }
    {
        let vertex = usize::from(vertex);
        page_of(&self.pages, self.size, vertex).home(self.size.place_of(vertex))
    }

    /// How many targets a vertex has, where `vertex` counts from the range's first.
    pub fn degree(&self, vertex: u8) -> u32
        requires { vertex < length self.now.rows }
        ensures value { result ≡ length (row_at self.now vertex) }
        ensures small { result ≤ MOST_VERTICES }
    {
        let vertex = usize::from(vertex);
        page_of(&self.pages, self.size, vertex).degree(self.size.place_of(vertex))
    }

    /// How many vertices in a row have no target, from one on.
    pub fn edgeless_from(&self, vertex: u8) -> u32
        requires { vertex < length self.now.rows }
        // None of them has one, and the next vertex of the shard has some.
        ensures inside { vertex + result ≤ length self.now.rows }
        ensures none { (k : ℕ) → k < result → length (row_at self.now (vertex + k)) ≡ 0 }
        ensures next { vertex + result < length self.now.rows → 0 < length (row_at self.now (vertex + result)) }
    {
        let first = u16::from(vertex);
        let mut next = first;
        'vertices: while next < self.vertices {
            if self.degree(next as u8) > 0 {
                break;
            }
            next += 1;
        }
        u32::from(next - first)
    }

    /// A vertex's targets from a place on, as many as lie side by side. How a list is cut into such slices
    /// is left open.
    pub fn lent_at(&self, vertex: u8, place: u32) -> &[u32]
        requires { vertex < length self.now.rows }
        ensures lent { IsLentAt (row_at self.now vertex) place result.now }
        ensures small { length (row_at self.now vertex) ≤ MOST_VERTICES }
    {
        let vertex = usize::from(vertex);
        page_of(&self.pages, self.size, vertex).lent_at(self.size.place_of(vertex), place)
    }

    /// A vertex's targets.
    pub fn targets(&self, vertex: u8) -> Targets<'_>
        requires { vertex < length self.now.rows }
        ensures { result ≡ row_at self.now vertex }
    {
        let vertex = usize::from(vertex);
        Targets {
            page: page_of(&self.pages, self.size, vertex),
            vertex: self.size.place_of(vertex) as u8,
            place: 0,
        }
    }

    /// Whether a vertex has a target.
    pub fn has_target(&self, vertex: u8, target: u64) -> bool
        requires { vertex < length self.now.rows }
        ensures { IsTrue result ↔ Contains (row_at self.now vertex) target }
    {
        let vertex = usize::from(vertex);
        let page = page_of(&self.pages, self.size, vertex);
        if target >= u64::from(MOST_VERTICES) {
            return false;
        }
        page.contains(self.size.place_of(vertex), target as u32)
    }
}
