//! A copy of a page's lists, in which one list after another is changed where it stands.
ghost use Rattle.std.specs.Prelude.{◌≡◌, ◌<◌, ◌≤◌, length, slice_index_or, slice_set, IsTrue, IfOk};
ghost use Rattle.word_sets.specs.Words.{IsSet};
ghost use Rattle.shards.specs.declared.pages.TheConstants.{PAGE_VERTICES};
ghost use Rattle.shards.specs.declared.lists.Place.TheVariants.{Nowhere, InShort, InBlock};
ghost use Rattle.shards.specs.Lists.{AreKept, AreSame, IsPutInBlock, rows_of};

use crate::lists::{Lists, Place};
use crate::pages::PAGE_VERTICES;
use crate::short_blocks::SHORT_PLACES;
use arrayvec::ArrayVec;
use neighbour_btree::NeighbourTree;
use std::alloc::{AllocError, Global};
use vertex_block::{PLACES, VertexBlock};

// The same places in other memory.
fn copied(places: &[Place]) -> ArrayVec<Place, PAGE_VERTICES>
    requires { length places.now ≤ PAGE_VERTICES }
    ensures { result.items ≡ places.now }
{
    let mut copy = ArrayVec::new();
    match copy.try_extend_from_slice(places) {
        Ok(()) => copy,
        Err(_) => unreachable!(),
    }
}

// Other owners of these trees.
fn shared(alloc: Global, trees: &[NeighbourTree]) -> Result<Vec<NeighbourTree>, AllocError>
    ensures { IfOk result (λ shared. shared.items ≡ trees.now) }
{
    let mut shared = Vec::with_capacity(alloc, trees.len())?;
    for tree in trees {
        shared.push(tree.share()?)?;
    }
    Ok(shared)
}

// Has a vertex's list stand elsewhere.
fn set_place(places: &mut ArrayVec<Place, PAGE_VERTICES>, vertex: usize, place: Place)
    requires { vertex < length places.old.items }
    ensures { places.new.items ≡ slice_set places.old.items vertex place }
{
    places[vertex] = place;
}

impl Lists {
    /// The same lists in other memory. Blocks and runs are copied as memory, and trees are shared.
    pub(crate) fn copy(&self, alloc: Global) -> Result<Lists, AllocError>
        requires { AreKept self.now }
        ensures { IfOk result (λ lists. AreSame self.now lists) }
    {
        let places = copied(&self.places);
        let shorts = self.shorts.copy(alloc)?;
        let blocks = Vec::from_slice(alloc, &self.blocks)?;
        let array = self.array.copy(alloc)?;
        let trees = shared(alloc, &self.trees)?;
        Ok(Lists {
            places,
            shorts,
            blocks,
            array,
            trees,
        })
    }

    // The first words of a list that stands nowhere. A short block holds them, if there is one more and it has room.
    fn put_first(&mut self, vertex: usize, words: &[u32]) -> Result<bool, AllocError>
        requires kept { AreKept self.old }
        requires inside { vertex < length (rows_of self.old) }
        requires own { slice_index_or self.old.places.items vertex Nowhere ≡ Nowhere }
        requires set { IsSet words.now }
        ensures { IfOk result (λ done. IsTrue done → IsPutInBlock self.old self.new vertex words.now) }
    {
        if words.is_empty() {
            return Ok(true);
        }
        let number = self.shorts.ends.len();
        if words.len() > SHORT_PLACES || number >= self.places.len() {
            return Ok(false);
        }
        self.shorts.push(words)?;
        set_place(&mut self.places, vertex, Place::InShort(number as u8));
        Ok(true)
    }

    // The words of a short block, if they fit.
    fn put_short(
        &mut self,
        alloc: Global,
        vertex: usize,
        number: u8,
        words: &[u32],
    ) -> Result<bool, AllocError>
        requires kept { AreKept self.old }
        requires inside { vertex < length (rows_of self.old) }
        requires own { slice_index_or self.old.places.items vertex Nowhere ≡ InShort number }
        requires set { IsSet words.now }
        ensures { IfOk result (λ done. IsTrue done → IsPutInBlock self.old self.new vertex words.now) }
    {
        if words.len() > SHORT_PLACES {
            return Ok(false);
        }
        self.shorts.replace(alloc, usize::from(number), words)?;
        Ok(true)
    }

    // The words of a block, if they fit.
    fn put_block(&mut self, vertex: usize, number: u8, words: &[u32]) -> bool
        requires kept { AreKept self.old }
        requires inside { vertex < length (rows_of self.old) }
        requires own { slice_index_or self.old.places.items vertex Nowhere ≡ InBlock number }
        requires set { IsSet words.now }
        ensures { IsTrue result → IsPutInBlock self.old self.new vertex words.now }
    {
        if words.len() > PLACES {
            return false;
        }
        self.blocks[usize::from(number)] = VertexBlock::of(words);
        true
    }

    /// Puts words in place of a vertex's list that is at home in its block, and answers whether they fit where it
    /// stands. Where they do not fit, the lists are as they were.
    pub(crate) fn put_words(
        &mut self,
        alloc: Global,
        vertex: usize,
        words: &[u32],
    ) -> Result<bool, AllocError>
        requires kept { AreKept self.old }
        requires inside { vertex < length (rows_of self.old) }
        requires set { IsSet words.now }
        ensures { IfOk result (λ done. IsTrue done → IsPutInBlock self.old self.new vertex words.now) }
    {
        match self.place(vertex) {
            Place::Nowhere => self.put_first(vertex, words),
            Place::InShort(number) => self.put_short(alloc, vertex, number, words),
            Place::InBlock(number) => Ok(self.put_block(vertex, number, words)),
            Place::InArray(_) => Ok(false),
            Place::InTree(_) => Ok(false),
        }
    }
}
