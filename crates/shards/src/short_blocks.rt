//! The blocks of lists of few words, which take no more room than these.
ghost use Rattle.std.specs.Prelude.{◌≡◌, ◌+◌, ◌^◌, ◌<◌, ◌≤◌, ◌++◌, ◌∷◌, ℕ, [], length, take, drop, slice_index, IfOk};
ghost use Rattle.shards.specs.declared.pages.TheConstants.{PAGE_VERTICES};
ghost use Rattle.word_sets.specs.Words.{IsSet};
ghost use Rattle.shards.specs.ShortBlocks.{ArePacked, AreShifted, IsSetPut, set_at};

use crate::nearby::push_words;
use crate::pages::PAGE_VERTICES;
use arrayvec::ArrayVec;
use std::alloc::{AllocError, Global};
use std::mem;

/// The most words of a short block.
pub(crate) const SHORT_PLACES: usize = 6;

/// Sets of at most [`SHORT_PLACES`] words, one after another.
#[derive(Drop)]
pub(crate) struct ShortBlocks {
    /// The words of all sets.
    pub words: Vec<u32>,
    /// Where each set's words end.
    pub ends: ArrayVec<u16, PAGE_VERTICES>,
}

// Words with those from `start` to `end` replaced, in just the room that they need.
fn spliced(
    alloc: Global,
    old: &[u32],
    start: usize,
    end: usize,
    words: &[u32],
) -> Result<Vec<u32>, AllocError>
    requires order { start ≤ end }
    requires within { end ≤ length old.now }
    ensures { IfOk result (λ new. new.items ≡ take start old.now ++ (words.now ++ drop end old.now)) }
{
    let before = &old[..start];
    let behind = &old[end..];
    let mut new = Vec::with_capacity(alloc, before.len() + words.len() + behind.len())?;
    new.extend_from_slice(before)?;
    new.extend_from_slice(words)?;
    new.extend_from_slice(behind)?;
    Ok(new)
}

// The same words, with room for one more behind them. No words take no memory.
fn with_room(alloc: Global, words: &[u32]) -> Result<Vec<u32>, AllocError>
    ensures { IfOk result (λ copy. copy.items ≡ words.now) }
{
    if words.is_empty() {
        return Ok(Vec::new(alloc));
    }
    let mut copy = Vec::with_capacity(alloc, words.len().saturating_add(1))?;
    copy.extend_from_slice(words)?;
    Ok(copy)
}

// The same ends in other memory.
fn copied(ends: &[u16]) -> ArrayVec<u16, PAGE_VERTICES>
    requires { length ends.now ≤ PAGE_VERTICES }
    ensures { result.items ≡ ends.now }
{
    let mut copy = ArrayVec::new();
    match copy.try_extend_from_slice(ends) {
        Ok(()) => copy,
        Err(_) => unreachable!(),
    }
}

// Moves the ends from one on, where so many words went before them and so many came.
fn shift(ends: &mut ArrayVec<u16, PAGE_VERTICES>, from: usize, gone: u16, come: u16)
    requires gone { (k : ℕ) → from ≤ k → k < length ends.old.items → gone ≤ slice_index ends.old.items k }
    requires come { (k : ℕ) → from ≤ k → k < length ends.old.items
        → slice_index ends.old.items k + come < 2 ^ 16 }
    ensures { AreShifted from gone come ends.old.items ends.new.items }
{
    for place in from..ends.len() {
        ends[place] = ends[place] - gone + come;
    }
}

impl ShortBlocks {
    /// No set.
    pub(crate) fn new(alloc: Global) -> ShortBlocks
        ensures words { result.words.items ≡ [] }
        ensures ends { result.ends.items ≡ [] }
    {
        ShortBlocks {
            words: Vec::new(alloc),
            ends: ArrayVec::new(),
        }
    }

    /// Takes all sets away, and keeps their room.
    pub(crate) fn clear(&mut self)
        ensures words { self.new.words.items ≡ [] }
        ensures ends { self.new.ends.items ≡ [] }
    {
        self.words.clear();
        self.ends.clear();
    }

    /// The same sets, in no more room than they need. What is left is to be cleared.
    pub(crate) fn taken(&mut self, alloc: Global) -> Result<ShortBlocks, AllocError>
        ensures words { IfOk result (λ taken. taken.words.items ≡ self.old.words.items) }
        ensures ends { IfOk result (λ taken. taken.ends.items ≡ self.old.ends.items) }
    {
        Ok(ShortBlocks {
            words: Vec::from_slice(alloc, &self.words)?,
            ends: mem::replace(&mut self.ends, ArrayVec::new()),
        })
    }

    /// The same sets in other memory, with room for a word more: the copy's next set has one as a rule.
    pub(crate) fn copy(&self, alloc: Global) -> Result<ShortBlocks, AllocError>
        ensures words { IfOk result (λ copy. copy.words.items ≡ self.now.words.items) }
        ensures ends { IfOk result (λ copy. copy.ends.items ≡ self.now.ends.items) }
    {
        Ok(ShortBlocks {
            words: with_room(alloc, &self.words)?,
            ends: copied(&self.ends),
        })
    }

    /// A set's words, ascending.
    pub(crate) fn words(&self, number: usize) -> &[u32]
        requires packed { ArePacked self.now }
        requires inside { number < length self.now.ends.items }
        ensures words { result.now ≡ set_at self.now number }
        ensures set { IsSet result.now }
        ensures short { length result.now ≤ SHORT_PLACES }
    {
        let start = if number == 0 {
            0
        } else {
            usize::from(self.ends[number - 1])
        };
        &self.words[start..usize::from(self.ends[number])]
    }

    /// Puts a set after the others.
    pub(crate) fn push(&mut self, words: &[u32]) -> Result<(), AllocError>
        requires packed { ArePacked self.old }
        requires room { length self.old.ends.items < PAGE_VERTICES }
        requires short { length words.now ≤ SHORT_PLACES }
        ensures words { IfOk result (λ _. self.new.words.items ≡ self.old.words.items ++ words.now) }
        ensures ends { IfOk result (λ _. self.new.ends.items
            ≡ self.old.ends.items ++ (length self.old.words.items + length words.now) ∷ []) }
    {
        push_words(&mut self.words, words)?;
        self.ends.push(self.words.len() as u16);
        Ok(())
    }

    /// Puts a set in place of one of these, and leaves all others.
    pub(crate) fn replace(
        &mut self,
        alloc: Global,
        number: usize,
        words: &[u32],
    ) -> Result<(), AllocError>
        requires packed { ArePacked self.old }
        requires inside { number < length self.old.ends.items }
        requires set { IsSet words.now }
        requires short { length words.now ≤ SHORT_PLACES }
        ensures { IfOk result (λ _. IsSetPut self.old self.new number words.now) }
    {
        let gone = self.words(number).len();
        let end = usize::from(self.ends[number]);
        self.words = spliced(alloc, &self.words, end - gone, end, words)?;
        shift(&mut self.ends, number, gone as u16, words.len() as u16);
        Ok(())
    }
}
