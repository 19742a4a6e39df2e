//! The tree and its calls.
ghost use Rattle.std.specs.Prelude.{◌≡◌, ◌<◌, [], length, not, IfOk, OnOk, OnErr};
ghost use Rattle.word_sets.specs.Words.{IsSet, has_word, with_word, without_word};
ghost use Rattle.neighbour_btree.specs.Changes.{IsSliceAt};

use crate::levels::{Change, Leaf, MOST};
use crate::root::Root;
use crate::slices::Slices;
use std::alloc::{AllocError, Global};
use std::marker::Model;
use word_sets::WORD_LIMIT;

/// A set of words, each below `WORD_LIMIT`, in a tree of at most seven levels. Clauses see it as the ascending list of
/// its words.
pub struct NeighbourTree {
    root: Root,
}

impl Drop for NeighbourTree {
    // Written out, so that crates above prove a call here, and not the drop of each part.
    fn drop(self) {
        let NeighbourTree { root: _root } = self;
    }
}

impl Model for NeighbourTree {
    ghost use Rattle.std.specs.Prelude.{List, ℕ};

    ghost Value = { List ℕ };

    ghost use Rattle.neighbour_btree.specs.Root.{words_of, IsRoot};

    ghost view = { λ t. words_of t.root };

    ghost invariant = { λ t. IsRoot t.root };
}

impl NeighbourTree {
    /// The empty set.
    pub fn new(alloc: Global) -> Result<NeighbourTree, AllocError>
        ensures { IfOk result (λ tree. tree ≡ []) }
    {
        let leaf = Leaf::new(alloc, Vec::new(alloc))?;
        Ok(NeighbourTree {
            root: Root::One(leaf),
        })
    }

    /// The set of these words, made at once.
    pub fn of(alloc: Global, words: &[u32]) -> Result<NeighbourTree, AllocError>
        requires { IsSet words.now }
        ensures { IfOk result (λ tree. tree ≡ words.now) }
    {
        if words.len() < MOST {
            let leaf = Leaf::new(alloc, Vec::from_slice(alloc, words)?)?;
            return Ok(NeighbourTree {
                root: Root::One(leaf),
            });
        }
        let root = Root::of(alloc, words)?;
        Ok(NeighbourTree { root })
    }

    /// Another owner of the same words, none of which is copied. Neither sees the other's changes.
    pub fn share(&self) -> Result<NeighbourTree, AllocError>
        ensures { IfOk result (λ tree. tree ≡ self.now) }
    {
        let root = self.root.share()?;
        Ok(NeighbourTree { root })
    }

    /// How many words it has.
    pub fn len(&self) -> u32
        ensures len { result ≡ length self.now }
        ensures set { IsSet self.now }
    {
        self.root.count()
    }

    /// Whether a word is in the set.
    pub fn contains(&self, word: u32) -> bool
        requires { word < WORD_LIMIT }
        ensures { result ≡ has_word word self.now }
    {
        self.root.contains(word)
    }

    /// The words from a place on, counted from 0, as far as they lie in one slice. It steps over whole subtrees.
    pub fn slice_at(&self, place: u32) -> &[u32]
        requires { place < length self.now }
        ensures { IsSliceAt self.now place result.now }
    {
        self.root.slice_at(place)
    }

    /// The words, ascending, slice by slice.
    pub fn slices(&self) -> Slices<'_>
        ensures { result ≡ self.now }
    {
        Slices::of(self)
    }

    /// The set with a word more, and whether it was not there. This one stays; the new one shares what is unchanged.
    pub fn with(&self, alloc: Global, word: u32) -> Result<(NeighbourTree, bool), AllocError>
        requires { word < WORD_LIMIT }
        ensures tree { IfOk result (λ pair. pair.0 ≡ with_word word self.now) }
        ensures changed { IfOk result (λ pair. pair.1 ≡ not (has_word word self.now)) }
    {
        match self.root.with(alloc, word)? {
            None => {
                let tree = self.share()?;
                Ok((tree, false))
            }
            Some(root) => Ok((NeighbourTree { root }, true)),
        }
    }

    /// The set with a word less, and whether it was there. This one stays; the new one shares what is unchanged.
    pub fn without(&self, alloc: Global, word: u32) -> Result<(NeighbourTree, bool), AllocError>
        requires { word < WORD_LIMIT }
        ensures tree { IfOk result (λ pair. pair.0 ≡ without_word word self.now) }
        ensures changed { IfOk result (λ pair. pair.1 ≡ has_word word self.now) }
    {
        match self.root.without(alloc, word)? {
            None => {
                let tree = self.share()?;
                Ok((tree, false))
            }
            Some(root) => Ok((NeighbourTree { root }, true)),
        }
    }

    /// Puts a word in, and answers whether it was not there. What other trees share is copied once, the rest is
    /// changed in place. After an error the set is as it was.
    pub fn insert(&mut self, alloc: Global, word: u32) -> Result<bool, AllocError>
        requires { word < WORD_LIMIT }
        ensures ok { OnOk result (self.new ≡ with_word word self.old) }
        ensures changed { IfOk result (λ changed. changed ≡ not (has_word word self.old)) }
        ensures err { OnErr result (self.new ≡ self.old) }
    {
        match self.root.insert(alloc, word)? {
            Change::Same => Ok(false),
            Change::Changed => Ok(true),
            Change::Unable => {
                let (tree, changed) = self.with(alloc, word)?;
                *self = tree;
                Ok(changed)
            }
        }
    }

    /// Takes a word out, and answers whether it was there. What other trees share is copied once, the rest is
    /// changed in place. After an error the set is as it was.
    pub fn remove(&mut self, alloc: Global, word: u32) -> Result<bool, AllocError>
        requires { word < WORD_LIMIT }
        ensures ok { OnOk result (self.new ≡ without_word word self.old) }
        ensures changed { IfOk result (λ changed. changed ≡ has_word word self.old) }
        ensures err { OnErr result (self.new ≡ self.old) }
    {
        match self.root.remove(alloc, word)? {
            Change::Same => Ok(false),
            Change::Changed => Ok(true),
            Change::Unable => {
                let (tree, changed) = self.without(alloc, word)?;
                *self = tree;
                Ok(changed)
            }
        }
    }
}
