//! What a level of a tree can do.
ghost use Rattle.std.specs.Prelude.{◌≡◌, ℕ, ◌<◌, ◌≤◌, ◌+◌, ◌++◌, length, slice_index, IfOk, OnErr};
ghost use Rattle.word_sets.specs.Words.{IsSet, has_word};
ghost use Rattle.neighbour_btree.specs.Node.{Node};
ghost use Rattle.neighbour_btree.specs.Changes.{Packs, Grows, Shrinks, Adds, Takes, IsSliceAt};

use crate::levels::change::{Change, Grown};
use std::alloc::{AllocError, Global};
use word_sets::WORD_LIMIT;

/// How many entries a node has at most: a leaf words, an inner node children.
pub(crate) const MOST: usize = 64;

/// How many entries a child of a node has at least.
pub(crate) const FEWEST: usize = 16;

/// A node of one level.
pub(crate) trait Level: Drop {
    /// The words under a node, and how many entries it has.
    ghost node: { Self → Node };

    /// How many words a node with `FEWEST` entries has at least.
    ghost least: { ℕ };

    /// Another owner of the same node.
    fn share(&self) -> Result<Self, AllocError>
        ensures { IfOk result (λ other. node other ≡ node self.now) };

    /// How many entries it has.
    fn size(&self) -> usize
        ensures { result ≡ (node self.now).size };

    /// How many words are under it.
    fn count(&self) -> u32
        ensures { result ≡ length (node self.now).words };

    /// The least word under it.
    fn first(&self) -> u32
        requires { 0 < length (node self.now).words }
        ensures { result ≡ slice_index (node self.now).words 0 };

    /// Whether a word is under it.
    fn contains(&self, word: u32) -> bool
        requires { word < WORD_LIMIT }
        ensures { result ≡ has_word word (node self.now).words };

    /// The words from a place on, as far as they lie in one leaf.
    fn slice_at(&self, place: u32) -> &[u32]
        requires { place < length (node self.now).words }
        ensures { IsSliceAt (node self.now).words place result.now };

    /// The node with a word more. This one stays.
    fn with(&self, alloc: Global, word: u32) -> Result<Grown<Self>, AllocError>
        requires { word < WORD_LIMIT }
        ensures { IfOk result (Grows node least (node self.now) word) };

    /// The node with a word less, or `None` where it is not there. This one stays.
    fn without(&self, alloc: Global, word: u32) -> Result<Option<Self>, AllocError>
        requires word { word < WORD_LIMIT }
        requires enough { 2 ≤ (node self.now).size }
        ensures { IfOk result (Shrinks node least (node self.now) word) };

    /// The words of this node and of the next, in one node or in two.
    fn join(&self, alloc: Global, right: &Self) -> Result<(Self, Option<Self>), AllocError>
        requires within { IsSet ((node self.now).words ++ (node right.now).words) }
        requires enough { FEWEST ≤ (node self.now).size + (node right.now).size }
        ensures { IfOk result (λ pair. Packs node least ((node self.now).size + (node right.now).size)
            ((node self.now).words ++ (node right.now).words) pair.0 pair.1) };

    /// Puts a word in, in place. After an error the node is as it was.
    fn insert(&mut self, alloc: Global, word: u32) -> Result<Change, AllocError>
        requires { word < WORD_LIMIT }
        ensures ok { IfOk result (Adds least (node self.old) (node self.new) word) }
        ensures err { OnErr result (node self.new ≡ node self.old) };

    /// Takes a word out, in place. After an error the node is as it was.
    fn remove(&mut self, alloc: Global, word: u32) -> Result<Change, AllocError>
        requires word { word < WORD_LIMIT }
        requires enough { 2 ≤ (node self.old).size }
        ensures ok { IfOk result (Takes least (node self.old) (node self.new) word) }
        ensures err { OnErr result (node self.new ≡ node self.old) };
}
