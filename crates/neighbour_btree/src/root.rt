//! The root of a tree, and its changes.
ghost use Rattle.std.specs.Prelude.{◌≡◌, ◌≤◌, ◌<◌, length, IfOk, OnErr};
ghost use Rattle.word_sets.specs.Words.{IsSet, has_word};
ghost use Rattle.neighbour_btree.specs.Changes.{IsSliceAt};
ghost use Rattle.neighbour_btree.specs.Root.{node_of, fewest_of, words_of, Raises, Lowers, RootWith, RootWithout, WordsAdded, WordsTaken};

use crate::levels::{
    Change, Fifth, Grown, Inner, Leaf, Level, MOST, Third, fifths, leaves, nodes, thirds,
};
use std::alloc::{AllocError, Global};
use word_sets::WORD_LIMIT;

/// A root of each of the seven levels, which are enough for words below 2^28.
#[derive(Drop)]
pub(crate) enum Root {
    One(Leaf),
    Two(Inner<Leaf>),
    Three(Third),
    Four(Inner<Third>),
    Five(Fifth),
    Six(Inner<Fifth>),
    Seven(Inner<Inner<Fifth>>),
}

/// What a root becomes by one word more.
#[derive(Drop)]
pub(crate) enum Raised<C: Level> {
    Same,
    Kept(C),
    Above(Inner<C>),
}

/// What an inner root becomes by one word less.
#[derive(Drop)]
pub(crate) enum Lowered<C: Level> {
    Same,
    Kept(Inner<C>),
    Below(C),
}

fn grow<C: Level>(alloc: Global, node: &C, word: u32) -> Result<Raised<C>, AllocError>
    requires word { word < WORD_LIMIT }
    requires set { IsSet (C.node node.now).words }
    ensures { IfOk result (Raises C.node C.least (C.node node.now) word) }
{
    match node.with(alloc, word)? {
        Grown::Same => Ok(Raised::Same),
        Grown::New(first, second) => match second {
            None => Ok(Raised::Kept(first)),
            Some(second) => {
                let node = Inner::of_two(alloc, first, second)?;
                Ok(Raised::Above(node))
            }
        },
    }
}

fn shrink<C: Level>(alloc: Global, node: &Inner<C>, word: u32) -> Result<Lowered<C>, AllocError>
    requires word { word < WORD_LIMIT }
    requires enough { 2 ≤ node.now.size }
    ensures { IfOk result (Lowers C.node C.least node.now word) }
{
    match node.without(alloc, word)? {
        None => Ok(Lowered::Same),
        Some(node) => {
            if node.size() >= 2 {
                return Ok(Lowered::Kept(node));
            }
            let child = node.only_child()?;
            Ok(Lowered::Below(child))
        }
    }
}

impl Root {
    /// The root of a tree of these words, made at once.
    pub(crate) fn of(alloc: Global, words: &[u32]) -> Result<Root, AllocError>
        requires set { IsSet words.now }
        requires many { 64 ≤ length words.now }
        ensures words { IfOk result (λ root. words_of root ≡ words.now) }
        ensures size { IfOk result (λ root. fewest_of root ≤ (node_of root).size) }
    {
        let row = leaves(alloc, words)?;
        if row.len() <= MOST {
            let node = Inner::new(alloc, row)?;
            return Ok(Root::Two(node));
        }
        let row = nodes(alloc, row)?;
        if row.len() <= MOST {
            let node = Inner::new(alloc, row)?;
            return Ok(Root::Three(Third { node }));
        }
        let row = thirds(alloc, nodes(alloc, row)?)?;
        if row.len() <= MOST {
            let node = Inner::new(alloc, row)?;
            return Ok(Root::Four(node));
        }
        let row = nodes(alloc, row)?;
        if row.len() <= MOST {
            let node = Inner::new(alloc, row)?;
            return Ok(Root::Five(Fifth { node }));
        }
        let row = fifths(alloc, nodes(alloc, row)?)?;
        let node = Inner::new(alloc, row)?;
        Ok(Root::Six(node))
    }

    /// Another owner of the same root.
    pub(crate) fn share(&self) -> Result<Root, AllocError>
        ensures { IfOk result (λ root. root ≡ self.now) }
    {
        match self {
            Root::One(node) => Ok(Root::One(node.share()?)),
            Root::Two(node) => Ok(Root::Two(node.share()?)),
            Root::Three(node) => Ok(Root::Three(node.share()?)),
            Root::Four(node) => Ok(Root::Four(node.share()?)),
            Root::Five(node) => Ok(Root::Five(node.share()?)),
            Root::Six(node) => Ok(Root::Six(node.share()?)),
            Root::Seven(node) => Ok(Root::Seven(node.share()?)),
        }
    }

    /// How many words the tree has.
    pub(crate) fn count(&self) -> u32
        ensures { result ≡ length (words_of self.now) }
    {
        match self {
            Root::One(node) => node.count(),
            Root::Two(node) => node.count(),
            Root::Three(node) => node.count(),
            Root::Four(node) => node.count(),
            Root::Five(node) => node.count(),
            Root::Six(node) => node.count(),
            Root::Seven(node) => node.count(),
        }
    }

    /// Whether a word is in the tree.
    pub(crate) fn contains(&self, word: u32) -> bool
        requires { word < WORD_LIMIT }
        ensures { result ≡ has_word word (words_of self.now) }
    {
        match self {
            Root::One(node) => node.contains(word),
            Root::Two(node) => node.contains(word),
            Root::Three(node) => node.contains(word),
            Root::Four(node) => node.contains(word),
            Root::Five(node) => node.contains(word),
            Root::Six(node) => node.contains(word),
            Root::Seven(node) => node.contains(word),
        }
    }

    /// The words from a place on, as far as they lie in one leaf.
    pub(crate) fn slice_at(&self, place: u32) -> &[u32]
        requires { place < length (words_of self.now) }
        ensures { IsSliceAt (words_of self.now) place result.now }
    {
        match self {
            Root::One(node) => node.slice_at(place),
            Root::Two(node) => node.slice_at(place),
            Root::Three(node) => node.slice_at(place),
            Root::Four(node) => node.slice_at(place),
            Root::Five(node) => node.slice_at(place),
            Root::Six(node) => node.slice_at(place),
            Root::Seven(node) => node.slice_at(place),
        }
    }

    /// The root with a word more, or `None` where it is there.
    pub(crate) fn with(&self, alloc: Global, word: u32) -> Result<Option<Root>, AllocError>
        requires word { word < WORD_LIMIT }
        requires size { fewest_of self.now ≤ (node_of self.now).size }
        requires set { IsSet (words_of self.now) }
        ensures { IfOk result (RootWith self.now word) }
    {
        match self {
            Root::One(node) => match grow(alloc, node, word)? {
                Raised::Same => Ok(None),
                Raised::Kept(node) => Ok(Some(Root::One(node))),
                Raised::Above(node) => Ok(Some(Root::Two(node))),
            },
            Root::Two(node) => match grow(alloc, node, word)? {
                Raised::Same => Ok(None),
                Raised::Kept(node) => Ok(Some(Root::Two(node))),
                Raised::Above(node) => Ok(Some(Root::Three(Third { node }))),
            },
            Root::Three(node) => match grow(alloc, node, word)? {
                Raised::Same => Ok(None),
                Raised::Kept(node) => Ok(Some(Root::Three(node))),
                Raised::Above(node) => Ok(Some(Root::Four(node))),
            },
            Root::Four(node) => match grow(alloc, node, word)? {
                Raised::Same => Ok(None),
                Raised::Kept(node) => Ok(Some(Root::Four(node))),
                Raised::Above(node) => Ok(Some(Root::Five(Fifth { node }))),
            },
            Root::Five(node) => match grow(alloc, node, word)? {
                Raised::Same => Ok(None),
                Raised::Kept(node) => Ok(Some(Root::Five(node))),
                Raised::Above(node) => Ok(Some(Root::Six(node))),
            },
            Root::Six(node) => match grow(alloc, node, word)? {
                Raised::Same => Ok(None),
                Raised::Kept(node) => Ok(Some(Root::Six(node))),
                Raised::Above(node) => Ok(Some(Root::Seven(node))),
            },
            Root::Seven(node) => match grow(alloc, node, word)? {
                Raised::Same => Ok(None),
                Raised::Kept(node) => Ok(Some(Root::Seven(node))),
                Raised::Above(_) => unreachable!(),
            },
        }
    }

    /// The root with a word less, or `None` where it is not there.
    pub(crate) fn without(&self, alloc: Global, word: u32) -> Result<Option<Root>, AllocError>
        requires word { word < WORD_LIMIT }
        requires size { fewest_of self.now ≤ (node_of self.now).size }
        requires set { IsSet (words_of self.now) }
        ensures { IfOk result (RootWithout self.now word) }
    {
        match self {
            Root::One(node) => match node.without(alloc, word)? {
                None => Ok(None),
                Some(node) => Ok(Some(Root::One(node))),
            },
            Root::Two(node) => match shrink(alloc, node, word)? {
                Lowered::Same => Ok(None),
                Lowered::Kept(node) => Ok(Some(Root::Two(node))),
                Lowered::Below(node) => Ok(Some(Root::One(node))),
            },
            Root::Three(third) => match shrink(alloc, &third.node, word)? {
                Lowered::Same => Ok(None),
                Lowered::Kept(node) => Ok(Some(Root::Three(Third { node }))),
                Lowered::Below(node) => Ok(Some(Root::Two(node))),
            },
            Root::Four(node) => match shrink(alloc, node, word)? {
                Lowered::Same => Ok(None),
                Lowered::Kept(node) => Ok(Some(Root::Four(node))),
                Lowered::Below(node) => Ok(Some(Root::Three(node))),
            },
            Root::Five(fifth) => match shrink(alloc, &fifth.node, word)? {
                Lowered::Same => Ok(None),
                Lowered::Kept(node) => Ok(Some(Root::Five(Fifth { node }))),
                Lowered::Below(node) => Ok(Some(Root::Four(node))),
            },
            Root::Six(node) => match shrink(alloc, node, word)? {
                Lowered::Same => Ok(None),
                Lowered::Kept(node) => Ok(Some(Root::Six(node))),
                Lowered::Below(node) => Ok(Some(Root::Five(node))),
            },
            Root::Seven(node) => match shrink(alloc, node, word)? {
                Lowered::Same => Ok(None),
                Lowered::Kept(node) => Ok(Some(Root::Seven(node))),
                Lowered::Below(node) => Ok(Some(Root::Six(node))),
            },
        }
    }

    /// Puts a word in, in place, where that can be done. After an error the words are as they were.
    pub(crate) fn insert(&mut self, alloc: Global, word: u32) -> Result<Change, AllocError>
        requires word { word < WORD_LIMIT }
        requires size { fewest_of self.old ≤ (node_of self.old).size }
        ensures size { fewest_of self.new ≤ (node_of self.new).size }
        ensures ok { IfOk result (WordsAdded (words_of self.old) (words_of self.new) word) }
        ensures err { OnErr result (words_of self.new ≡ words_of self.old) }
    {
        match self {
            Root::One(node) => node.insert(alloc, word),
            Root::Two(node) => node.insert(alloc, word),
            Root::Three(node) => node.insert(alloc, word),
            Root::Four(node) => node.insert(alloc, word),
            Root::Five(node) => node.insert(alloc, word),
            Root::Six(node) => node.insert(alloc, word),
            Root::Seven(node) => node.insert(alloc, word),
        }
    }

    /// Takes a word out, in place, where that can be done. After an error the words are as they were.
    pub(crate) fn remove(&mut self, alloc: Global, word: u32) -> Result<Change, AllocError>
        requires word { word < WORD_LIMIT }
        requires size { fewest_of self.old ≤ (node_of self.old).size }
        ensures size { fewest_of self.new ≤ (node_of self.new).size }
        ensures ok { IfOk result (WordsTaken (words_of self.old) (words_of self.new) word) }
        ensures err { OnErr result (words_of self.new ≡ words_of self.old) }
    {
        match self {
            Root::One(node) => node.remove(alloc, word),
            Root::Two(node) => node.remove_from_root(alloc, word),
            Root::Three(third) => third.node.remove_from_root(alloc, word),
            Root::Four(node) => node.remove_from_root(alloc, word),
            Root::Five(fifth) => fifth.node.remove_from_root(alloc, word),
            Root::Six(node) => node.remove_from_root(alloc, word),
            Root::Seven(node) => node.remove_from_root(alloc, word),
        }
    }
}
