//! A child of an inner node, with what its parent keeps beside it.
ghost use Rattle.std.specs.Prelude.{◌≡◌, ◌<◌, ◌+◌, length, slice_index, option_map, IfOk, IfSome, OnErr};
ghost use Rattle.word_sets.specs.Words.{IsSet};
ghost use Rattle.neighbour_btree.specs.Node.{Node, IsChild, IsEntry};
ghost use Rattle.neighbour_btree.specs.Changes.{Adds, Takes};

use crate::levels::change::Change;
use crate::levels::fifth::Fifth;
use crate::levels::inner::Inner;
use crate::levels::leaf::Leaf;
use crate::levels::level::{FEWEST, Level};
use crate::levels::third::Third;
use std::alloc::{AllocError, Global};
use std::marker::Model;
use word_sets::WORD_LIMIT;

/// A child, with its first word and how many words are under it.
#[derive(Drop)]
pub(crate) struct Child<C: Level> {
    first: u32,
    count: u32,
    node: C,
}

impl<C: Level> Model for Child<C> {
    ghost use Rattle.neighbour_btree.specs.Node.{Node, IsEntry};

    ghost Value = { Node };

    ghost view = { λ c. C.node c.node };

    ghost invariant = { λ c. IsEntry C.least c.first c.count (C.node c.node) };
}

impl Child<Inner<Inner<Leaf>>> {
    /// The same child, of a node with a name of its own.
    pub(crate) fn named(self) -> Child<Third>
        ensures { result ≡ self }
    {
        Child {
            first: self.first,
            count: self.count,
            node: Third { node: self.node },
        }
    }
}

impl Child<Inner<Inner<Third>>> {
    /// The same child, of a node with a name of its own.
    pub(crate) fn named_fifth(self) -> Child<Fifth>
        ensures { result ≡ self }
    {
        Child {
            first: self.first,
            count: self.count,
            node: Fifth { node: self.node },
        }
    }
}

impl<C: Level> Child<C> {
    /// The child of this node.
    pub(crate) fn of(node: C) -> Child<C>
        requires { IsChild C.least (C.node node) }
        ensures { result ≡ C.node node }
    {
        Child {
            first: node.first(),
            count: node.count(),
            node,
        }
    }

    /// Another owner of the same node.
    pub(crate) fn share(&self) -> Result<Child<C>, AllocError>
        ensures { IfOk result (λ other. other ≡ self.now) }
    {
        let node = self.node.share()?;
        Ok(Child {
            first: self.first,
            count: self.count,
            node,
        })
    }

    /// The node.
    pub(crate) fn node(&self) -> &C
        ensures node { C.node result.now ≡ self.now }
        ensures child { IsChild C.least (C.node result.now) }
        ensures self_child { IsChild C.least self.now }
    {
        &self.node
    }

    /// The least word under it.
    pub(crate) fn first(&self) -> u32
        ensures { result ≡ slice_index self.now.words 0 }
    {
        self.first
    }

    /// How many words are under it.
    pub(crate) fn count(&self) -> u32
        ensures { result ≡ length self.now.words }
    {
        self.count
    }

    /// Puts a word in, in place. After an error the child is as it was.
    pub(crate) fn insert(&mut self, alloc: Global, word: u32) -> Result<Change, AllocError>
        requires word { word < WORD_LIMIT }
        requires set { IsSet self.old.words }
        ensures ok { IfOk result (Adds C.least self.old self.new word) }
        ensures err { OnErr result (self.new ≡ self.old) }
    {
        let change = self.node.insert(alloc, word)?;
        if let Change::Changed = change {
            self.first = self.node.first();
            self.count += 1;
        }
        Ok(change)
    }

    /// Takes a word out, in place. After an error the child is as it was.
    pub(crate) fn remove(&mut self, alloc: Global, word: u32) -> Result<Change, AllocError>
        requires word { word < WORD_LIMIT }
        requires set { IsSet self.old.words }
        requires enough { FEWEST < self.old.size }
        ensures ok { IfOk result (Takes C.least self.old self.new word) }
        ensures err { OnErr result (self.new ≡ self.old) }
    {
        let change = self.node.remove(alloc, word)?;
        if let Change::Changed = change {
            self.first = self.node.first();
            self.count -= 1;
        }
        Ok(change)
    }
}

/// The children of nodes that may be children.
pub(crate) fn adopted<C: Level>(first: C, second: Option<C>) -> (Child<C>, Option<Child<C>>)
    requires first { IsChild C.least (C.node first) }
    requires second { IfSome second (λ node. IsChild C.least (C.node node)) }
    ensures first { result.0 ≡ C.node first }
    ensures second { result.1 ≡ option_map C.node second }
{
    match second {
        None => (Child::of(first), None),
        Some(second) => (Child::of(first), Some(Child::of(second))),
    }
}
