//! The third level, under a name of its own.
ghost use Rattle.std.specs.Prelude.{◌≡◌, IfOk};

use crate::levels::change::{Change, Grown};
use crate::levels::child::Child;
use crate::levels::inner::Inner;
use crate::levels::leaf::Leaf;
use crate::levels::level::Level;
use std::alloc::{AllocError, Global};
use std::marker::Model;

/// An inner node over inner nodes over leaves. With a name of its own it lets the types of higher levels be short: what is
/// proved of a type takes three times as long with each level that the type spells out.
#[derive(Drop)]
pub(crate) struct Third {
    /// The node.
    pub(crate) node: Inner<Inner<Leaf>>,
}

impl Model for Third {
    ghost use Rattle.neighbour_btree.specs.Node.{Node};

    ghost Value = { Node };

    ghost view = { λ t. t.node };
}

fn named(node: Option<Inner<Inner<Leaf>>>) -> Option<Third>
    ensures { result ≡ node }
{
    match node {
        None => None,
        Some(node) => Some(Third { node }),
    }
}

impl Level for Third {
    ghost node = { λ t. t };

    ghost least = { 4096 };

    fn share(&self) -> Result<Third, AllocError> {
        let node = self.node.share()?;
        Ok(Third { node })
    }

    fn size(&self) -> usize {
        self.node.size()
    }

    fn count(&self) -> u32 {
        self.node.count()
    }

    fn first(&self) -> u32 {
        self.node.first()
    }

    fn contains(&self, word: u32) -> bool {
        self.node.contains(word)
    }

    fn slice_at(&self, place: u32) -> &[u32] {
        self.node.slice_at(place)
    }

    fn with(&self, alloc: Global, word: u32) -> Result<Grown<Third>, AllocError> {
        match self.node.with(alloc, word)? {
            Grown::Same => Ok(Grown::Same),
            Grown::New(node, second) => Ok(Grown::New(Third { node }, named(second))),
        }
    }

    fn without(&self, alloc: Global, word: u32) -> Result<Option<Third>, AllocError> {
        let node = self.node.without(alloc, word)?;
        Ok(named(node))
    }

    fn join(&self, alloc: Global, right: &Third) -> Result<(Third, Option<Third>), AllocError> {
        let (node, second) = self.node.join(alloc, &right.node)?;
        Ok((Third { node }, named(second)))
    }

    fn insert(&mut self, alloc: Global, word: u32) -> Result<Change, AllocError> {
        self.node.insert(alloc, word)
    }

    fn remove(&mut self, alloc: Global, word: u32) -> Result<Change, AllocError> {
        self.node.remove(alloc, word)
    }
}

/// A row of such nodes, under their name.
pub(crate) fn thirds(
    alloc: Global,
    row: Vec<Child<Inner<Inner<Leaf>>>>,
) -> Result<Vec<Child<Third>>, AllocError>
    ensures { IfOk result (λ named. named.items ≡ row.items) }
{
    let mut named = Vec::with_capacity(alloc, row.len())?;
    for child in row {
        named.push(child.named())?;
    }
    Ok(named)
}
