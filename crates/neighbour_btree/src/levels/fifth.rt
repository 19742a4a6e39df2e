//! The fifth level, under a name of its own.
ghost use Rattle.std.specs.Prelude.{◌≡◌, IfOk};

use crate::levels::change::{Change, Grown};
use crate::levels::child::Child;
use crate::levels::inner::Inner;
use crate::levels::level::Level;
use crate::levels::third::Third;
use std::alloc::{AllocError, Global};
use std::marker::Model;

/// An inner node over inner nodes over third levels. It has a name of its own for the reason that `Third` has one.
#[derive(Drop)]
pub(crate) struct Fifth {
    /// The node.
    pub(crate) node: Inner<Inner<Third>>,
}

impl Model for Fifth {
    ghost use Rattle.neighbour_btree.specs.Node.{Node};

    ghost Value = { Node };

    ghost view = { λ f. f.node };
}

fn named(node: Option<Inner<Inner<Third>>>) -> Option<Fifth>
    ensures { result ≡ node }
{
    match node {
        None => None,
        Some(node) => Some(Fifth { node }),
    }
}

impl Level for Fifth {
    ghost node = { λ f. f };

    ghost least = { 1048576 };

    fn share(&self) -> Result<Fifth, AllocError> {
        let node = self.node.share()?;
        Ok(Fifth { node })
    }

    fn size(&self) -> usize {
        self.node.size()
    }

    fn count(&self) -> u32 {
        self.node.count()
    }

    fn first(&self) -> u32 {
        self.node.first()
    }

    fn contains(&self, word: u32) -> bool {
        self.node.contains(word)
    }

    fn slice_at(&self, place: u32) -> &[u32] {
        self.node.slice_at(place)
    }

    fn with(&self, alloc: Global, word: u32) -> Result<Grown<Fifth>, AllocError> {
        match self.node.with(alloc, word)? {
            Grown::Same => Ok(Grown::Same),
            Grown::New(node, second) => Ok(Grown::New(Fifth { node }, named(second))),
        }
    }

    fn without(&self, alloc: Global, word: u32) -> Result<Option<Fifth>, AllocError> {
        let node = self.node.without(alloc, word)?;
        Ok(named(node))
    }

    fn join(&self, alloc: Global, right: &Fifth) -> Result<(Fifth, Option<Fifth>), AllocError> {
        let (node, second) = self.node.join(alloc, &right.node)?;
        Ok((Fifth { node }, named(second)))
    }

    fn insert(&mut self, alloc: Global, word: u32) -> Result<Change, AllocError> {
        self.node.insert(alloc, word)
    }

    fn remove(&mut self, alloc: Global, word: u32) -> Result<Change, AllocError> {
        self.node.remove(alloc, word)
    }
}

/// A row of such nodes, under their name.
pub(crate) fn fifths(
    alloc: Global,
    row: Vec<Child<Inner<Inner<Third>>>>,
) -> Result<Vec<Child<Fifth>>, AllocError>
    ensures { IfOk result (λ named. named.items ≡ row.items) }
{
    let mut named = Vec::with_capacity(alloc, row.len())?;
    for child in row {
        named.push(child.named_fifth())?;
    }
    Ok(named)
}
