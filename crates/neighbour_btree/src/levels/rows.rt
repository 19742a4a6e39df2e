//! Rows of nodes that are made of a list at once: leaves of three quarters but for the last, and nodes that are half full but
//! for the first.
ghost use Rattle.std.specs.Prelude.{◌≡◌, ◌≤◌, ◌*◌, length, All, IfOk};
ghost use Rattle.word_sets.specs.Words.{IsSet};
ghost use Rattle.neighbour_btree.specs.Node.{words_under, inner_of, IsChild, IsInner};
ghost use Rattle.neighbour_btree.specs.Lists.{IsRow};

use crate::levels::child::Child;
use crate::levels::inner::Inner;
use crate::levels::leaf::Leaf;
use crate::levels::level::{FEWEST, Level, MOST};
use std::alloc::{AllocError, Global};

// How many words a leaf of a row has: the fuller the leaves, the fewer slices a tree lends.
const LEAF_WORDS: usize = 48;

// How many children a node of a row has.
const HALF: usize = 32;

/// Leaves of these words.
pub(crate) fn leaves(alloc: Global, words: &[u32]) -> Result<Vec<Child<Leaf>>, AllocError>
    requires set { IsSet words.now }
    requires many { 64 ≤ length words.now }
    ensures { IfOk result (λ row. IsRow 16 (length words.now) words.now row.items) }
{
    let mut row = Vec::with_capacity(alloc, words.len() / LEAF_WORDS)?;
    let mut rest = words;
    while MOST <= rest.len() {
        let (part, others) = rest.split_at(LEAF_WORDS);
        let leaf = Leaf::new(alloc, Vec::from_slice(alloc, part)?)?;
        row.push(Child::of(leaf))?;
        rest = others;
    }
    let leaf = Leaf::new(alloc, Vec::from_slice(alloc, rest)?)?;
    row.push(Child::of(leaf))?;
    Ok(row)
}

/// Nodes over these children.
pub(crate) fn nodes<C: Level>(
    alloc: Global,
    children: Vec<Child<C>>,
) -> Result<Vec<Child<Inner<C>>>, AllocError>
    requires set { IsSet (words_under children.items) }
    requires many { 64 ≤ length children.items }
    requires children { All (IsChild C.least) children.items }
    ensures { IfOk result (λ row. IsRow (16 * C.least) (length children.items) (words_under children.items) row.items) }
{
    let mut children = children;
    let mut row = Vec::with_capacity(alloc, children.len() / HALF)?;
    while MOST <= children.len() {
        let part = children.split_off(children.len() - HALF)?;
        let node = node_over(alloc, part)?;
        row.push(node)?;
    }
    let node = node_over(alloc, children)?;
    row.push(node)?;
    row.reverse();
    Ok(row)
}

fn node_over<C: Level>(
    alloc: Global,
    children: Vec<Child<C>>,
) -> Result<Child<Inner<C>>, AllocError>
    requires inner { IsInner C.least children.items }
    requires full { FEWEST ≤ length children.items }
    ensures node { IfOk result (λ node. node ≡ inner_of children.items) }
    ensures child { IfOk result (IsChild (16 * C.least)) }
{
    let node = Inner::new(alloc, children)?;
    Ok(Child::of(node))
}
