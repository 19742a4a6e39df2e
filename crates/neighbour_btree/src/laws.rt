//! What follows of a tree's calls, one after another. Each function only makes public calls, and is proved from their
//! contracts alone.
ghost use Rattle.std.specs.Prelude.{◌≡◌, ◌<◌, true, false, not, IfOk, OnOk};
ghost use Rattle.word_sets.specs.Words.{has_word};

use crate::tree::NeighbourTree;
use std::alloc::{AllocError, Global};
use word_sets::WORD_LIMIT;

/// An inserted word is there, and a tree that shared the words from before is as it was.
pub fn inserted_is_contained(
    tree: &mut NeighbourTree,
    alloc: Global,
    word: u32,
) -> Result<(bool, bool), AllocError>
    requires { word < WORD_LIMIT }
    ensures own { IfOk result (λ found. found.0 ≡ true) }
    ensures other { IfOk result (λ found. found.1 ≡ has_word word tree.old) }
{
    let other = tree.share()?;
    tree.insert(alloc, word)?;
    Ok((tree.contains(word), other.contains(word)))
}

/// Removing an inserted word that was not there before gives the words from before. Each of the two reports a change
/// exactly if it was not there.
pub fn removal_undoes_insertion(
    tree: &mut NeighbourTree,
    alloc: Global,
    word: u32,
) -> Result<(bool, bool), AllocError>
    requires { word < WORD_LIMIT }
    ensures undone { OnOk result (tree.new ≡ tree.old) }
    ensures inserted { IfOk result (λ changes. changes.0 ≡ not (has_word word tree.old)) }
    ensures removed { IfOk result (λ changes. changes.1 ≡ not (has_word word tree.old)) }
{
    tree.len();
    let inserted = tree.insert(alloc, word)?;
    let removed = inserted && tree.remove(alloc, word)?;
    Ok((inserted, removed))
}

/// A new tree has the change, and the tree that it was made of does not.
pub fn new_tree_has_the_change(alloc: Global) -> Result<(bool, bool, bool), AllocError>
    ensures { IfOk result (λ found. found ≡ (false, true, false)) }
{
    let empty = NeighbourTree::new(alloc)?;
    let (more, _) = empty.with(alloc, 7)?;
    let (less, _) = more.without(alloc, 7)?;
    Ok((empty.contains(7), more.contains(7), less.contains(7)))
}

/// One word is lent in one slice, and after it none.
pub fn one_word_is_one_slice(alloc: Global) -> Result<(u32, bool), AllocError>
    ensures word { IfOk result (λ lent. lent.0 ≡ 7) }
    ensures end { IfOk result (λ lent. lent.1 ≡ true) }
{
    let tree = NeighbourTree::of(alloc, &[7])?;
    let mut slices = tree.slices();
    let word = match slices.next_slice() {
        Some(slice) => slice[0],
        None => 0,
    };
    Ok((word, slices.next_slice().is_none()))
}
