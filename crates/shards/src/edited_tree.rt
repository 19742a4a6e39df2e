//! A tree after a few edits of its vertex, each put in where it belongs.
ghost use Rattle.std.specs.Prelude.{◌≡◌, ◌+◌, ◌^◌, ◌<◌, ℕ, Bool, filter, IfOk};
ghost use Rattle.std.specs.List.{AllByRecursion};
ghost use Rattle.std.specs.List.Sorted.{IsNonDecreasingBy};
ghost use Rattle.graph_model.specs.Graph.{numbers_below};
ghost use Rattle.past_model.specs.Edits.{target_of};
ghost use Rattle.word_sets.specs.declared.places.TheConstants.{WORD_LIMIT};
ghost use Rattle.shards.specs.Merge.{AreEditsFrom, IsMerged};
ghost use Rattle.shards.specs.Put.{IsPut};

use crate::counts::Counts;
use crate::merge::{is_superseded, sort_by_target};
use neighbour_btree::NeighbourTree;
use past_model::Edit;
use std::alloc::{AllocError, Global};

// Puts one edit into a tree, and counts it if it changes the tree.
fn put_edit(
    alloc: Global,
    edit: &Edit,
    tree: &mut NeighbourTree,
    counts: &mut Counts,
) -> Result<(), AllocError>
    requires target { target_of edit.now < WORD_LIMIT }
    requires added { counts.old.added < 2 ^ 63 }
    requires removed { counts.old.removed < 2 ^ 63 }
    ensures { IfOk result (λ _. IsPut edit.now tree.old counts.old tree.new counts.new) }
{
    match edit {
        Edit::Insert(_, target) => {
            if tree.insert(alloc, *target)? {
                counts.added += 1;
            }
        }
        Edit::Remove(_, target) => {
            if tree.remove(alloc, *target)? {
                counts.removed += 1;
            }
        }
    }
    Ok(())
}

/// Puts edits of its vertex, which ascend by their targets, into a tree, and returns what they did. Of edits with the
/// same target the last one decides, and only that one is put in. The first edit on a path copies it where another tree
/// shares it, later ones change the copy.
pub(crate) fn put_edits(
    alloc: Global,
    edits: &[Edit],
    tree: &mut NeighbourTree,
) -> Result<Counts, AllocError>
    requires sorted { IsNonDecreasingBy target_of edits.now }
    requires targets { AllByRecursion (λ e. target_of e < WORD_LIMIT) edits.now }
    ensures { IfOk result (λ counts. (u n : ℕ) (p : ℕ → Bool) → AreEditsFrom u n edits.now
        → tree.old ≡ filter p (numbers_below n) → IsMerged edits.now u n p tree.new counts) }
{
    let mut counts = Counts::NONE;
    for (place, edit) in edits.iter().enumerate() {
        if !is_superseded(edits, place) {
            put_edit(alloc, edit, tree, &mut counts)?;
        }
    }
    Ok(counts)
}

// A tree after edits of its vertex, which ascend by their targets, and what they did.
fn with_edits(
    alloc: Global,
    tree: &NeighbourTree,
    edits: &[Edit],
) -> Result<(NeighbourTree, Counts), AllocError>
    requires sorted { IsNonDecreasingBy target_of edits.now }
    requires targets { AllByRecursion (λ e. target_of e < WORD_LIMIT) edits.now }
    ensures { IfOk result (λ next. (u n : ℕ) (p : ℕ → Bool) → AreEditsFrom u n edits.now
        → tree.now ≡ filter p (numbers_below n) → IsMerged edits.now u n p next.0 next.1) }
{
    let mut next = tree.share()?;
    let counts = put_edits(alloc, edits, &mut next)?;
    Ok((next, counts))
}

/// A tree after edits of its vertex, in their order, and what they did. The edits are sorted in place. The old tree
/// stays, and the new one shares with it every node off the paths to the edits.
pub(crate) fn edited_tree(
    alloc: Global,
    tree: &NeighbourTree,
    edits: &mut Vec<Edit>,
) -> Result<(NeighbourTree, Counts), AllocError>
    requires { AllByRecursion (λ e. target_of e < WORD_LIMIT) edits.old.items }
    ensures { IfOk result (λ next. (u n : ℕ) (p : ℕ → Bool) → AreEditsFrom u n edits.old.items
        → tree.now ≡ filter p (numbers_below n) → IsMerged edits.old.items u n p next.0 next.1) }
{
    sort_by_target(edits)?;
    let next = with_edits(alloc, tree, edits)?;
    Ok(next)
}
