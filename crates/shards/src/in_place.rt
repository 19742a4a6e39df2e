//! The list of a vertex after its edits, in a copy of its page where it stood before.
ghost use Rattle.std.specs.Prelude.{◌≡◌, ◌<◌, [], length, slice_index_or, IfOk, IfSome};
ghost use Rattle.gapped_array.specs.Table.{IsOpen, list_at};
ghost use Rattle.past_model.specs.declared.home.Home.TheVariants.{Gapped, Tree};
ghost use Rattle.shards.specs.declared.lists.Place.TheVariants.{Nowhere, InArray, InTree};
ghost use Rattle.shards.specs.Lists.{AreKept, rows_of};
ghost use Rattle.shards.specs.Put.{AreOwnEdits, IsEditedAtHome, IsRunAfter, IsReplacedAfter};

use crate::counts::Counts;
use crate::edited::edited_list;
use crate::edited_run::put_edits_in_run;
use crate::edited_tree::put_edits;
use crate::edited_vertex::WORDS_AN_EDIT;
use crate::lists::{Lists, Place};
use crate::merge::sort_by_target;
use crate::scratch::Scratch;
use gapped_array::GappedArray;
use neighbour_btree::NeighbourTree;
use past_model::{Edit, Home};
use std::alloc::{AllocError, Global};

/// A run with more edits than these is merged with them, with its page rebuilt.
const MOST_RUN_EDITS: usize = 64;

// Puts edits of its vertex into a tree, and returns what they did. `None` if they are many, or if the list has to leave
// the tree.
fn edit_tree(
    alloc: Global,
    edits: &mut Vec<Edit>,
    tree: &mut NeighbourTree,
) -> Result<Option<Counts>, AllocError>
    requires { AreOwnEdits edits.old.items tree.old }
    ensures { IfOk result (λ done. IfSome done (λ more.
        IsEditedAtHome edits.old.items tree.old Tree more tree.new)) }
{
    if edits.len() > tree.len() as usize / WORDS_AN_EDIT {
        return Ok(None);
    }
    sort_by_target(edits)?;
    let more = put_edits(alloc, edits, tree)?;
    match Home::Tree.after(tree.len()) {
        Home::Tree => Ok(Some(more)),
        Home::Gapped => Ok(None),
        Home::Block => Ok(None),
    }
}

// Puts edits of its vertex into a run of the array, and returns what they did. `None` if they are many, or if the list
// has to leave the array.
fn edit_run(
    edits: &mut Vec<Edit>,
    array: &mut GappedArray,
    run: u8,
) -> Result<Option<Counts>, AllocError>
    requires open { IsOpen array.old run }
    requires edits { AreOwnEdits edits.old.items (list_at array.old run) }
    ensures { IfOk result (λ done. IfSome done (λ more.
        IsRunAfter edits.old.items run more array.old array.new)) }
{
    if edits.len() > MOST_RUN_EDITS {
        return Ok(None);
    }
    sort_by_target(edits)?;
    let more = put_edits_in_run(edits, array, run)?;
    match Home::Gapped.after(array.words(run).len() as u32) {
        Home::Gapped => Ok(Some(more)),
        Home::Block => Ok(None),
        Home::Tree => Ok(None),
    }
}

// The same for the tree of a vertex.
fn edit_tree_of(
    alloc: Global,
    lists: &mut Lists,
    vertex: usize,
    number: u8,
    edits: &mut Vec<Edit>,
) -> Result<Option<Counts>, AllocError>
    requires kept { AreKept lists.old }
    requires inside { vertex < length (rows_of lists.old) }
    requires own { slice_index_or lists.old.places.items vertex Nowhere ≡ InTree number }
    requires edits { AreOwnEdits edits.old.items (slice_index_or (rows_of lists.old) vertex []) }
    ensures { IfOk result (λ done. IfSome done (λ more.
        IsReplacedAfter edits.old.items vertex more lists.old lists.new)) }
{
    let tree = &mut lists.trees[usize::from(number)];
    let done = edit_tree(alloc, edits, tree)?;
    Ok(done)
}

// The same for the run of a vertex.
fn edit_run_of(
    lists: &mut Lists,
    vertex: usize,
    run: u8,
    edits: &mut Vec<Edit>,
) -> Result<Option<Counts>, AllocError>
    requires kept { AreKept lists.old }
    requires inside { vertex < length (rows_of lists.old) }
    requires own { slice_index_or lists.old.places.items vertex Nowhere ≡ InArray run }
    requires edits { AreOwnEdits edits.old.items (slice_index_or (rows_of lists.old) vertex []) }
    ensures { IfOk result (λ done. IfSome done (λ more.
        IsReplacedAfter edits.old.items vertex more lists.old lists.new)) }
{
    let done = edit_run(edits, &mut lists.array, run)?;
    Ok(done)
}

// Merges a list at home in its block with the edits in the scratch, and puts it where it stood. `None` if it does not fit
// there.
fn merge_in_place(
    alloc: Global,
    lists: &mut Lists,
    vertex: usize,
    scratch: &mut Scratch,
) -> Result<Option<Counts>, AllocError>
    requires kept { AreKept lists.old }
    requires inside { vertex < length (rows_of lists.old) }
    requires edits { AreOwnEdits scratch.old.own.items (slice_index_or (rows_of lists.old) vertex []) }
    ensures { IfOk result (λ done. IfSome done (λ more.
        IsReplacedAfter scratch.old.own.items vertex more lists.old lists.new)) }
{
    let more = edited_list(
        lists,
        vertex,
        &mut scratch.own,
        &mut scratch.gathered,
        &mut scratch.merged,
    )?;
    if !lists.put_words(alloc, vertex, scratch.merged.words())? {
        return Ok(None);
    }
    Ok(Some(more))
}

/// Puts the edits in the scratch, which are of its vertex, into a list where it stands, and returns what they did. `None`
/// if the list has to move to another home, or does not fit where it stands: then the lists are to be dropped.
pub(crate) fn edit_in_place(
    alloc: Global,
    lists: &mut Lists,
    vertex: usize,
    scratch: &mut Scratch,
) -> Result<Option<Counts>, AllocError>
    requires kept { AreKept lists.old }
    requires inside { vertex < length (rows_of lists.old) }
    requires edits { AreOwnEdits scratch.old.own.items (slice_index_or (rows_of lists.old) vertex []) }
    ensures { IfOk result (λ done. IfSome done (λ more.
        IsReplacedAfter scratch.old.own.items vertex more lists.old lists.new)) }
{
    match lists.place(vertex) {
        Place::Nowhere => merge_in_place(alloc, lists, vertex, scratch),
        Place::InShort(_) => merge_in_place(alloc, lists, vertex, scratch),
        Place::InBlock(_) => merge_in_place(alloc, lists, vertex, scratch),
        Place::InArray(run) => edit_run_of(lists, vertex, run, &mut scratch.own),
        Place::InTree(number) => edit_tree_of(alloc, lists, vertex, number, &mut scratch.own),
    }
}
