//! The list of a vertex after its edits, put last among the lists of a page that is being made.
ghost use Rattle.std.specs.Prelude.{◌<◌, [], length, slice_index_or, IfOk};
ghost use Rattle.past_model.specs.declared.home.Home.TheVariants.{Block, Tree};
ghost use Rattle.shards.specs.declared.pages.TheConstants.{PAGE_VERTICES};
ghost use Rattle.shards.specs.Lists.{AreKept, rows_of, homes_of};
ghost use Rattle.shards.specs.Put.{AreOwnEdits, IsPushedAfter};

use crate::counts::Counts;
use crate::edited::edited_list;
use crate::edited_tree::edited_tree;
use crate::lists::Lists;
use crate::scratch::Scratch;
use neighbour_btree::NeighbourTree;
use past_model::Home;
use std::alloc::{AllocError, Global};

/// A tree with at least so many words for each edit gets the edits put in; any other list is rebuilt.
pub(crate) const WORDS_AN_EDIT: usize = 32;

// Merges a list of a page with the edits in the scratch, and puts the merged list last.
fn push_merged(
    alloc: Global,
    page: &Lists,
    place: usize,
    scratch: &mut Scratch,
) -> Result<Counts, AllocError>
    requires kept { AreKept page.now }
    requires inside { place < length (rows_of page.now) }
    requires made { AreKept scratch.old.lists }
    requires room { length (rows_of scratch.old.lists) < PAGE_VERTICES }
    requires edits { AreOwnEdits scratch.old.own.items (slice_index_or (rows_of page.now) place []) }
    ensures { IfOk result (λ more. IsPushedAfter scratch.old.own.items (slice_index_or (rows_of page.now) place [])
        (slice_index_or (homes_of page.now) place Block) more scratch.old.lists scratch.new.lists) }
{
    let more = edited_list(
        page,
        place,
        &mut scratch.own,
        &mut scratch.gathered,
        &mut scratch.merged,
    )?;
    let words = scratch.merged.words();
    let home = page.home(place).after(words.len() as u32);
    scratch.lists.push(alloc, home, words)?;
    Ok(more)
}

// Puts the edits in the scratch into a tree, and puts that list last. The home depends on the degree after the edits,
// so the tree is edited first.
fn push_edited_tree(
    alloc: Global,
    tree: &NeighbourTree,
    scratch: &mut Scratch,
) -> Result<Counts, AllocError>
    requires made { AreKept scratch.old.lists }
    requires room { length (rows_of scratch.old.lists) < PAGE_VERTICES }
    requires edits { AreOwnEdits scratch.old.own.items tree.now }
    ensures { IfOk result (λ more.
        IsPushedAfter scratch.old.own.items tree.now Tree more scratch.old.lists scratch.new.lists) }
{
    let (next, more) = edited_tree(alloc, tree, &mut scratch.own)?;
    let home = Home::Tree.after(next.len());
    scratch
        .lists
        .push_moved(alloc, home, next, &mut scratch.gathered)?;
    Ok(more)
}

/// Puts a list of a page after the edits in the scratch, which are of its vertex, after the lists in the scratch, and
/// returns what the edits did.
// A function of its own: its branches inside the loop over a page cost every page some hundred instructions.
#[inline(never)]
pub(crate) fn push_edited(
    alloc: Global,
    page: &Lists,
    place: usize,
    scratch: &mut Scratch,
) -> Result<Counts, AllocError>
    requires kept { AreKept page.now }
    requires inside { place < length (rows_of page.now) }
    requires made { AreKept scratch.old.lists }
    requires room { length (rows_of scratch.old.lists) < PAGE_VERTICES }
    requires edits { AreOwnEdits scratch.old.own.items (slice_index_or (rows_of page.now) place []) }
    ensures { IfOk result (λ more. IsPushedAfter scratch.old.own.items (slice_index_or (rows_of page.now) place [])
        (slice_index_or (homes_of page.now) place Block) more scratch.old.lists scratch.new.lists) }
{
    if let Some(tree) = page.tree_of(place) {
        if scratch.own.len() <= tree.len() as usize / WORDS_AN_EDIT {
            return push_edited_tree(alloc, tree, scratch);
        }
    }
    push_merged(alloc, page, place, scratch)
}
