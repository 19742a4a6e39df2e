//! Changes of an array and of a tree, which a call that is refused leaves as they were. A block takes no memory, so it has no part in
//! this.
ghost use Rattle.word_sets.specs.Words.{IsSet};

use crate::stop::Stop;
use gapped_array::GappedArray;
use neighbour_btree::NeighbourTree;
use std::alloc::{AllocError, Global};

// How many words the array gets, and the tree is made of: the run moves twice.
const WORDS: u32 = 33;

// How many words the tree grows to: its leaf is cut, so that it gets a second level, and then one of two leaves.
const MOST_WORDS: u32 = 97;

// How many words the tree then loses: two of three leaves are joined, and then the last two.
const LOST_WORDS: u32 = 50;

// Whether a vertex has the numbers below this one.
fn vertex_has(array: &GappedArray, vertex: u8, count: u32) -> bool {
    if !array.is_open(vertex) {
        return false;
    }
    let mut next = 0u32;
    for word in array.words(vertex) {
        if *word != next {
            return false;
        }
        next = next.wrapping_add(1);
    }
    next == count
}

// Whether a tree has the numbers from one to below another.
fn tree_has(tree: &NeighbourTree, from: u32, to: u32) -> bool {
    let mut slices = tree.slices();
    let mut next = from;
    for _ in 0..MOST_WORDS {
        let Some(slice) = slices.next_slice() else {
            return next == to;
        };
        for word in slice {
            if *word != next {
                return false;
            }
            next = next.wrapping_add(1);
        }
    }
    false
}

// An array in which vertex 0 has the numbers below `WORDS`, and vertex 1 the same at once.
fn filled_array(alloc: Global) -> Result<GappedArray, Stop> {
    let Ok(mut array) = GappedArray::new(alloc) else {
        return Err(Stop::NotBegun);
    };
    if array.vertex_count() < 2 || array.is_open(0) || array.is_open(1) {
        return Err(Stop::Wrong);
    }
    array.open_run(0);
    for word in 0..WORDS {
        if !array.is_open(0) {
            return Err(Stop::Wrong);
        }
        match array.insert(0, word) {
            Ok(true) => {}
            Ok(false) => return Err(Stop::Wrong),
            Err(AllocError) => {
                return Err(Stop::ArrayUnchanged.if_unchanged(vertex_has(&array, 0, word)));
            }
        }
    }
    let Ok(copy) = array.copy(alloc) else {
        return Err(Stop::ArrayUnchanged.if_unchanged(vertex_has(&array, 0, WORDS)));
    };
    if array.vertex_count() < 2 || !copy.is_open(0) || array.is_open(1) {
        return Err(Stop::Wrong);
    }
    let opened = array.open_with(1, copy.words(0)).is_ok();
    let is_right = vertex_has(&array, 0, WORDS) && vertex_has(&copy, 0, WORDS);
    match (is_right, opened) {
        (false, _) => Err(Stop::Wrong),
        (true, false) => Err(Stop::ArrayUnchanged.if_unchanged(!array.is_open(1))),
        (true, true) => Ok(array),
    }
}

// Puts in the numbers from `WORDS` on, where the tree has all below.
fn grow(alloc: Global, tree: &mut NeighbourTree) -> Result<(), Stop> {
    for word in WORDS..MOST_WORDS {
        match tree.insert(alloc, word) {
            Ok(true) => {}
            Ok(false) => return Err(Stop::Wrong),
            Err(AllocError) => {
                return Err(Stop::TreeUnchanged.if_unchanged(tree_has(tree, 0, word)));
            }
        }
    }
    Ok(())
}

// Takes out the numbers from 0 on, where the tree has those below `MOST_WORDS`.
fn shrink(alloc: Global, tree: &mut NeighbourTree) -> Result<(), Stop> {
    for word in 0..LOST_WORDS {
        match tree.remove(alloc, word) {
            Ok(true) => {}
            Ok(false) => return Err(Stop::Wrong),
            Err(AllocError) => {
                return Err(Stop::TreeUnchanged.if_unchanged(tree_has(tree, word, MOST_WORDS)));
            }
        }
    }
    if tree_has(tree, LOST_WORDS, MOST_WORDS) {
        Ok(())
    } else {
        Err(Stop::Wrong)
    }
}

// A tree of these words that grows, and then shrinks while another shares what it had.
fn grow_and_shrink(alloc: Global, words: &[u32]) -> Result<(), Stop>
    requires { IsSet words.now }
{
    let Ok(mut tree) = NeighbourTree::of(alloc, words) else {
        return Err(Stop::NotBegun);
    };
    grow(alloc, &mut tree)?;
    let Ok(before) = tree.share() else {
        return Err(Stop::TreeUnchanged);
    };
    let shrunk = shrink(alloc, &mut tree);
    if tree_has(&before, 0, MOST_WORDS) {
        shrunk
    } else {
        Err(Stop::Wrong)
    }
}

/// An array that gets words, and a tree that grows and shrinks.
pub(crate) fn change_homes(alloc: Global) -> Result<(), Stop> {
    let array = filled_array(alloc)?;
    if !array.is_open(1) {
        return Err(Stop::Wrong);
    }
    grow_and_shrink(alloc, array.words(1))
}
