//! The three homes of neighbour lists, each by itself. Where a list is kept along batches is tried by `test_script_rows`.
ghost use Rattle.std.specs.Prelude.{◌<◌};

use gapped_array::GappedArray;
use neighbour_btree::NeighbourTree;
use std::alloc::{AllocError, Global};
use vertex_block::{PLACES, VertexBlock};
use word_sets::WORD_LIMIT;

// Puts words into a block as long as it has room. How many were not there.
fn fill(block: &mut VertexBlock, words: &[u32]) -> usize {
    let mut added = 0usize;
    for word in words {
        if *word < WORD_LIMIT && block.as_slice().len() < PLACES && block.insert(*word) {
            added = added.saturating_add(1);
        }
    }
    added
}

// Twelve of thirteen words, in an order that is not theirs; and a copy that stays when one is taken out.
#[test]
fn a_block_has_twelve_words(rt: HostRuntime) {
    let mut block = VertexBlock::new();
    let words = [7, 1_048_575, 0, 3, 9, 2, 8, 4, 6, 5, 1, 10, 11];
    assert_eq!(rt; fill(&mut block, &words), 12);
    assert!(rt; block.is_full());
    let before = block;
    assert!(rt; block.remove(7));
    let left = [0, 1, 2, 3, 4, 5, 6, 8, 9, 10, 1_048_575];
    assert_eq!(rt; block.as_slice(), left.as_slice());
    assert!(rt; before.contains(7));
}

// Opens the lists of the vertices below a number.
fn open_below(array: &mut GappedArray, vertices: u8) {
    for vertex in 0..vertices {
        if usize::from(vertex) < array.vertex_count() && !array.is_open(vertex) {
            array.open_run(vertex);
        }
    }
}

// Puts a word into the list of each vertex below a number: the vertex's own number and another one.
fn put_row(array: &mut GappedArray, vertices: u8, above: u32) -> Result<(), AllocError> {
    for vertex in 0..vertices {
        let word = above.saturating_add(u32::from(vertex));
        if word < WORD_LIMIT && array.is_open(vertex) {
            array.insert(vertex, word)?;
        }
    }
    Ok(())
}

// Puts so many words into the lists of the vertices below a number in turn, from the largest word down: of vertex v
// the words v, v + 2, v + 4 and so on.
fn put_rows(array: &mut GappedArray, vertices: u8, count: u8) -> Result<(), AllocError> {
    for number in 0..count {
        put_row(array, vertices, 2 * u32::from(count - 1 - number))?;
    }
    Ok(())
}

// Takes the words from one on, below another, out of a vertex's list.
fn take_out(array: &mut GappedArray, vertex: u8, from: u32, below: u32) {
    for word in from..below {
        if array.is_open(vertex) {
            array.remove(vertex, word);
        }
    }
}

// Closes the lists of the vertices below a number.
fn close_below(array: &mut GappedArray, vertices: u8) {
    for vertex in 0..vertices {
        if array.is_open(vertex) {
            array.close_run(vertex);
        }
    }
}

// How many words a vertex has, if they ascend by two from its number on; none where it has no list.
fn counted(array: &GappedArray, vertex: u8) -> Option<usize> {
    if !array.is_open(vertex) {
        return None;
    }
    let words = array.words(vertex);
    let mut next = u32::from(vertex);
    for word in words {
        if *word != next {
            return None;
        }
        next = next.wrapping_add(2);
    }
    Some(words.len())
}

// An array in which the vertices below a number have so many words each.
fn filled(alloc: Global, vertices: u8, count: u8) -> Result<GappedArray, AllocError> {
    let mut array = GappedArray::new(alloc)?;
    array.reserve(40)?;
    open_below(&mut array, vertices);
    put_rows(&mut array, vertices, count)?;
    Ok(array)
}

// How many words vertices 254 and 7 have when all lists but that of vertex 254 were closed, which loses half of its words, and
// how many vertex 7 has in a copy from before.
fn closed(alloc: Global) -> Result<[Option<usize>; 3], AllocError> {
    let mut array = filled(alloc, 255, 100)?;
    let copy = array.copy(alloc)?;
    close_below(&mut array, 254);
    take_out(&mut array, 254, 354, 500);
    Ok([counted(&array, 254), counted(&array, 7), counted(&copy, 7)])
}

#[test]
fn closed_lists_of_an_array_leave(rt: HostRuntime) {
    assert_eq!(rt; closed(rt.alloc()), Ok([Some(50), None, Some(100)]));
}

// The numbers below 5,000 times 209, in an order that is not theirs: 1,237 and 5,000 have no common divisor.
fn nth_word(n: u32) -> u32
    ensures { result < 1045000 }
{
    n % 5000 * 1237 % 5000 * 209
}

// The same in another order.
fn nth_of_others(n: u32) -> u32
    ensures { result < 1045000 }
{
    n % 5000 * 3001 % 5000 * 209
}

// Puts each of the words into a tree. How many were not there.
fn put_all(alloc: Global, tree: &mut NeighbourTree) -> Result<u32, AllocError> {
    let mut added = 0u32;
    for n in 0..5000 {
        if tree.insert(alloc, nth_word(n))? {
            added = added.saturating_add(1);
        }
    }
    Ok(added)
}

// Takes each of the words out of a tree, in another order. How many were there.
fn take_all(alloc: Global, tree: &mut NeighbourTree) -> Result<u32, AllocError> {
    let mut removed = 0u32;
    for n in 0..5000 {
        if tree.remove(alloc, nth_of_others(n))? {
            removed = removed.saturating_add(1);
        }
    }
    Ok(removed)
}

// The word after a slice, if its words ascend by 209 from one on.
fn behind(slice: &[u32], first: u32) -> Option<u32> {
    let mut next = first;
    for word in slice {
        if *word != next {
            return None;
        }
        next = next.wrapping_add(209);
    }
    Some(next)
}

// How many words a tree has, if they are 0, 209, 418 and so on.
fn whole(tree: &NeighbourTree) -> Option<u32> {
    let mut slices = tree.slices();
    let mut next = 0;
    'slices: while let Some(slice) = slices.next_slice() {
        next = behind(slice, next)?;
    }
    Some(next / 209)
}

// How many words were put into a tree and taken out, and how many it and what shared it before have then.
fn grown_and_shrunk(alloc: Global) -> Result<([u32; 2], [Option<u32>; 2]), AllocError> {
    let mut tree = NeighbourTree::new(alloc)?;
    let added = put_all(alloc, &mut tree)?;
    let before = tree.share()?;
    let removed = take_all(alloc, &mut tree)?;
    Ok(([added, removed], [whole(&tree), whole(&before)]))
}

// Nodes that are full, too small or shared are rebuilt, so this tries `with` and `without`, too.
#[test]
fn a_tree_grows_and_shrinks(rt: HostRuntime) {
    let told = grown_and_shrunk(rt.alloc());
    assert_eq!(rt; told, Ok(([5_000, 5_000], [Some(0), Some(5_000)])));
}
