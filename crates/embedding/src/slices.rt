//! The slices in which a vertex's neighbours lie, lent where they lie.
ghost use Rattle.std.specs.Prelude.{◌≡◌, ◌<◌, Some, drop, length, slice_index_or};
ghost use Rattle.std.specs.Ptr.{as_ptr};
ghost use Rattle.graph_model.specs.Graph.{neighbours};
ghost use Rattle.past_model.specs.Past.{graph_of};
ghost use Rattle.embedding.specs.declared.statuses.TheConstants.{DONE};
ghost use Rattle.embedding.specs.Holding.{OnVersion};
ghost use Rattle.embedding.specs.Slices.{AreLent};

use crate::held::Held;
use crate::statuses::{DONE, OTHER_KIND};
use version::Version;

/// Where some neighbours lie, one after another, and how many they are.
#[repr(C)]
#[derive(Clone, Copy)]
pub struct Slice {
    /// The first neighbour's address.
    pub at: *const u32,
    /// How many neighbours lie there.
    pub count: usize,
}

// The first of some words.
fn first_of(words: &[u32]) -> &u32
    requires { 0 < length words.now }
    ensures { result.now ≡ slice_index_or words.now 0 0 }
{
    &words[0]
}

// A slice that begins with this word.
fn slice_from(first: &u32, count: usize) -> Slice
    ensures count { result.count ≡ count }
    ensures at { result.at ≡ as_ptr first.entry }
{
    Slice {
        at: std::ptr::from_ref(first),
        count,
    }
}

// Writes the slices of a vertex's neighbours from a place on, as far as there is room, and returns how many.
fn lend(version: &Version, vertex: u32, place: u32, slices: &mut [Slice]) -> usize
    ensures { AreLent (drop place (neighbours (graph_of version.now) vertex)) result slices.old slices.new }
{
    let mut cursor = version.cursor_from(vertex, place);
    let mut lent = 0usize;
    'slices: while lent < slices.len() {
        let Some(words) = cursor.next_slice() else {
            return lent;
        };
        slices[lent] = slice_from(first_of(words), words.len());
        lent += 1;
    }
    lent
}

/// Writes the slices in which a vertex's neighbours lie, in order, and how many it wrote: as many as there is room for, and
/// fewer only where these are all. They stay where they are while any handle of the version is open.
pub fn lend_held(held: &Held, vertex: u32, slices: &mut [Slice], lent: &mut usize) -> u32
    ensures { OnVersion (Some held.now) result ((slices.new ≡ slices.old) × (lent.new ≡ lent.old))
        (λ p. (result ≡ DONE) × AreLent (neighbours (graph_of p) vertex) lent.new slices.old slices.new) }
{
    lend_from_held(held, vertex, 0, slices, lent)
}

/// Writes the slices in which a vertex's neighbours lie from a place on, from 0, and how many it wrote, as `lend_held` does.
/// There are none past the neighbours' end.
pub fn lend_from_held(
    held: &Held,
    vertex: u32,
    place: u32,
    slices: &mut [Slice],
    lent: &mut usize,
) -> u32
    ensures { OnVersion (Some held.now) result ((slices.new ≡ slices.old) × (lent.new ≡ lent.old))
        (λ p. (result ≡ DONE) × AreLent (drop place (neighbours (graph_of p) vertex)) lent.new slices.old slices.new) }
{
    match held {
        Held::Version(version) => {
            *lent = lend(version, vertex, place, slices);
            DONE
        }
        Held::Store(_) => OTHER_KIND,
        Held::Program(_) => OTHER_KIND,
    }
}
