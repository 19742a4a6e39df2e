//! The words of a tree, slice by slice.
ghost use Rattle.std.specs.Prelude.{◌≡◌, ◌<◌, ◌++◌, [], length, MatchOption};

use crate::tree::NeighbourTree;
use std::marker::Model;

/// What is left of a tree's words. Clauses see it as the list of these.
#[derive(Drop)]
pub struct Slices<'a> {
    tree: &'a NeighbourTree,
    place: u32,
    len: u32,
}

impl<'a> Model for Slices<'a> {
    ghost use Rattle.std.specs.Prelude.{◌≡◌, ◌≤◌, List, ℕ, drop, length};

    ghost Value = { List ℕ };

    ghost view = { λ s. drop s.place s.tree.now };

    ghost invariant = { λ s. (s.len ≡ length s.tree.now) × (s.place ≤ s.len) };
}

impl<'a> Slices<'a> {
    /// All words of a tree.
    pub fn of(tree: &'a NeighbourTree) -> Slices<'a>
        ensures { result ≡ tree.now }
    {
        Slices {
            tree,
            place: 0,
            len: tree.len(),
        }
    }

    /// The next words, some at least, or `None` at the end. They lie in the tree, and are not copied.
    pub fn next_slice(&mut self) -> Option<&'a [u32]>
        ensures { MatchOption result ((self.old ≡ []) × (self.new ≡ [])) (λ slice. (0 < length slice.now)
            × (self.old ≡ slice.now ++ self.new)) }
    {
        if self.place == self.len {
            return None;
        }
        let slice = self.tree.slice_at(self.place);
        self.place += slice.len() as u32;
        Some(slice)
    }
}
