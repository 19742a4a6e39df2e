//! A vertex's neighbours, one after another.
ghost use Rattle.std.specs.Prelude.{◌≡◌, ◌∷◌, [], MatchOption};

use std::marker::Model;
use version::Cursor;

/// The neighbours that a cursor has still to lend, and those of the slice that it lent last.
#[derive(Drop)]
pub(crate) struct Targets<'a> {
    slice: &'a [u32],
    rest: Cursor<'a>,
}

impl<'a> Model for Targets<'a> {
    ghost use Rattle.std.specs.Prelude.{List, ℕ, ◌++◌};

    ghost Value = { List ℕ };

    ghost view = { λ t. t.slice.now ++ t.rest };
}

impl<'a> Targets<'a> {
    /// All that a cursor has still to lend.
    pub(crate) fn of(rest: Cursor<'a>) -> Targets<'a>
        ensures { result ≡ rest.entry }
    {
        Targets { slice: &[], rest }
    }

    /// The first of what is left.
    pub(crate) fn next(&mut self) -> Option<u32>
        ensures { MatchOption result
            ((self.old ≡ []) × (self.new ≡ []))
            (λ target. self.old ≡ target ∷ self.new) }
    {
        if self.slice.is_empty() {
            self.slice = self.rest.next_slice()?;
        }
        let (target, later) = self.slice.split_first()?;
        self.slice = later;
        Some(*target)
    }

    /// Some of what is left, in one row: what the cursor lent last.
    pub(crate) fn later(&self) -> &'a [u32] {
        self.slice
    }
}
