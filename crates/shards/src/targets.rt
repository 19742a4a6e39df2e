//! A vertex's targets where they stand.
ghost use Rattle.std.specs.Prelude.{◌≡◌, ◌<◌, ◌≤◌, ◌++◌, [], length, drop, MatchOption};
ghost use Rattle.past_model.specs.declared.limits.TheConstants.{MOST_VERTICES};

use crate::lists::Lists;
use std::marker::Model;

/// A vertex's targets from a place on, where they stand. Contracts see them as a list.
#[derive(Drop)]
pub struct Targets<'a> {
    pub(crate) page: &'a Lists,
    // Its vertex's place in the page.
    pub(crate) vertex: u8,
    pub(crate) place: u32,
}

impl<'a> Model for Targets<'a> {
    ghost use Rattle.std.specs.Prelude.{List, ℕ};
    ghost use Rattle.shards.specs.Targets.{targets_at, AreTargets};

    ghost Value = { List ℕ };

    ghost view = { λ t. targets_at t.page.now t.vertex t.place };

    ghost invariant = { λ t. AreTargets t.page.now t.vertex t.place };
}

impl<'a> Targets<'a> {
    /// How many they are.
    pub fn count(&self) -> u32
        ensures value { result ≡ length self.now }
        ensures small { result ≤ MOST_VERTICES }
    {
        self.page.degree(usize::from(self.vertex)) - self.place
    }

    /// Those after so many.
    pub fn skip(self, count: u32) -> Targets<'a>
        ensures { result ≡ drop count self.entry }
    {
        let count = count.min(self.count());
        Targets {
            page: self.page,
            vertex: self.vertex,
            place: self.place + count,
        }
    }

    /// The next of them that lie side by side, which are not among them any more. It is `None` at the end alone. How a list is cut
    /// into such slices is left open.
    pub fn next_slice(&mut self) -> Option<&'a [u32]>
        ensures { MatchOption result
            ((self.old ≡ []) × (self.new ≡ []))
            (λ slice. (0 < length slice.now) × (self.old ≡ slice.now ++ self.new)) }
    {
        let page: &'a Lists = self.page;
        let slice = page.lent_at(usize::from(self.vertex), self.place);
        if slice.is_empty() {
            return None;
        }
        self.place += slice.len() as u32;
        Some(slice)
    }
}
