//! The end of a history, where batches are added.
ghost use Rattle.std.specs.Prelude.{◌≡◌, ◌<◌, IfSome};
ghost use Rattle.history.specs.declared.limits.TheConstants.{MOST_PUBLICATIONS};
ghost use Rattle.history.specs.declared.published.Published.TheVariants.{Batch, Rebase};
ghost use Rattle.history.specs.Moment.{nothing_published, and_then, count_of};

use crate::known::Known;
use crate::published::Published;
use crate::rule::{Add, Law, NewEpoch, Nothing};
use logbook::{Offer, Seen, Start, Word};
use past_model::Entry;
use std::marker::Model;

/// The end of a store's history, where batches are added. Contracts see it as the book that keeps the history.
#[derive(Drop)]
pub struct Head {
    word: Word<Published, u64, Law>,
}

impl Model for Head {
    ghost use Rattle.std.specs.Prelude.{◌≡◌};
    ghost use Rattle.logbook.specs.Pages.{Book};
    ghost use Rattle.history.specs.Rule.{head_of};

    ghost Value = { Book };

    ghost view = { λ h. h.word.book };

    ghost invariant = { λ h. h.word ≡ head_of h.word.book };
}

impl Head {
    /// A history of a book of its own, with nothing published.
    pub fn new() -> (Head, Known)
        ensures { result.1 ≡ nothing_published result.0 }
    {
        let (seen, mut first, _second) = Seen::open(Start::alone(), 0, 0);
        let head = Head {
            word: Word::tracked(0, &mut first),
        };
        (head, Known::of(seen))
    }

    /// Adds a batch to all that is known. `None`, and nothing is added, where the history is longer than that.
    pub fn add(&self, known: &Known, count: u64, entry: &Entry) -> Option<Known>
        requires book { known.now.book ≡ self.now }
        requires count { count ≡ count_of known.now }
        requires room { count < MOST_PUBLICATIONS }
        ensures { IfSome result (λ longer. longer ≡ and_then known.now (Batch entry.now)) }
    {
        let mut seen = known.token();
        let mut offer: Offer<Published, u64, Law, Nothing> = seen.plain::<Nothing, Entry, Add>(
            entry,
        );
        let mut pen = seen.no_pen();
        let found = self
            .word
            .compare_exchange::<Add, Nothing>(count, count + 1, &mut seen, &mut offer, &mut pen);
        if found == count {
            Some(Known::of(seen))
        } else {
            None
        }
    }

    /// Adds a rebase to all that is known. `None`, and nothing is added, where the history is longer than that.
    pub fn rebase(&self, known: &Known, count: u64) -> Option<Known>
        requires book { known.now.book ≡ self.now }
        requires count { count ≡ count_of known.now }
        requires room { count < MOST_PUBLICATIONS }
        ensures { IfSome result (λ longer. longer ≡ and_then known.now Rebase) }
    {
        let mut seen = known.token();
        let mut offer: Offer<Published, u64, Law, Nothing> = seen.plain::<
            Nothing,
            NewEpoch,
            NewEpoch,
        >(&NewEpoch);
        let mut pen = seen.no_pen();
        let found = self
            .word
            .compare_exchange::<Add, Nothing>(count, count + 1, &mut seen, &mut offer, &mut pen);
        if found == count {
            Some(Known::of(seen))
        } else {
            None
        }
    }
}
