//! What is known of a history, for good.
ghost use Rattle.std.specs.Prelude.{◌≡◌, ◌≤◌};
ghost use mathlib.Core.List.{IsPrefix};
ghost use Rattle.history.specs.Moment.{count_of};

use crate::published::Published;
use crate::rule::Law;
use logbook::Seen;
use std::marker::Model;

/// That a store's history begins with these publications. It has no bytes, and stays true for good.
#[derive(Drop)]
pub struct Known {
    seen: Seen<Published, u64, Law>,
}

impl Model for Known {
    ghost use Rattle.history.specs.Moment.{Beginning};

    ghost Value = { Beginning };

    ghost view = { λ k. record { published = k.seen.log; book = k.seen.book } };
}

impl Known {
    /// What such a token of the book shows.
    pub(crate) fn of(seen: Seen<Published, u64, Law>) -> Known
        ensures published { result.published ≡ seen.log }
        ensures book { result.book ≡ seen.book }
    {
        Known { seen }
    }

    /// The book's token.
    pub(crate) fn token(&self) -> Seen<Published, u64, Law>
        ensures log { result.log ≡ self.now.published }
        ensures book { result.book ≡ self.now.book }
    {
        self.seen.again()
    }

    /// A copy.
    pub fn again(&self) -> Known
        ensures { result ≡ self.now }
    {
        Known {
            seen: self.seen.again(),
        }
    }
}

/// Of two beginnings of one history, the one with no more publications begins the other.
pub fn compare(a: &Known, b: &Known)
    requires { b.now.book ≡ a.now.book }
    ensures left { count_of a.now ≤ count_of b.now → IsPrefix a.now.published b.now.published }
    ensures right { count_of b.now ≤ count_of a.now → IsPrefix b.now.published a.now.published }
{
    let mut both = a.token();
    both.learn(&b.token());
}
