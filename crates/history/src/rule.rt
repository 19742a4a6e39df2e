//! The rule of a book of one history.
use crate::published::Published;
use logbook::{Gain, Plain, Play, Rule};
use past_model::Entry;

/// The book's first word is the length of its log.
pub struct Law;

impl Rule<Published, u64> for Law {
    ghost use Rattle.std.specs.Prelude.{[]};
    ghost use base.Fml.{ftrue};
    ghost use Rattle.history.specs.Rule.{IsKept};

    ghost holds = { IsKept };

    ghost first = { [] };

    ghost hinted = { λ n log. Unit {0} };

    ghost shows = { λ log. [] };

    ghost keeps = { λ names log. ftrue };

    ghost moves = { λ ask before after answer. Unit {0} };
}

/// Nothing is traded for a step.
pub struct Nothing;

impl Gain<Published, u64> for Nothing {
    ghost use base.Fml.{ftrue};

    ghost after = { λ names about answer. ftrue };
}

/// The step that adds a publication.
pub struct Add;

impl Play<Published, u64> for Add {
    ghost use Rattle.history.specs.Rule.{Adds};

    ghost then = { Adds };
}

impl Plain<Entry, Published, u64> for Add {
    ghost use Rattle.std.specs.Prelude.{None};
    ghost use Rattle.history.specs.declared.published.Published.TheVariants.{Batch};

    ghost ask = { λ entry. Batch entry };

    ghost state = { λ entry. None };
}

/// A rebase is to be added.
pub struct NewEpoch;

impl Plain<NewEpoch, Published, u64> for NewEpoch {
    ghost use Rattle.std.specs.Prelude.{None};
    ghost use Rattle.history.specs.declared.published.Published.TheVariants.{Rebase};

    ghost ask = { λ _. Rebase };

    ghost state = { λ _. None };
}
