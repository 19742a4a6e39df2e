//! A publication that the history has, and how far it has come.
ghost use Rattle.std.specs.Prelude.{◌≡◌};
ghost use Rattle.store.specs.Pending.{entry_of};

use crate::recorded::{Owners, Recorded};
use past_model::Entry;
use version::Counts;

/// A batch, and what it does to the edges.
#[derive(Drop)]
pub struct Change {
    pub entry: Entry,
    pub counts: Counts,
}

/// A publication that the history has, and that readers are not shown yet: of a batch, or, without a change, of a rebase.
#[derive(Drop)]
pub struct Pending {
    pub change: Option<Change>,
    pub stage: Stage,
}

impl Pending {
    /// The batch; a rebase has none.
    pub(crate) fn into_entry(self) -> Option<Entry>
        ensures { result ≡ entry_of self.change }
    {
        let Pending { change, stage: _ } = self;
        match change {
            Some(change) => Some(change.entry),
            None => None,
        }
    }
}

/// How far a publication has come. What is done is not done again.
#[derive(Drop)]
pub enum Stage {
    /// Its version is to be handed in.
    Added(Owners<Recorded>),
    /// Its version was handed in to be shown. The other owners are for the publisher and for the receipt.
    Ready(Recorded, Recorded),
}
