//! What a publication proves.
ghost use Rattle.std.specs.Prelude.{◌≡◌, ◌≤◌, option_map, MatchOption, Some, None};
ghost use Rattle.past_model.specs.declared.limits.TheConstants.{MOST_BATCHES, SERVED_EPOCHS};
ghost use Rattle.past_model.specs.Past.{number_of, epoch_of};
ghost use Rattle.store.specs.Receipts.{IsPublication, publication_by};

use crate::pending::Change;
use crate::recorded::Recorded;
use past_model::Batch;
use std::marker::Model;

/// The proof of one publication: the version that it made, its batch, which a rebase does not have, and what the batch
/// did. Contracts see it as the `Publication`.
pub struct Receipt {
    version: Recorded,
    change: Option<Change>,
}

impl Drop for Receipt {
    // Written out, so that crates above prove a call here, and not the drop of each part.
    fn drop(self) {
        let Receipt {
            version: _version,
            change: _change,
        } = self;
    }
}

impl Model for Receipt {
    ghost use Rattle.store.specs.Receipts.{Publication, IsPublication, publication_by};

    ghost Value = { Publication };

    ghost view = { λ r. publication_by r.version r.change };

    ghost invariant = { λ r. IsPublication (publication_by r.version r.change) };
}

impl Receipt {
    /// The receipt of a version that this batch made, or that a rebase did.
    pub(crate) fn of(version: Recorded, change: Option<Change>) -> Receipt
        requires { IsPublication (publication_by version change) }
        ensures { result ≡ publication_by version change }
    {
        Receipt { version, change }
    }

    /// The version that was made.
    pub(crate) fn version(&self) -> &Recorded
        ensures { result.now ≡ self.now.moment }
    {
        &self.version
    }

    /// The number of the version that was made: how many batches its log has, at most 4,096. After a rebase it has none.
    pub fn number(&self) -> u64
        ensures value { result ≡ number_of self.now.moment.past }
        ensures small { result ≤ MOST_BATCHES }
        ensures published { IsPublication self.now }
    {
        let _change = &self.change;
        self.version.number()
    }

    /// The epoch of the version that was made: how many ended before it, at most 1,024.
    pub fn epoch(&self) -> u64
        ensures value { result ≡ epoch_of self.now.moment.past }
        ensures small { result ≤ SERVED_EPOCHS }
    {
        self.version.epoch()
    }

    /// The feed that the batch came by. A rebase has none.
    pub fn feed(&self) -> Option<u8>
        ensures { result ≡ option_map (λ entry. entry.feed) self.now.entry }
    {
        match &self.change {
            None => None,
            Some(change) => Some(change.entry.feed),
        }
    }

    /// The batch. A rebase has none.
    pub fn batch(&self) -> Option<&Batch>
        ensures { MatchOption result (self.now.entry ≡ None) (λ batch. option_map (λ entry. entry.batch) self.now.entry
            ≡ Some batch.now) }
    {
        match &self.change {
            None => None,
            Some(change) => Some(&change.entry.batch),
        }
    }

    /// How many edges there are since the batch that were not there before.
    pub fn added(&self) -> u64
        ensures { result ≡ self.now.added }
    {
        match &self.change {
            None => 0,
            Some(change) => change.counts.added,
        }
    }

    /// How many edges there were before the batch that are not there since.
    pub fn removed(&self) -> u64
        ensures { result ≡ self.now.removed }
    {
        match &self.change {
            None => 0,
            Some(change) => change.counts.removed,
        }
    }
}
