//! A graph that changes by batches, in one thread.
ghost use Rattle.std.specs.Prelude.{◌≡◌, ◌<◌, IfOk};
ghost use Rattle.std.specs.Arc.{arc_value};
ghost use Rattle.past_model.specs.declared.limits.TheConstants.{MOST_BATCHES, MOST_EPOCHS};
ghost use Rattle.past_model.specs.Edits.{AreEditsBelow};
ghost use Rattle.past_model.specs.Past.{number_of, epoch_of, opening, longer};
ghost use Rattle.past_model.specs.Epochs.{branched, rebased};
ghost use Rattle.version.specs.Version.{IsVertexCount};
ghost use Rattle.version.specs.Sorted.{AreSorted, past_of};
ghost use Rattle.embedding.specs.declared.statuses.TheConstants.{DONE, NO_MEMORY};
ghost use Rattle.embedding.specs.Applying.{fault_in, change_of, IsApplied, IsRebased};

use crate::statuses::{DONE, EPOCHS_FULL, FEED, LOG_FULL, NO_MEMORY, TOO_MANY_EDITS, VERTEX_RANGE};
use past_model::{Entry, FEEDS, MOST_BATCHES, MOST_EDITS, MOST_EPOCHS};
use std::alloc::{AllocError, Global};
use std::marker::Model;
use std::sync::Arc;
use version::Version;

/// What a batch did, and which version it made.
#[repr(C)]
#[derive(Clone, Copy, Debug, PartialEq, Eq)]
pub struct Change {
    /// How many edges there are since then that were not there before.
    pub added: u64,
    /// How many edges there were before that are not there since then.
    pub removed: u64,
    /// The version's number: how many batches of its epoch were applied, with this one.
    pub number: u64,
}

/// A graph that changes by batches. It keeps the last version, and makes the next one of it. Contracts see it as that
/// version's past. It starts no thread and waits for none.
pub struct Store {
    alloc: Global,
    current: Arc<Version>,
}

impl Drop for Store {
    // Written out, so that crates above prove a call here, and not the drop of each part.
    fn drop(self) {
        let Store {
            alloc: _alloc,
            current: _current,
        } = self;
    }
}

impl Model for Store {
    ghost use Rattle.std.specs.Arc.{arc_value};
    ghost use Rattle.past_model.specs.Past.{Past};

    ghost Value = { Past };

    ghost view = { λ s. arc_value s.current };
}

impl Store {
    /// A graph of so many vertices without an edge.
    pub fn new(alloc: Global, vertex_count: u32) -> Result<Store, AllocError>
        requires { IsVertexCount vertex_count }
        ensures { IfOk result (λ store. store ≡ opening vertex_count) }
    {
        let version = Version::opening(alloc, vertex_count)?;
        Ok(Store {
            alloc,
            current: Arc::new(alloc, version)?,
        })
    }

    /// A graph whose first version is this one, as the base of a first epoch without a batch. No list is copied, and the version
    /// stays.
    pub fn of(alloc: Global, version: &Version) -> Result<Store, AllocError>
        ensures { IfOk result (λ store. store ≡ branched version.now) }
    {
        let version = version.branched(alloc)?;
        Ok(Store {
            alloc,
            current: Arc::new(alloc, version)?,
        })
    }

    /// A graph whose edges are given in sorted arrays, as the base of a first epoch without a batch.
    pub fn of_lists(
        alloc: Global,
        vertex_count: u32,
        starts: &[u64],
        targets: &[u32],
    ) -> Result<Store, AllocError>
        requires count { IsVertexCount vertex_count }
        requires sorted { AreSorted vertex_count starts.now targets.now }
        ensures { IfOk result (λ store. store ≡ past_of vertex_count starts.now targets.now) }
    {
        let version = Version::of_lists(alloc, vertex_count, starts, targets)?;
        Ok(Store {
            alloc,
            current: Arc::new(alloc, version)?,
        })
    }

    /// Another owner of the last version.
    pub fn pin(&self) -> Result<Arc<Version>, AllocError>
        ensures { IfOk result (λ version. arc_value version ≡ self.now) }
    {
        Ok(Arc::try_clone(&self.current)?)
    }

    // What is wrong with a batch, by the first test that fails.
    fn fault(&self, entry: &Entry) -> u32
        ensures value { result ≡ fault_in self.now entry.now }
        ensures room { result ≡ DONE → number_of self.now < MOST_BATCHES }
        ensures below { result ≡ DONE → AreEditsBelow self.now.vertex_count entry.now.batch }
    {
        if entry.batch.edits().len() > MOST_EDITS {
            return TOO_MANY_EDITS;
        }
        if !entry.batch.is_below(self.current.vertex_count()) {
            return VERTEX_RANGE;
        }
        if self.current.number() >= MOST_BATCHES {
            return LOG_FULL;
        }
        if entry.feed >= FEEDS {
            return FEED;
        }
        DONE
    }

    // The next version, and what the batch does.
    fn next(&self, entry: &Entry) -> Result<(Arc<Version>, Change), AllocError>
        requires room { number_of self.now < MOST_BATCHES }
        requires below { AreEditsBelow self.now.vertex_count entry.now.batch }
        ensures next { IfOk result (λ made. arc_value made.0 ≡ longer self.now entry.now) }
        ensures change { IfOk result (λ made. made.1 ≡ change_of self.now entry.now) }
    {
        let (version, counts) = self.current.next_alone(self.alloc, entry)?;
        let change = Change {
            added: counts.added,
            removed: counts.removed,
            number: self.current.number() + 1,
        };
        Ok((Arc::new(self.alloc, version)?, change))
    }

    /// Applies a batch: it makes the next version, and reports what the batch did. Else the store is as it was, and nothing is
    /// written. `TOO_MANY_EDITS` exactly above 65,536 edits; else `VERTEX_RANGE` exactly where an edit names a vertex that the
    /// graph does not have; else `LOG_FULL` exactly after 4,096 batches of one epoch; else `FEED` exactly where there is no
    /// such feed.
    /// `NO_MEMORY` comes only where all tests pass: all that is wanted is taken before the store changes, so that the same
    /// batch may be applied again.
    pub fn apply(&mut self, entry: &Entry, change: &mut Change) -> u32
        ensures applied { IsApplied self.old entry.now result self.new change.old change.new }
        ensures memory { result ≡ NO_MEMORY → fault_in self.old entry.now ≡ DONE }
    {
        let fault = self.fault(entry);
        if fault != DONE {
            return fault;
        }
        match self.next(entry) {
            Ok((version, made)) => {
                self.current = version;
                *change = made;
                DONE
            }
            Err(_) => NO_MEMORY,
        }
    }

    // The first version of the next epoch.
    fn next_epoch(&self) -> Result<Arc<Version>, AllocError>
        requires { epoch_of self.now < MOST_EPOCHS }
        ensures { IfOk result (λ next. arc_value next ≡ rebased self.now) }
    {
        let version = self.current.rebased(self.alloc)?;
        Ok(Arc::new(self.alloc, version)?)
    }

    /// Makes the graph of the last version the base of a new epoch, whose log is empty, and reports how many epochs ended. Homes
    /// stay as they are, numbers begin again at 0, and there is room for 4,096 batches more. Else the store is as it was, and
    /// nothing is written: `EPOCHS_FULL` exactly after as many rebases as 64 bits count, and else `NO_MEMORY`.
    pub fn rebase(&mut self, epoch: &mut u64) -> u32
        ensures { IsRebased self.old result self.new epoch.old epoch.new }
    {
        let ended = self.current.epoch();
        if ended >= MOST_EPOCHS {
            return EPOCHS_FULL;
        }
        match self.next_epoch() {
            Ok(next) => {
                self.current = next;
                *epoch = ended + 1;
                DONE
            }
            Err(_) => NO_MEMORY,
        }
    }
}
