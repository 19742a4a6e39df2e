//! The end at which versions are made.
ghost use Rattle.std.specs.Prelude.{◌≡◌, ◌<◌, ◌≤◌, ◌↔◌, ◌++◌, None, length, option_map, IfOk, IfErr, IfSome, IfNone, IsErrOf};
ghost use Rattle.std.specs.Arc.{arc_value};
ghost use Rattle.past_model.specs.declared.limits.TheConstants.{MOST_BATCHES, SERVED_EPOCHS};
ghost use Rattle.past_model.specs.Past.{number_of, epoch_of};
ghost use Rattle.store_model.specs.declared.limits.TheConstants.{QUEUE_PLACES};
ghost use Rattle.history.specs.Moment.{OneStore};
ghost use Rattle.store.specs.Pending.{entry_held, ComesNext};
ghost use Rattle.store.specs.Feeds.{AreFeedsOf, AreDelivered};
ghost use Rattle.store.specs.Ties.{PublishesAsEvents, RebasesAsEvent, TakesAsEvent};
ghost use Rattle.store.specs.Storing.{taken_of, IsPublished, IsRebased, IsIdle, IsKept};

use crate::committer::Committer;
use crate::errors::{PublishError, RebaseError};
use crate::feed::Feed;
use crate::finished::Finished;
use crate::pending::{Change, Pending, Stage};
use crate::queue::Receiver;
use crate::receipt::Receipt;
use past_model::{Entry, MOST_BATCHES, SERVED_EPOCHS};
use std::marker::Model;
use std::sync::Wait;
use std::thread::Threads;
use workers::{Gate, Workers};

/// The one that makes the versions of a graph, each of the one before and a batch that a feed submitted. It has to be
/// ended by `finish`. Contracts see it as a `Storing`.
pub struct Publisher {
    pub(crate) committer: Committer,
    // A batch that was taken, and that the history does not have.
    pub(crate) held: Option<Entry>,
    pub(crate) pending: Option<Pending>,
    pub(crate) receiver: Receiver,
}

impl Model for Publisher {
    ghost use Rattle.std.specs.Prelude.{◌≡◌, ◌++◌};
    ghost use Rattle.past_model.specs.Epochs.{AreSince};
    ghost use Rattle.store.specs.Pending.{entry_held, entries_held, IsHolding};
    ghost use Rattle.store.specs.Storing.{Storing};

    ghost Value = { Storing };

    ghost view = { λ p. record {
      moment = p.committer.moment;
      held = entry_held p.held p.pending;
      empties = p.receiver.empties;
      queue = p.receiver.queue;
    } };

    ghost invariant = { λ p. AreSince p.committer.moment.past.marks p.receiver.taken
        (p.committer.moment.past.log ++ entries_held (entry_held p.held p.pending))
        × (p.receiver.vertex_count ≡ p.committer.moment.past.vertex_count) × IsHolding p.committer p.held p.pending };
}

impl Publisher {
    /// Publishes one batch: the held one, and else the one that waits longest in the queue. `None`, and nothing is
    /// published, where neither is there. The batch is applied by workers, and what is published is the same for each
    /// number of them, gate and order in which threads run; each edited range's number is a piece of the gate's.
    /// `LogFull` comes exactly after 4,096 batches of one epoch, and takes nothing; a rebase makes room. After `OutOfMemory`, and
    /// after `WorkerRefused`, which one worker cannot meet, nothing is published, and a batch that was taken is held. Where a
    /// rebase waits to be shown, `OutOfMemory` comes before a batch is taken.
    pub fn step<Ga: Gate, R: Threads + Wait>(
        &mut self,
        rt: &R,
        workers: Workers,
        gate: &Ga,
    ) -> Result<Option<Receipt>, PublishError>
        ensures same_queue { self.new.queue ≡ self.old.queue }
        ensures same_store { OneStore self.old.moment self.new.moment }
        ensures published { IfOk result (λ done. IfSome done (λ receipt. IsPublished self.old receipt self.new)) }
        ensures events { IfOk result (λ done.
            IfSome done (λ receipt. IfSome receipt.entry (λ entry. PublishesAsEvents self.old entry self.new))) }
        ensures idle { IfOk result (λ done. IfNone done (IsIdle self.old self.new)) }
        ensures kept { IfErr result (λ _. IsKept self.old self.new) }
        ensures taking { IfErr result (λ _. TakesAsEvent self.old self.new) }
        ensures full { IsErrOf result PublishError.LogFull ↔ (number_of self.old.moment.past ≡ MOST_BATCHES) }
        ensures full_same { IsErrOf result PublishError.LogFull → self.new ≡ self.old }
        ensures alone { workers.count ≡ 1 → IsErrOf result PublishError.WorkerRefused → ⊥ }
    {
        if self.committer.number() >= MOST_BATCHES {
            return Err(PublishError::LogFull);
        }
        if let Some(pending) = self.pending.take() {
            // A batch that waits is shown. A rebase that waits comes back, and is left to `rebase`.
            return match self.committer.publish(pending, rt, workers) {
                Ok(receipt) => Ok(Some(receipt)),
                Err(pending) => {
                    self.pending = Some(pending);
                    Err(PublishError::OutOfMemory)
                }
            };
        }
        let Some(entry) = next_entry(&mut self.held, &mut self.receiver, rt) else {
            return Ok(None);
        };
        match self.committer.begin(&entry, rt, workers, gate) {
            Ok((owners, counts)) => {
                let change = Some(Change { entry, counts });
                let stage = Stage::Added(owners);
                match self
                    .committer
                    .publish(Pending { change, stage }, rt, workers)
                {
                    Ok(receipt) => Ok(Some(receipt)),
                    Err(pending) => {
                        self.pending = Some(pending);
                        Err(PublishError::OutOfMemory)
                    }
                }
            }
            Err(error) => {
                self.held = Some(entry);
                Err(PublishError::from(error))
            }
        }
    }

    /// Publishes the graph of the last version as the base of a new epoch, whose log is empty. Numbers begin again at 0, and
    /// homes stay as they are. A held batch stays held. It may wait for readers. `EpochsFull` comes exactly after 1,024
    /// rebases. Where a batch waits to be shown, the answer is `OutOfMemory` until a step has shown it. After an error
    /// nothing is changed.
    pub fn rebase<R: Wait>(&mut self, rt: &R) -> Result<Receipt, RebaseError>
        ensures same_queue { self.new.queue ≡ self.old.queue }
        ensures same_store { OneStore self.old.moment self.new.moment }
        ensures rebased { IfOk result (λ receipt. IsRebased self.old receipt self.new) }
        ensures event { IfOk result (λ _. RebasesAsEvent self.old self.new) }
        ensures same { IfErr result (λ _. self.new ≡ self.old) }
        ensures full { IsErrOf result RebaseError.EpochsFull ↔ (epoch_of self.old.moment.past ≡ SERVED_EPOCHS) }
    {
        if self.committer.epoch() >= SERVED_EPOCHS {
            return Err(RebaseError::EpochsFull);
        }
        match self.committer.rebase(self.pending.take(), rt) {
            Ok(receipt) => Ok(receipt),
            Err(pending) => {
                self.pending = pending;
                Err(RebaseError::OutOfMemory)
            }
        }
    }

    /// The feed of the batch that was taken and is not published, where there is one.
    pub fn holds(&self) -> Option<u8>
        ensures { result ≡ option_map (λ entry. entry.feed) self.now.held }
    {
        match (&self.held, &self.pending) {
            (Some(entry), _) => Some(entry.feed),
            (None, None) => None,
            (None, Some(pending)) => match &pending.change {
                Some(change) => Some(change.entry.feed),
                None => None,
            },
        }
    }

    /// Ends the store, once its feeds are handed in, from A on. It takes no memory. Readers are answered from then on
    /// that the store is closed.
    pub fn finish<R: Wait>(self, feeds: Vec<Feed>, rt: &R) -> Finished
        requires { AreFeedsOf self feeds.items }
        ensures last { arc_value result.last ≡ self.moment.past }
        ensures held { result.held ≡ self.held }
        ensures delivered { AreDelivered self.moment.past.marks (taken_of self ++ result.left.items) feeds.items }
        ensures few { length result.left.items ≤ QUEUE_PLACES }
    {
        let Publisher {
            committer,
            held,
            pending,
            receiver,
        } = self;
        let left = receiver.finish(feeds, rt);
        Finished {
            last: committer.close(rt),
            held: into_entry(held, pending),
            left,
        }
    }
}

// The batch that comes next: the held one, and else the one that waits longest.
fn next_entry<R: Wait>(held: &mut Option<Entry>, receiver: &mut Receiver, rt: &R) -> Option<Entry>
    ensures next { ComesNext held.old receiver.old result receiver.new }
    ensures none { held.new ≡ None }
{
    match held.take() {
        Some(entry) => Some(entry),
        None => receiver.pop(rt),
    }
}

// The batch that was taken and is not published.
fn into_entry(held: Option<Entry>, pending: Option<Pending>) -> Option<Entry>
    ensures { result ≡ entry_held held pending }
{
    match held {
        Some(entry) => Some(entry),
        None => match pending {
            Some(pending) => pending.into_entry(),
            None => None,
        },
    }
}
