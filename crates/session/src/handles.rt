//! All ends of one store, in one thread.

ghost use Rattle.std.specs.Prelude.{◌≡◌, ◌<◌, ◌≤◌, ◌↔◌, ◌⊎◌, true, Some, IfOk, IfErr, IsErrOf};
ghost use Rattle.past_model.specs.declared.limits.TheConstants.{MOST_BATCHES, SERVED_EPOCHS, SERVED_VERTICES};
ghost use Rattle.graph_model.specs.Graph.{edge_count};
ghost use Rattle.past_model.specs.Past.{number_of, epoch_of, graph_of};
ghost use Rattle.past_model.specs.Epochs.{rebased};
ghost use Rattle.session_model.specs.Responses.{entry_of};
ghost use Rattle.session.specs.Handles.{Publishes, new_store};

use crate::error::CommandError;
use past_model::{Batch, Edit};
use std::alloc::Global;
use std::marker::Model;
use std::sync::Wait;
use std::thread::Threads;
use store::{Ends, Pin, PublishError, RebaseError, Receipt, Store, StoreError};
use workers::{Crew, Gate};

/// The ends of a store. Whoever opens one has to close it. Contracts see it as what the last version is the replay of, and
/// the batch that was taken and could not be published.
pub struct Handles {
    vertex_count: u32,
    // How many batches of its epoch the last version has, and how many epochs ended before it.
    number: u64,
    epoch: u64,
    ends: Ends,
}

impl Model for Handles {
    ghost use Rattle.session.specs.Handles.{StoreState, AreHandles};

    ghost Value = { StoreState };

    ghost view = { λ h. record { past = h.ends.publisher.moment.past; held = h.ends.publisher.held } };

    ghost invariant = { λ h. AreHandles h.vertex_count h.number h.epoch h.ends.publisher h.ends.feeds.items
        h.ends.reader };
}

impl Handles {
    /// Those of a new store of a graph with so many vertices.
    pub(crate) fn open<R: Wait>(
        rt: &R,
        alloc: Global,
        vertex_count: u32,
    ) -> Result<Handles, StoreError>
        ensures opened { IfOk result (λ handles. handles ≡ new_store vertex_count) }
        ensures refused { IsErrOf result StoreError.VertexCount
            ↔ ((vertex_count ≡ 0) ⊎ (SERVED_VERTICES < vertex_count)) }
    {
        Ok(Handles {
            vertex_count,
            number: 0,
            epoch: 0,
            ends: Store::new(vertex_count, rt, alloc)?,
        })
    }

    /// How many vertices the graph has.
    pub(crate) fn vertex_count(&self) -> u32
        ensures value { result ≡ self.now.past.vertex_count }
        ensures few { result ≤ SERVED_VERTICES }
    {
        self.vertex_count
    }

    /// How many batches of its epoch the last version has.
    pub(crate) fn number(&self) -> u64
        ensures { result ≡ number_of self.now.past }
    {
        self.number
    }

    /// How many epochs ended before the last version.
    pub(crate) fn epoch(&self) -> u64
        ensures { result ≡ epoch_of self.now.past }
    {
        self.epoch
    }

    /// Hands a batch in by one of the feeds. `false` if there is no such feed, or the store refuses the batch.
    fn submit<R: Wait>(&mut self, rt: &R, feed: u8, batch: Batch) -> bool
        ensures { self.new ≡ self.old }
    {
        let feed = usize::from(feed);
        feed < self.ends.feeds.len() && self.ends.feeds[feed].submit(batch, rt).is_ok()
    }

    /// Submits a batch and publishes it. Where a batch is held, it goes on with that one in place of it, so that a batch that
    /// could not be published can be handed in again. `Store` comes where the store refuses it or has none, and where it
    /// publishes another one.
    pub(crate) fn publish<Ga: Gate, R: Threads + Wait>(
        &mut self,
        crew: &Crew<'_, R, Ga>,
        feed: u8,
        batch: Batch,
    ) -> Result<Receipt, CommandError>
        requires room { number_of self.old.past < MOST_BATCHES }
        ensures published { Publishes self.old (entry_of feed batch) result self.new }
    {
        let Ok(copy) = batch.share() else {
            return Err(CommandError::OutOfMemory);
        };
        if self.ends.publisher.holds().is_none() && !self.submit(crew.rt, feed, batch) {
            return Err(CommandError::Store);
        }
        match self.ends.publisher.step(crew.rt, crew.workers, crew.gate) {
            Ok(Some(receipt)) => {
                self.ends.reader.learn(&receipt);
                self.number = receipt.number();
                self.epoch = receipt.epoch();
                if is_of(&receipt, feed, copy.edits()) {
                    Ok(receipt)
                } else {
                    Err(CommandError::Store)
                }
            }
            Err(PublishError::OutOfMemory) => Err(CommandError::OutOfMemory),
            Err(PublishError::WorkerRefused) => Err(CommandError::WorkerRefused),
            Ok(None) => Err(CommandError::Store),
            Err(PublishError::LogFull) => unreachable!(),
        }
    }

    /// Publishes the last version's graph as the base of a new epoch. How many edges it has. `Store` comes where the reader
    /// gets no hold on the last version.
    pub(crate) fn rebase<R: Wait>(&mut self, rt: &R) -> Result<u64, CommandError>
        requires room { epoch_of self.old.past < SERVED_EPOCHS }
        ensures edges { IfOk result (λ edges. edges ≡ edge_count (graph_of self.old.past)) }
        ensures rebased { IfOk result (λ _. self.new ≡ record self.old { past = rebased self.old.past }) }
        ensures same { IfErr result (λ _. self.new ≡ self.old) }
        ensures error { IfErr result (λ e. (e ≡ CommandError.OutOfMemory) ⊎ (e ≡ CommandError.Store)) }
    {
        let pin = self.pin()?;
        let edges = pin.version().edge_count();
        // Dropped, so that the log that ends has no owner here.
        drop(pin);
        match self.ends.publisher.rebase(rt) {
            Ok(receipt) => {
                self.ends.reader.learn(&receipt);
                self.number = receipt.number();
                self.epoch = receipt.epoch();
                Ok(edges)
            }
            Err(RebaseError::OutOfMemory) => Err(CommandError::OutOfMemory),
            Err(RebaseError::EpochsFull) => unreachable!(),
        }
    }

    /// A hold on the last version. `Store` comes where the reader gets none, or another one.
    pub(crate) fn pin(&mut self) -> Result<Pin, CommandError>
        ensures pinned { IfOk result (λ pin. pin.past ≡ self.old.past) }
        ensures same { self.new ≡ self.old }
        ensures error { IfErr result (λ e. e ≡ CommandError.Store) }
    {
        let Ok(pin) = self.ends.reader.pin() else {
            return Err(CommandError::Store);
        };
        let version = pin.version();
        if version.epoch() == self.epoch && version.number() == self.number {
            Ok(pin)
        } else {
            Err(CommandError::Store)
        }
    }

    /// Ends the store.
    pub(crate) fn close<R: Wait>(self, rt: &R) {
        let Handles {
            vertex_count: _,
            number: _,
            epoch: _,
            ends,
        } = self;
        let Ends {
            publisher,
            feeds,
            reader: _,
        } = ends;
        let _ = publisher.finish(feeds, rt);
    }
}

/// Whether a receipt is of a batch of these edits, by this feed.
fn is_of(receipt: &Receipt, feed: u8, edits: &[Edit]) -> bool
    ensures { result ≡ true → receipt.now.entry ≡ Some (entry_of feed edits.now) }
{
    let Some(batch) = receipt.batch() else {
        return false;
    };
    match receipt.feed() {
        None => false,
        Some(by) => by == feed && are_same(batch.edits(), edits),
    }
}

/// Whether two batches have the same edits.
fn are_same(a: &[Edit], b: &[Edit]) -> bool
    ensures { result ≡ true → a.now ≡ b.now }
{
    a == b
}
