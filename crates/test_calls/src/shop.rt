//! All ends of one store, for tests.
ghost use Rattle.std.specs.Prelude.{◌<◌};
ghost use Rattle.past_model.specs.declared.limits.TheConstants.{FEEDS};

use crate::edits::batch_of;
use std::alloc::Global;
use std::marker::Model;
use std::sync::Wait;
use std::test::Fail;
use std::thread::Threads;
use store::{
    Batch, Edit, Ends, Feed, Finished, Gate, OpenGate, Pin, PinError, PublishError, Publisher,
    Reader, Receipt, Store, StoreError, SubmitCause, SubmitError, Workers,
};

/// Whoever opens one has to close it.
pub struct Shop {
    pub publisher: Publisher,
    pub feeds: Vec<Feed>,
    pub reader: Reader,
}

impl Model for Shop {
    ghost use Rattle.history.specs.Moment.{OneStore};
    ghost use Rattle.store.specs.Feeds.{AreFeedsOf};
    ghost use Rattle.store.specs.Storing.{Storing};

    ghost Value = { Storing };

    ghost view = { λ s. s.publisher };

    ghost invariant = { λ s. AreFeedsOf s.publisher s.feeds.items × OneStore s.publisher.moment s.reader };
}

impl Shop {
    pub(crate) fn open<R: Wait>(
        rt: &R,
        alloc: Global,
        vertex_count: u32,
    ) -> Result<Shop, StoreError> {
        let Ends {
            publisher,
            feeds,
            reader,
        } = Store::new(vertex_count, rt, alloc)?;
        Ok(Shop {
            publisher,
            feeds,
            reader,
        })
    }

    fn offer<R: Wait>(&mut self, rt: &R, feed: u8, batch: Batch) -> Result<(), SubmitError>
        requires { feed < FEEDS }
    {
        self.feeds[usize::from(feed)].submit(batch, rt)
    }

    /// Why a batch is refused, and how many edits come back. `None` where it is not.
    pub(crate) fn submit<R: Wait>(
        &mut self,
        rt: &R,
        feed: u8,
        batch: Batch,
    ) -> Option<(SubmitCause, usize)>
        requires { feed < FEEDS }
    {
        match self.offer(rt, feed, batch) {
            Ok(()) => None,
            Err(error) => Some((error.cause, error.batch.edits().len())),
        }
    }

    pub(crate) fn step<R: Threads + Wait>(
        &mut self,
        rt: &R,
    ) -> Result<Option<Receipt>, PublishError> {
        self.publisher.step(rt, Workers::one(), &OpenGate)
    }

    /// Publishes one batch by workers that a gate lets in.
    pub(crate) fn step_by<G: Gate, R: Threads + Wait>(
        &mut self,
        rt: &R,
        workers: Workers,
        gate: &G,
    ) -> Result<Option<Receipt>, PublishError> {
        self.publisher.step(rt, workers, gate)
    }

    /// Submits a batch, publishes one, and learns of it.
    pub(crate) fn publish<R: Threads + Wait>(
        &mut self,
        rt: &R,
        feed: u8,
        batch: Batch,
    ) -> Result<Receipt, Fail>
        requires { feed < FEEDS }
    {
        if self.submit(rt, feed, batch).is_some() {
            return Err(Fail::new("a batch was refused"));
        }
        match self.publisher.step(rt, Workers::one(), &OpenGate) {
            Ok(Some(receipt)) => {
                self.reader.learn(&receipt);
                Ok(receipt)
            }
            Ok(None) => Err(Fail::new("nothing was there")),
            Err(error) => Err(Fail::from(error)),
        }
    }

    pub(crate) fn pin(&mut self) -> Result<Pin, PinError> {
        self.reader.pin()
    }

    /// Publishes a batch, and pins the version that it made.
    pub(crate) fn pin_after<R: Threads + Wait>(
        &mut self,
        rt: &R,
        batch: Batch,
    ) -> Result<Pin, Fail> {
        self.publish(rt, 0, batch)?;
        let pin = self.pin()?;
        Ok(pin)
    }

    /// What is left, and the reader.
    pub(crate) fn close<R: Wait>(self, rt: &R) -> (Finished, Reader) {
        let Shop {
            publisher,
            feeds,
            reader,
        } = self;
        (publisher.finish(feeds, rt), reader)
    }
}

/// A version of so many vertices, in which these edges were put in and taken out. Its store is closed.
pub(crate) fn pin_of<R: Threads + Wait>(
    rt: &R,
    alloc: Global,
    vertex_count: u32,
    edits: &[Edit],
) -> Result<Pin, Fail> {
    let batch = batch_of(alloc, edits)?;
    let mut shop = Shop::open(rt, alloc, vertex_count)?;
    let pin = shop.pin_after(rt, batch);
    shop.close(rt);
    pin
}
