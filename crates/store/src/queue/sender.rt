//! The end of the queue at which a feed puts its batches.
ghost use Rattle.std.specs.Prelude.{◌≡◌, ◌<◌, IfOk, IfErr};
ghost use Rattle.past_model.specs.declared.limits.TheConstants.{FEEDS};
ghost use Rattle.past_model.specs.Edits.{AreEditsBelow};
ghost use Rattle.store.specs.Ends.{after_put, after_refusal, WasFull, IsFeedOf};

use crate::queue::delivery::{Put, Queue, Seat};
use crate::queue::message::Message;
use past_model::{Batch, Entry};
use std::marker::Model;
use std::sync::{Arc, Wait};

/// The end of the queue at which one feed puts its batches.
#[derive(Drop)]
pub(crate) struct Sender {
    pub(super) vertex_count: u32,
    pub(super) feed: u8,
    pub(super) refused: u64,
    pub(super) queue: Arc<Queue>,
    pub(super) pass: Seat,
}

impl Model for Sender {
    ghost use Rattle.std.specs.Prelude.{◌≡◌, ◌<◌};
    ghost use Rattle.std.specs.Arc.{arc_value};
    ghost use Rattle.crossbeam_queue.specs.Passes.{view as queue_view_of, IsPassOf, ruled_capacity};
    ghost use Rattle.past_model.specs.declared.limits.TheConstants.{FEEDS};
    ghost use Rattle.store_model.specs.declared.limits.TheConstants.{QUEUE_PLACES};
    ghost use Rattle.store.specs.QueueViews.{feeder};
    ghost use Rattle.store.specs.Ends.{Feeding, feeding};

    ghost Value = { Feeding };

    ghost view = { λ s. feeding s.vertex_count s.feed (queue_view_of s.pass).sent s.refused s.pass.table_id };

    ghost invariant = { λ s. IsPassOf (arc_value s.queue) s.pass × (ruled_capacity (arc_value s.queue) ≡ QUEUE_PLACES)
        × (queue_view_of s.pass ≡ feeder s.vertex_count s.feed (queue_view_of s.pass).sent) × (s.feed < FEEDS) };
}

impl Sender {
    /// Puts a batch last into the queue. Where the queue is full, the batch comes back, and the refusal is counted.
    pub(crate) fn put<R: Wait>(&mut self, batch: Batch, rt: &R) -> Result<(), Batch>
        requires below { AreEditsBelow self.old.vertex_count batch }
        ensures same_feed { IsFeedOf self.old.vertex_count self.old.queue self.old.feed self.new }
        ensures is_feed { self.old.feed < FEEDS }
        ensures put { IfOk result (λ _. self.new ≡ after_put self.old batch) }
        ensures back { IfErr result (λ back. back ≡ batch) }
        ensures refused { IfErr result (λ _. self.new ≡ after_refusal self.old) }
        ensures full { IfErr result (λ _. WasFull self.old) }
    {
        let message = Message {
            vertex_count: self.vertex_count,
            entry: Entry {
                feed: self.feed,
                batch,
            },
        };
        match self.queue.push_as::<Put, R>(rt, &mut self.pass, message) {
            Ok(()) => Ok(()),
            Err(message) => {
                self.refused = self.refused.wrapping_add(1);
                Err(message.entry.batch)
            }
        }
    }
}
