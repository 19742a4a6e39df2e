//! The end of the queue at which batches are taken.
ghost use Rattle.std.specs.Prelude.{◌≡◌, ◌<◌, IfSome, IfNone};
ghost use Rattle.past_model.specs.Edits.{AreEditsBelow};
ghost use Rattle.past_model.specs.declared.limits.TheConstants.{FEEDS};
ghost use Rattle.store.specs.Ends.{after_pop, after_nothing, WasEmpty};

use crate::queue::delivery::{Queue, Seat, Take};
use past_model::Entry;
use std::marker::Model;
use std::sync::{Arc, Wait};

/// The end of the queue at which batches are taken.
#[derive(Drop)]
pub(crate) struct Receiver {
    pub(super) vertex_count: u32,
    pub(super) empties: u64,
    // Room for all that the queue may hold at the end, so that the end needs no memory.
    pub(super) room: Vec<Entry>,
    pub(super) queue: Arc<Queue>,
    pub(super) pass: Seat,
}

impl Model for Receiver {
    ghost use Rattle.std.specs.Prelude.{◌≡◌, ◌≤◌, [], vec_capacity};
    ghost use Rattle.std.specs.Arc.{arc_value};
    ghost use Rattle.crossbeam_queue.specs.Passes.{view as queue_view_of, IsPassOf};
    ghost use Rattle.past_model.specs.declared.limits.TheConstants.{FEEDS};
    ghost use Rattle.store_model.specs.declared.limits.TheConstants.{QUEUE_PLACES};
    ghost use Rattle.store.specs.QueueViews.{taker};
    ghost use Rattle.store.specs.Ends.{Taking, taking};

    ghost Value = { Taking };

    ghost view = { λ t. taking t.vertex_count (queue_view_of t.pass).taken t.empties t.pass.table_id };

    ghost invariant = { λ t. IsPassOf (arc_value t.queue) t.pass
        × (queue_view_of t.pass ≡ taker t.vertex_count (queue_view_of t.pass).taken FEEDS [])
        × (t.room.items ≡ []) × (QUEUE_PLACES ≤ vec_capacity t.room) };
}

impl Receiver {
    /// Takes the batch that waits longest. Where none waits, that is counted.
    pub(crate) fn pop<R: Wait>(&mut self, rt: &R) -> Option<Entry>
        ensures same_queue { (self.new.queue ≡ self.old.queue) × (self.new.vertex_count ≡ self.old.vertex_count) }
        ensures feed { IfSome result (λ entry. entry.feed < FEEDS) }
        ensures below { IfSome result (λ entry. AreEditsBelow self.old.vertex_count entry.batch) }
        ensures some { IfSome result (λ entry. self.new ≡ after_pop self.old entry) }
        ensures none { IfNone result (self.new ≡ after_nothing self.old) }
        ensures empty { IfNone result (WasEmpty self.old) }
    {
        match self.queue.pop_as::<Take, R>(rt, &mut self.pass) {
            Some(message) => Some(message.entry),
            None => {
                self.empties = self.empties.wrapping_add(1);
                None
            }
        }
    }
}
