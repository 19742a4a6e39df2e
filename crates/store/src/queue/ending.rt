//! The end of a queue.
ghost use Rattle.std.specs.Prelude.{◌≡◌, true, ◌≤◌, ◌++◌, [], length, map, vec_capacity};
ghost use Rattle.crossbeam_queue.specs.Passes.{view as queue_view_of, IsPassOf};
ghost use Rattle.past_model.specs.declared.limits.TheConstants.{FEEDS};
ghost use Rattle.store_model.specs.declared.limits.TheConstants.{QUEUE_PLACES};
ghost use Rattle.store.specs.Ends.{as_new, new_feeds};
ghost use Rattle.store.specs.Feeds.{AreAllOf};
ghost use Rattle.store.specs.QueueViews.{taker, after_end};
ghost use Rattle.store.specs.QueueRule.{Left};

use crate::feed::Feed;
use crate::queue::delivery::{EndFeed, Queue, Seat, Take};
use crate::queue::receiver::Receiver;
use crate::queue::sender::Sender;
use past_model::Entry;
use std::sync::Wait;

impl Receiver {
    /// Ends the queue, once its feeds are handed in, from A on. Nobody puts or takes from then on. The batches that waited, in
    /// order. It takes no memory.
    pub(crate) fn finish<R: Wait>(self, feeds: Vec<Feed>, rt: &R) -> Vec<Entry>
        requires { map as_new feeds.items ≡ new_feeds self.vertex_count self.queue }
        ensures delivered { AreAllOf (self.taken ++ result.items) feeds.items }
        ensures few { length result.items ≤ QUEUE_PLACES }
    {
        let Receiver {
            vertex_count: _,
            empties: _,
            room,
            queue,
            mut pass,
        } = self;
        for feed in feeds {
            take_in(&queue, &mut pass, feed);
        }
        all_left(&queue, pass, room, rt)
    }
}

// The next feed has ended.
fn take_in(queue: &Queue, pass: &mut Seat, feed: Feed)
    requires pass { IsPassOf queue.now pass.old }
    requires takes { (queue_view_of pass.old).takes ≡ true }
    requires queue { feed.queue ≡ pass.old.table_id }
    requires next { feed.feed ≡ length (queue_view_of pass.old).ended }
    ensures pass { IsPassOf queue.now pass.new }
    ensures same { pass.new.table_id ≡ pass.old.table_id }
    ensures ended { queue_view_of pass.new ≡ after_end (queue_view_of pass.old) feed.sent }
{
    let Sender {
        vertex_count: _,
        feed: _,
        refused: _,
        queue: _,
        pass: theirs,
    } = feed.into_sender();
    queue.absorb::<EndFeed>(pass, theirs);
}

// What the queue holds, put after `left`, once the feeds have ended.
fn all_left<R: Wait>(queue: &Queue, mut pass: Seat, mut left: Vec<Entry>, rt: &R) -> Vec<Entry>
    requires pass { IsPassOf queue.now pass }
    requires ended { queue_view_of pass ≡ taker (queue_view_of pass).vertex_count (queue_view_of pass).taken FEEDS
        (queue_view_of pass).ended }
    requires both { length (queue_view_of pass).ended ≡ FEEDS }
    requires room { (left.items ≡ []) × (QUEUE_PLACES ≤ vec_capacity left) }
    ensures { Left (queue_view_of pass) result.items }
{
    queue.learn_as::<Take>(&mut pass);
    'taking: for _ in rt.forever() {
        let Some(message) = queue.pop_as::<Take, R>(rt, &mut pass) else {
            return left;
        };
        if left.push(message.entry).is_err() {
            unreachable!()
        }
    }
    unreachable!()
}
