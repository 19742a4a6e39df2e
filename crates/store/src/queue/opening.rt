//! A queue is made.
ghost use Rattle.std.specs.Prelude.{◌≡◌, ◌<◌, [], IfOk};
ghost use Rattle.std.specs.Arc.{arc_value};
ghost use Rattle.crossbeam_queue.specs.Passes.{view as queue_view_of, IsPassOf, ruled_capacity};
ghost use Rattle.past_model.specs.declared.limits.TheConstants.{FEEDS};
ghost use Rattle.store_model.specs.declared.limits.TheConstants.{QUEUE_PLACES};
ghost use Rattle.store.specs.QueueViews.{taker, feeder};
ghost use Rattle.store.specs.Ends.{new_taking, new_feed, new_feeds};

use crate::feed::Feed;
use crate::queue::delivery::{Begin, NewFeed, Queue, Say, Seat};
use crate::queue::message::Message;
use crate::queue::receiver::Receiver;
use crate::queue::sender::Sender;
use past_model::{Batch, Entry, FEEDS};
use std::alloc::{AllocError, Global};
use std::sync::Arc;
use store_model::QUEUE_PLACES;

/// The ends of one queue.
#[derive(Drop)]
pub(crate) struct Opened {
    pub receiver: Receiver,
    /// From feed A on, which is feed 0.
    pub feeds: Vec<Feed>,
}

/// A queue with room for 64 batches of edits of a graph with so many vertices. Nothing was put into it.
pub(crate) fn open_queue(alloc: Global, vertex_count: u32) -> Result<Opened, AllocError>
    ensures receiver { IfOk result (λ ends. ends.receiver ≡ new_taking vertex_count ends.receiver.queue) }
    ensures feeds { IfOk result (λ ends. ends.feeds.items ≡ new_feeds vertex_count ends.receiver.queue) }
{
    let room = Vec::with_capacity(alloc, QUEUE_PLACES)?;
    let (queue, mut pass) = Queue::ruled(alloc, QUEUE_PLACES)?;
    let opening = Message {
        vertex_count,
        entry: Entry {
            feed: 0,
            batch: Batch::empty(),
        },
    };
    let Ok(()) = queue.try_push_as::<Say>(&mut pass, opening) else {
        return Err(AllocError);
    };
    let Some(_) = queue.try_pop_as::<Begin>(&mut pass) else {
        return Err(AllocError);
    };
    let queue = Arc::new(alloc, queue)?;
    let feeds = all_feeds(alloc, &queue, vertex_count, &mut pass)?;
    Ok(Opened {
        receiver: Receiver {
            vertex_count,
            empties: 0,
            room,
            queue,
            pass,
        },
        feeds,
    })
}

// All feeds, each by a pass of its own.
fn all_feeds(
    alloc: Global,
    queue: &Arc<Queue>,
    vertex_count: u32,
    pass: &mut Seat,
) -> Result<Vec<Feed>, AllocError>
    requires pass { IsPassOf (arc_value queue.now) pass.old }
    requires places { ruled_capacity (arc_value queue.now) ≡ QUEUE_PLACES }
    requires none { queue_view_of pass.old ≡ taker vertex_count [] 0 [] }
    ensures pass { IfOk result (λ _. IsPassOf (arc_value queue.now) pass.new) }
    ensures all { IfOk result (λ _. queue_view_of pass.new ≡ taker vertex_count [] FEEDS []) }
    ensures feeds { IfOk result (λ feeds. feeds.items ≡ new_feeds vertex_count pass.new.table_id) }
{
    let mut feeds = Vec::with_capacity(alloc, usize::from(FEEDS))?;
    for number in 0..FEEDS {
        let seat = queue.another::<NewFeed>(pass);
        feeds.push(feed(queue, vertex_count, number, seat)?)?;
    }
    Ok(feeds)
}

// The feed of this number, by its pass.
fn feed(queue: &Arc<Queue>, vertex_count: u32, feed: u8, pass: Seat) -> Result<Feed, AllocError>
    requires pass { IsPassOf (arc_value queue.now) pass }
    requires places { ruled_capacity (arc_value queue.now) ≡ QUEUE_PLACES }
    requires feeds { queue_view_of pass ≡ feeder vertex_count feed [] }
    requires feed { feed < FEEDS }
    ensures { IfOk result (λ made. made ≡ new_feed vertex_count feed pass.table_id) }
{
    let sender = Sender {
        vertex_count,
        feed,
        refused: 0,
        queue: Arc::try_clone(queue)?,
        pass,
    };
    Ok(Feed::over(vertex_count, sender))
}
