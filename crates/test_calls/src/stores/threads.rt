//! All feeds, the publisher and a reader, each in a thread of its own.
ghost use Rattle.std.specs.Prelude.{◌≡◌, map};
ghost use Rattle.history.specs.Moment.{OneStore};
ghost use Rattle.store.specs.Ends.{IsFeedOf, as_new};

use crate::edits::batch_of;
use crate::shop::Shop;
use past_model::FEEDS;
use std::alloc::Global;
use std::sync::Wait;
use std::test::Fail;
use std::thread;
use std::thread::{Threads, join_mut};
use store::{Batch, Edit, Feed, OpenGate, Publisher, Reader, SubmitCause, Workers};

// How many batches each feed submits.
const EACH: u32 = 100;

// How many batches all feeds submit.
const ALL: u64 = EACH as u64 * FEEDS as u64;

/// The batch of a number, of an edge from this vertex. Where there is no memory for it, it is empty.
pub(super) fn numbered(alloc: Global, source: u32, number: u32) -> Batch {
    match batch_of(alloc, &[Edit::Insert(source, number)]) {
        Ok(batch) => batch,
        Err(_) => Batch::empty(),
    }
}

/// Submits a batch as soon as there is room.
pub(super) fn submit<R: Wait>(rt: &R, feed: &mut Feed, batch: Batch) -> Option<SubmitCause>
    ensures { IsFeedOf feed.old.vertex_count feed.old.queue feed.old.feed feed.new }
{
    let mut next = batch;
    'tries: for _ in rt.forever() {
        match feed.submit(next, rt) {
            Ok(()) => return None,
            Err(error) => {
                if error.cause != SubmitCause::Full {
                    return Some(error.cause);
                }
                next = error.batch;
                thread::yield_now();
            }
        }
    }
    unreachable!()
}

// Submits a batch of each number. One that is refused for another cause than want of room is submitted by nobody.
fn submit_all<R: Wait>(rt: &R, alloc: Global, feed: &mut Feed)
    ensures { IsFeedOf feed.old.vertex_count feed.old.queue feed.old.feed feed.new }
{
    'numbers: for number in 0..EACH {
        submit(rt, feed, numbered(alloc, 0, number));
    }
}

/// The number of a batch.
pub(super) fn number_of(batch: &Batch) -> Option<u32> {
    match batch.edits().first() {
        Some(edit) => Some(edit.target()),
        None => None,
    }
}

// Publishes the next batch. The number of its version, its feed, and its number.
fn step_once<R: Threads + Wait>(rt: &R, publisher: &mut Publisher) -> Option<(u64, u8, Option<u32>)>
    ensures queue { publisher.new.queue ≡ publisher.old.queue }
    ensures store { OneStore publisher.old.moment publisher.new.moment }
{
    match publisher.step(rt, Workers::one(), &OpenGate) {
        Ok(Some(receipt)) => {
            let number = match receipt.batch() {
                None => None,
                Some(batch) => number_of(batch),
            };
            Some((receipt.number(), receipt.feed()?, number))
        }
        _ => None,
    }
}

// Publishes until so many batches are published. Whether each feed's came in its order, whole and once.
fn step_all<R: Threads + Wait>(rt: &R, publisher: &mut Publisher, count: u64) -> bool
    ensures queue { publisher.new.queue ≡ publisher.old.queue }
    ensures store { OneStore publisher.old.moment publisher.new.moment }
{
    let mut next = [0u32; FEEDS as usize];
    let mut in_order = true;
    'steps: for _ in rt.forever() {
        let Some((version, feed, number)) = step_once(rt, publisher) else {
            thread::yield_now();
            continue;
        };
        let feed = usize::from(feed.min(FEEDS - 1));
        in_order = in_order && number == Some(next[feed]);
        next[feed] = next[feed].saturating_add(1);
        if version >= count {
            return in_order && next == [EACH; FEEDS as usize];
        }
    }
    unreachable!()
}

// Pins until so many batches are published. Whether the numbers never went back.
fn read_all<R: Wait>(rt: &R, reader: &mut Reader, count: u64) -> bool {
    let mut last = 0;
    let mut ascend = true;
    for _ in rt.forever() {
        if let Ok(pin) = reader.pin() {
            let number = pin.version().number();
            ascend = ascend && last <= number;
            last = number;
        }
        if last >= count {
            return ascend;
        }
        thread::yield_now();
    }
    unreachable!()
}

// Submits batches by each feed, in a thread of its own.
fn submit_by_each<R: Threads + Wait + Sync>(rt: &R, alloc: Global, feeds: &mut [Feed])
    ensures { map as_new feeds.new ≡ map as_new feeds.old }
{
    thread::for_each_mut(
        rt,
        feeds,
        usize::from(FEEDS),
        &|_, feed: &mut Feed| { submit_all(rt, alloc, feed) },
    );
}

// Whether batches were published in order, and read in order.
fn step_and_read<R: Threads + Wait + Sync>(
    rt: &R,
    publisher: &mut Publisher,
    reader: &mut Reader,
    count: u64,
) -> (bool, bool)
    ensures queue { publisher.new.queue ≡ publisher.old.queue }
    ensures store { OneStore publisher.old.moment publisher.new.moment }
{
    join_mut(
        rt,
        &mut || step_all(rt, publisher, count),
        &mut || read_all(rt, reader, count),
    )
}

#[test]
fn six_threads_share_a_store(rt: HostRuntime) -> Result<(), Fail> {
    let alloc = rt.alloc();
    let Shop {
        mut publisher,
        mut feeds,
        mut reader,
    } = Shop::open(&rt, alloc, EACH)?;
    let ((), published) = join_mut(
        &rt,
        &mut || submit_by_each(&rt, alloc, &mut feeds),
        &mut || step_and_read(&rt, &mut publisher, &mut reader, ALL),
    );
    let finished = publisher.finish(feeds, &rt);
    assert_eq!(rt; published, (true, true));
    assert!(rt; finished.held.is_none());
    assert!(rt; finished.left.is_empty());
    assert_eq!(rt; finished.last.edge_count(), u64::from(EACH));
    Ok(())
}
