//! Rebases among the steps: two threads submit by all feeds, one publishes and rebases, and four readers pin.
ghost use Rattle.std.specs.Prelude.{◌≡◌, map};
ghost use Rattle.history.specs.Moment.{OneStore};
ghost use Rattle.store.specs.Ends.{as_new};

use crate::shop::Shop;
use crate::stores::threads::{number_of, numbered, submit};
use past_model::FEEDS;
use std::alloc::Global;
use std::sync::Wait;
use std::test::Fail;
use std::thread;
use std::thread::{Threads, join_mut};
use store::{Feed, OpenGate, Publisher, Reader, Receipt, Version, Workers};

// How many batches each feed submits.
const EACH: u32 = 100;

// How many batches an epoch has.
const EPOCH: u64 = 10;

// How many epochs end: all batches are in one.
const EPOCHS: u64 = EACH as u64 * FEEDS as u64 / EPOCH;

// How many readers pin, each in a thread of its own.
const READING: usize = 4;

// Submits the batch of a number by each of two feeds, of which this is the first one's number.
fn submit_number<R: Wait>(rt: &R, alloc: Global, feeds: &mut [Feed], first: u32, number: u32)
    ensures { map as_new feeds.new ≡ map as_new feeds.old }
{
    let mut source = first;
    'feeds: for place in 0..feeds.len() {
        submit(rt, &mut feeds[place], numbered(alloc, source, number));
        source = source.saturating_add(1);
    }
}

// Submits a batch of each number by these feeds, which take turns.
fn submit_in_turn<R: Wait>(rt: &R, alloc: Global, feeds: &mut [Feed], first: u32)
    ensures { map as_new feeds.new ≡ map as_new feeds.old }
{
    'numbers: for number in 0..EACH {
        submit_number(rt, alloc, feeds, first, number);
    }
}

// Submits by all feeds, in two threads.
fn submit_by_halves<R: Threads + Wait + Sync>(rt: &R, alloc: Global, feeds: &mut [Feed])
    ensures { map as_new feeds.new ≡ map as_new feeds.old }
{
    let half = feeds.len() / 2;
    let (low, high) = feeds.split_at_mut(half);
    join_mut(
        rt,
        &mut || submit_in_turn(rt, alloc, low, 0),
        &mut || submit_in_turn(rt, alloc, high, u32::from(FEEDS / 2)),
    );
}

// What a receipt says.
#[derive(Clone, Copy, PartialEq, Eq)]
struct Said {
    epoch: u64,
    number: u64,
    feed: Option<u8>,
    // The number of its batch, among those of its feed.
    batch: Option<u32>,
}

impl Said {
    fn by(receipt: &Receipt) -> Said {
        let batch = match receipt.batch() {
            None => None,
            Some(batch) => number_of(batch),
        };
        Said {
            epoch: receipt.epoch(),
            number: receipt.number(),
            feed: receipt.feed(),
            batch,
        }
    }
}

// What comes next of a store: a rebase of a full epoch, and else a batch.
fn publish_next<R: Threads + Wait>(rt: &R, publisher: &mut Publisher, is_full: bool) -> Option<Said>
    ensures queue { publisher.new.queue ≡ publisher.old.queue }
    ensures store { OneStore publisher.old.moment publisher.new.moment }
{
    if is_full {
        return match publisher.rebase(rt) {
            Ok(receipt) => Some(Said::by(&receipt)),
            Err(_) => None,
        };
    }
    match publisher.step(rt, Workers::one(), &OpenGate) {
        Ok(Some(receipt)) => Some(Said::by(&receipt)),
        _ => None,
    }
}

// How far a store has come: its epoch, how many batches that has, and how many came by each feed in all.
#[derive(Drop)]
struct Progress {
    epoch: u64,
    number: u64,
    by_feed: [u32; FEEDS as usize],
}

impl Progress {
    // Goes on by what a receipt says. Whether that is what has to come: in each epoch numbers count batches from 1 on, a rebase
    // begins the next one with number 0, and a feed's batches go on where those of ended epochs end.
    fn follow(&mut self, said: Said) -> bool {
        let Some(feed) = said.feed else {
            let is_next = said.epoch == self.epoch.saturating_add(1) && said.number == 0;
            self.epoch = said.epoch;
            self.number = 0;
            return is_next && said.batch.is_none();
        };
        let feed = usize::from(feed.min(FEEDS - 1));
        let is_next = said.epoch == self.epoch
            && said.number == self.number.saturating_add(1)
            && said.batch == Some(self.by_feed[feed]);
        self.number = said.number;
        self.by_feed[feed] = self.by_feed[feed].saturating_add(1);
        is_next
    }
}

// Publishes and rebases until all epochs are ended. Whether all came in order, and each feed's batches whole and once.
fn publish_all<R: Threads + Wait>(rt: &R, publisher: &mut Publisher) -> bool
    ensures queue { publisher.new.queue ≡ publisher.old.queue }
    ensures store { OneStore publisher.old.moment publisher.new.moment }
{
    let mut progress = Progress {
        epoch: 0,
        number: 0,
        by_feed: [0; FEEDS as usize],
    };
    let mut in_order = true;
    'rounds: for _ in rt.forever() {
        let Some(said) = publish_next(rt, publisher, progress.number >= EPOCH) else {
            thread::yield_now();
            continue;
        };
        in_order = progress.follow(said) && in_order;
        if progress.epoch >= EPOCHS {
            return in_order && progress.by_feed == [EACH; FEEDS as usize];
        }
    }
    unreachable!()
}

// Whether a version's graph is what its marks and its log say: of each feed the first so many batches, and of all feeds those of
// full epochs and of the log.
fn is_whole(version: &Version) -> bool {
    for feed in 0..u64::from(FEEDS) {
        let count = version.degree(feed);
        let last = version.neighbour(feed, u64::from(count.saturating_sub(1)));
        if count > 0 && last != Some(count.saturating_sub(1)) {
            return false;
        }
    }
    version.edge_count()
        == EPOCH
            .saturating_mul(version.epoch())
            .saturating_add(version.number())
}

// Pins until all epochs are ended. Whether epochs, and numbers of one epoch, never went back, and each version was whole.
fn read_all<R: Wait>(rt: &R, reader: &mut Reader) -> bool {
    let mut last = (0, 0);
    let mut is_right = true;
    for _ in rt.forever() {
        if let Ok(pin) = reader.pin() {
            let next = (pin.version().epoch(), pin.version().number());
            is_right = is_right && last <= next && is_whole(pin.version());
            last = next;
        }
        if last.0 >= EPOCHS {
            return is_right;
        }
        thread::yield_now();
    }
    unreachable!()
}

// A reader, and whether all that it pinned was right.
#[derive(Drop)]
struct Watch {
    reader: Reader,
    is_right: bool,
}

// So many readers.
fn watches(alloc: Global, reader: &mut Reader) -> Option<Vec<Watch>> {
    let mut watches = Vec::new(alloc);
    for _ in 0..READING {
        let reader = reader.another().ok()?;
        let watch = Watch {
            reader,
            is_right: false,
        };
        watches.push(watch).ok()?;
    }
    Some(watches)
}

fn read_by_each<R: Threads + Wait + Sync>(rt: &R, watches: &mut [Watch]) {
    thread::for_each_mut(
        rt,
        watches,
        READING,
        &|_, watch: &mut Watch| { watch.is_right = read_all(rt, &mut watch.reader) },
    );
}

// Whether all was published in order. Readers read beside it.
fn publish_and_read<R: Threads + Wait + Sync>(
    rt: &R,
    publisher: &mut Publisher,
    watches: &mut [Watch],
) -> bool
    ensures queue { publisher.new.queue ≡ publisher.old.queue }
    ensures store { OneStore publisher.old.moment publisher.new.moment }
{
    let (in_order, ()) = join_mut(
        rt,
        &mut || publish_all(rt, publisher),
        &mut || read_by_each(rt, watches),
    );
    in_order
}

// Submits, publishes and reads, all at once. Whether all was published in order, and whether all that readers pinned was right.
fn share<R: Threads + Wait + Sync>(
    rt: &R,
    alloc: Global,
    publisher: &mut Publisher,
    feeds: &mut [Feed],
    reader: &mut Reader,
) -> (bool, bool)
    ensures queue { publisher.new.queue ≡ publisher.old.queue }
    ensures store { OneStore publisher.old.moment publisher.new.moment }
    ensures feeds { map as_new feeds.new ≡ map as_new feeds.old }
{
    let mut watches = watches(alloc, reader).unwrap_or(Vec::new(alloc));
    let ((), in_order) = join_mut(
        rt,
        &mut || submit_by_halves(rt, alloc, feeds),
        &mut || publish_and_read(rt, publisher, &mut watches),
    );
    let is_right = watches.iter().all(|watch| watch.is_right);
    (in_order, is_right && watches.len() == READING)
}

#[test]
fn seven_threads_share_a_store_that_is_rebased(rt: HostRuntime) -> Result<(), Fail> {
    let Shop {
        mut publisher,
        mut feeds,
        mut reader,
    } = Shop::open(&rt, rt.alloc(), EACH)?;
    let shared = share(&rt, rt.alloc(), &mut publisher, &mut feeds, &mut reader);
    let finished = publisher.finish(feeds, &rt);
    assert_eq!(rt; shared, (true, true));
    assert!(rt; finished.held.is_none() && finished.left.is_empty());
    assert_eq!(rt;
        (finished.last.epoch(), finished.last.number()),
        (EPOCHS, 0)
    );
    Ok(())
}
