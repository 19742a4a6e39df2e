//! Stores in one thread: a full queue, and what readers pin. Counts, pins and the other limits are tried by `test_script_rows`.
use crate::edits::batch_of;
use crate::shop::Shop;
use std::alloc::{AllocError, Global};
use std::sync::Wait;
use std::test::Fail;
use std::thread;
use std::thread::Threads;
use store::{Batch, Edit, PinError, Reader, SubmitCause};
use store_model::READERS;

mod epochs;
mod threads;

// Submits empty batches until one is refused. How many were not, and why that one is.
fn fill_queue<R: Wait>(rt: &R, shop: &mut Shop) -> (u32, Option<SubmitCause>) {
    for count in 0..100 {
        if let Some((cause, _)) = shop.submit(rt, 0, Batch::empty()) {
            return (count, Some(cause));
        }
    }
    (100, None)
}

// Publishes a batch, and fills the place that it leaves.
fn refill_queue<R: Threads + Wait>(rt: &R, shop: &mut Shop) -> (u32, Option<SubmitCause>) {
    let is_published = matches!(shop.step(rt), Ok(Some(_)));
    if is_published {
        fill_queue(rt, shop)
    } else {
        (0, None)
    }
}

#[test]
fn a_full_queue_refuses(rt: HostRuntime) -> Result<(), Fail> {
    let batch = batch_of(rt.alloc(), &[Edit::Insert(0, 3)])?;
    let mut shop = Shop::open(&rt, rt.alloc(), 4)?;
    let filled = fill_queue(&rt, &mut shop);
    let refused = shop.submit(&rt, 1, batch);
    let refilled = refill_queue(&rt, &mut shop);
    let (finished, _) = shop.close(&rt);
    assert_eq!(rt; filled, (64, Some(SubmitCause::Full)));
    assert_eq!(rt; refused, Some((SubmitCause::Full, 1)));
    assert_eq!(rt; refilled, (1, Some(SubmitCause::Full)));
    assert_eq!(rt; finished.left.len(), 64);
    Ok(())
}

// The batch of so many edits.
fn repeated(alloc: Global, count: usize) -> Result<Batch, AllocError> {
    let mut edits = Vec::new(alloc);
    for _ in 0..count {
        edits.push(Edit::Insert(0, 3))?;
    }
    Batch::new(alloc, edits)
}

// Why a batch of so many edits is refused where one place of the queue is free.
fn offered_the_last_place<R: Threads + Wait>(
    rt: &R,
    alloc: Global,
    edits: usize,
) -> Result<Option<(SubmitCause, usize)>, Fail> {
    let batch = repeated(alloc, edits)?;
    let mut shop = Shop::open(rt, alloc, 4)?;
    for _ in 0..63 {
        shop.submit(rt, 0, Batch::empty());
    }
    let refused = shop.submit(rt, 1, batch);
    shop.close(rt);
    Ok(refused)
}

// `Full` is never reported while the queue has a free place, whatever the size of the batch.
#[test]
fn a_batch_of_any_size_takes_the_last_place(rt: HostRuntime) -> Result<(), Fail> {
    for edits in [0, 1, 1_000, 1_001, 65_536] {
        let refused = offered_the_last_place(&rt, rt.alloc(), edits)?;
        assert_eq!(rt; refused, None, "{edits}");
    }
    Ok(())
}

// How many of so many steps publish nothing because nothing waits.
fn steps_in_vain<R: Threads + Wait>(rt: &R, shop: &mut Shop, count: u32) -> u32 {
    let mut idle = 0u32;
    for _ in 0..count {
        if matches!(shop.step(rt), Ok(None)) {
            idle = idle.saturating_add(1);
        }
    }
    idle
}

// Steps in vain never hide a batch that comes after them, however many there were in all.
#[test]
fn a_batch_after_steps_in_vain(rt: HostRuntime) -> Result<(), Fail> {
    let mut shop = Shop::open(&rt, rt.alloc(), 4)?;
    for _ in 0..300 {
        assert_eq!(rt; steps_in_vain(&rt, &mut shop, 1), 1);
        assert!(rt; shop.submit(&rt, 0, Batch::empty()).is_none());
        assert!(rt; matches!(shop.step(&rt), Ok(Some(_))));
    }
    shop.close(&rt);
    Ok(())
}

// Another reader, where there is a place for it.
fn another(shop: &mut Shop) -> Option<Reader> {
    shop.reader.another().ok()
}

// How many readers can be made beside the first one.
fn others(alloc: Global, shop: &mut Shop) -> Result<usize, AllocError> {
    let mut others = Vec::new(alloc);
    for _ in 0..2 * READERS {
        match another(shop) {
            Some(other) => others.push(other)?,
            None => break,
        }
    }
    Ok(others.len())
}

// Publishes so many batches without an edit.
fn publish_empty<R: Threads + Wait>(rt: &R, shop: &mut Shop, count: u32) -> Result<(), Fail> {
    for _ in 0..count {
        shop.publish(rt, 0, Batch::empty())?;
    }
    Ok(())
}

#[test]
fn a_reader_that_is_gone_leaves_its_place(rt: HostRuntime) -> Result<(), Fail> {
    let alloc = rt.alloc();
    let mut shop = Shop::open(&rt, alloc, 4)?;
    let at_first = others(alloc, &mut shop);
    let published = publish_empty(&rt, &mut shop, 20);
    let later = others(alloc, &mut shop);
    shop.close(&rt);
    published?;
    assert_eq!(rt; [at_first, later], [Ok(15), Ok(15)]);
    Ok(())
}

// How many threads make readers and drop them.
const MAKERS: usize = 4;

// How many each of them makes.
const MADE: u32 = 2_000;

// As many readers as threads, or those for which there was a place.
fn makers(alloc: Global, shop: &mut Shop) -> Result<Vec<Reader>, AllocError> {
    let mut makers = Vec::new(alloc);
    for _ in 0..MAKERS {
        if let Some(maker) = another(shop) {
            makers.push(maker)?;
        }
    }
    Ok(makers)
}

// Makes readers and drops them. Another thread may be in the way of the first, and none of the second.
fn make_and_drop(maker: &mut Reader) {
    for _ in 0..MADE {
        drop(maker.another());
    }
}

// How many readers made others, and how many can be made once all these are gone.
fn places_after_makers<R: Threads + Wait + Sync>(
    rt: &R,
    alloc: Global,
    shop: &mut Shop,
) -> Result<(usize, usize), AllocError> {
    let mut makers = makers(alloc, shop)?;
    thread::for_each_mut(
        rt,
        &mut makers,
        MAKERS,
        &|_, maker: &mut Reader| {
            make_and_drop(maker);
        },
    );
    let count = makers.len();
    drop(makers);
    Ok((count, others(alloc, shop)?))
}

#[test]
fn readers_dropped_at_the_same_time_leave_their_places(rt: HostRuntime) -> Result<(), Fail> {
    let alloc = rt.alloc();
    let mut shop = Shop::open(&rt, alloc, 4)?;
    let places = places_after_makers(&rt, alloc, &mut shop);
    shop.close(&rt);
    assert_eq!(rt; places, Ok((MAKERS, 15)));
    Ok(())
}

// The number of the version that a reader pins.
fn number_read(reader: &mut Reader) -> Result<u64, PinError> {
    let pin = reader.pin()?;
    Ok(pin.version().number())
}

// The number of the version that another reader pins.
fn number_beside(shop: &mut Shop) -> Option<u64> {
    let mut reader = another(shop)?;
    number_read(&mut reader).ok()
}

// What another reader pins before an empty batch and after it.
fn numbers_beside<R: Threads + Wait>(rt: &R, shop: &mut Shop) -> Result<[Option<u64>; 2], Fail> {
    let before = number_beside(shop);
    shop.publish(rt, 0, Batch::empty())?;
    Ok([before, number_beside(shop)])
}

#[test]
fn readers_pin_what_was_published(rt: HostRuntime) -> Result<(), Fail> {
    let mut shop = Shop::open(&rt, rt.alloc(), 4)?;
    let numbers = numbers_beside(&rt, &mut shop);
    let is_idle = matches!(shop.step(&rt), Ok(None));
    let (_, mut reader) = shop.close(&rt);
    assert_eq!(rt; numbers?, [Some(0), Some(1)]);
    assert!(rt; is_idle);
    assert_eq!(rt; number_read(&mut reader), Err(PinError::Closed));
    Ok(())
}
