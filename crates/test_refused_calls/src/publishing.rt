//! Two batches that are published. A step that is refused publishes nothing and holds its batch, and the next one publishes it.
ghost use Rattle.std.specs.Prelude.{◌≡◌, IfOk};
ghost use Rattle.history.specs.Moment.{OneStore};

use crate::stop::Stop;
use std::alloc::{AllocError, Global};
use std::sync::Wait;
use std::thread::Threads;
use store::{
    Batch, Edit, Ends, Finished, OpenGate, PublishError, Publisher, Reader, Receipt, Store,
    Version, Workers,
};

/// What came of a step.
#[derive(Clone, Copy, PartialEq, Eq)]
enum Told {
    /// Its batch was published, with the right counts.
    Published,
    /// It was refused, its batch was held, and the last version was as it was. The next step published the batch.
    Unchanged,
    /// Something is not as it should be.
    Changed,
}

fn batch_of(alloc: Global, edits: &[Edit]) -> Result<Batch, AllocError>
    ensures { IfOk result (λ batch. batch ≡ edits.now) }
{
    Batch::new(alloc, Vec::from_slice(alloc, edits)?)
}

/// Whether a version has this epoch and number, and vertex 1 these neighbours, which are all edges.
fn is_such(version: &Version, epoch: u64, number: u64, neighbours: &[u32]) -> bool {
    version.epoch() == epoch
        && version.number() == number
        && version.edge_count() == neighbours.len() as u64
        && lists(version, neighbours)
}

/// Whether the neighbours of vertex 1 are these.
fn lists(version: &Version, neighbours: &[u32]) -> bool {
    let mut rest = neighbours;
    let mut cursor = version.cursor(1);
    'slices: while let Some(slice) = cursor.next_slice() {
        match rest.strip_prefix(slice) {
            Some(later) => rest = later,
            None => return false,
        }
    }
    rest.is_empty()
}

/// What the first feed submits, and then the second.
pub(crate) fn batches(alloc: Global) -> Result<(Batch, Batch), AllocError> {
    let first = batch_of(alloc, &[Edit::Insert(1, 2), Edit::Insert(1, 0)])?;
    let second = batch_of(alloc, &[Edit::Remove(1, 0), Edit::Insert(1, 1)])?;
    Ok((first, second))
}

/// Whether a step published the next batch, which came by this feed.
pub(crate) fn is_next(receipt: &Receipt, epoch: u64, number: u64, feed: u8) -> bool {
    receipt.epoch() == epoch && receipt.number() == number && receipt.feed() == Some(feed)
}

/// What a reader pins: whether it has this epoch and number, and vertex 1 these neighbours, which are all edges.
pub(crate) fn pins_such(reader: &mut Reader, epoch: u64, number: u64, neighbours: &[u32]) -> bool {
    match reader.pin() {
        Ok(pin) => is_such(pin.version(), epoch, number, neighbours),
        Err(_) => false,
    }
}

/// Publishes the next batch, which came by this feed. Between steps the version before it, with these neighbours of
/// vertex 1, is shown.
fn publish<R: Threads + Wait>(
    rt: &R,
    publisher: &mut Publisher,
    reader: &mut Reader,
    feed: u8,
    old: &[u32],
) -> Told
    ensures queue { publisher.new.queue ≡ publisher.old.queue }
    ensures store { OneStore publisher.old.moment publisher.new.moment }
{
    let number = u64::from(feed);
    match publisher.step(rt, Workers::one(), &OpenGate) {
        Ok(Some(receipt)) if is_next(&receipt, 0, number + 1, feed) => return Told::Published,
        Err(PublishError::OutOfMemory) => {}
        _ => return Told::Changed,
    }
    if publisher.holds() != Some(feed) || !pins_such(reader, 0, number, old) {
        return Told::Changed;
    }
    match publisher.step(rt, Workers::one(), &OpenGate) {
        Ok(Some(receipt)) if is_next(&receipt, 0, number + 1, feed) => Told::Unchanged,
        _ => Told::Changed,
    }
}

/// Publishes the batches that both feeds submitted.
fn publish_both<R: Threads + Wait>(rt: &R, publisher: &mut Publisher, reader: &mut Reader) -> Told
    ensures queue { publisher.new.queue ≡ publisher.old.queue }
    ensures store { OneStore publisher.old.moment publisher.new.moment }
{
    let first = publish(rt, publisher, reader, 0, &[]);
    let second = publish(rt, publisher, reader, 1, &[0, 2]);
    if !pins_such(reader, 0, 2, &[1, 2]) {
        return Told::Changed;
    }
    match (first, second) {
        (Told::Published, told) => told,
        (told, Told::Published) => told,
        _ => Told::Changed,
    }
}

/// Whether nothing is left of the batches, and both are published.
fn is_done(finished: &Finished) -> bool {
    finished.held.is_none() && finished.left.is_empty() && finished.last.number() == 2
}

/// Two feeds submit a batch each, and both are published.
pub(crate) fn publish_twice<R: Threads + Wait>(rt: &R, alloc: Global) -> Result<(), Stop> {
    let Ok((first_batch, second_batch)) = batches(alloc) else {
        return Err(Stop::NotBegun);
    };
    let Ok(ends) = Store::new(3, rt, alloc) else {
        return Err(Stop::NotBegun);
    };
    let Ends {
        mut publisher,
        mut feeds,
        mut reader,
    } = ends;
    let submitted = feeds[0].submit(first_batch, rt).is_ok()
        && feeds[1].submit(second_batch, rt).is_ok();
    let told = publish_both(rt, &mut publisher, &mut reader);
    let finished = publisher.finish(feeds, rt);
    match told {
        Told::Published if submitted && is_done(&finished) => Ok(()),
        Told::Unchanged if submitted && is_done(&finished) => Err(Stop::NotPublished),
        _ => Err(Stop::Wrong),
    }
}
