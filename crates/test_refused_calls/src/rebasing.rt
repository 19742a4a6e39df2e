//! A rebase between two batches. One that is refused changes nothing, and a batch whose step was refused is held over it.
ghost use Rattle.std.specs.Prelude.{◌≡◌};
ghost use Rattle.history.specs.Moment.{OneStore};

use crate::publishing::{batches, is_next, pins_such};
use crate::stop::Stop;
use std::alloc::Global;
use std::sync::Wait;
use std::thread::Threads;
use store::{
    Ends, Finished, OpenGate, PublishError, Publisher, Reader, RebaseError, Receipt, Store, Workers,
};

/// What came of a call, or of some.
#[derive(Clone, Copy, PartialEq, Eq)]
enum Told {
    /// It was done.
    Done,
    /// A step was refused, and its batch was held, which a later step publishes.
    Held,
    /// A rebase was refused, the last version was as it was, and the next rebase was published.
    Unchanged,
    /// A step was refused, and its batch was held over the rebase.
    HeldOver,
    /// The same in the epoch that the first rebase began.
    HeldOverLater,
    /// Something is not as it should be.
    Changed,
}

/// What came of two calls, of which one at most was refused.
fn both(first: Told, second: Told) -> Told {
    match (first, second) {
        (Told::Done, told) => told,
        (told, Told::Done) => told,
        _ => Told::Changed,
    }
}

/// What a publisher and a reader have to say of their store.
#[derive(Clone, Copy)]
struct State<'a> {
    epoch: u64,
    number: u64,
    /// The neighbours of vertex 1, which are all edges.
    neighbours: &'a [u32],
    /// The feed of the batch that is held.
    held: Option<u8>,
}

/// A store that published nothing yet.
const EMPTY: State<'static> = State {
    epoch: 0,
    number: 0,
    neighbours: &[],
    held: None,
};

impl<'a> State<'a> {
    /// The same, with the batch of this feed held.
    fn holding(self, feed: u8) -> State<'a> {
        State {
            held: Some(feed),
            ..self
        }
    }

    /// The same edges and batch in the next epoch, which has no version but its first.
    fn in_the_next_epoch(self) -> State<'a> {
        State {
            epoch: self.epoch.saturating_add(1),
            number: 0,
            ..self
        }
    }
}

fn is_at(publisher: &Publisher, reader: &mut Reader, state: State<'_>) -> bool {
    publisher.holds() == state.held
        && pins_such(reader, state.epoch, state.number, state.neighbours)
}

/// Whether a receipt is of the rebase that begins this epoch.
fn is_rebase(receipt: &Receipt, epoch: u64) -> bool {
    receipt.epoch() == epoch
        && receipt.number() == 0
        && receipt.feed().is_none()
        && receipt.batch().is_none()
        && receipt.added() == 0
        && receipt.removed() == 0
}

/// Rebases a store that is at this state. A refused rebase leaves it there, and the next one succeeds.
fn rebase<R: Threads + Wait>(
    rt: &R,
    publisher: &mut Publisher,
    reader: &mut Reader,
    state: State<'_>,
) -> Told
    ensures queue { publisher.new.queue ≡ publisher.old.queue }
    ensures store { OneStore publisher.old.moment publisher.new.moment }
{
    match publisher.rebase(rt) {
        Ok(receipt) if is_rebase(&receipt, 1) => return Told::Done,
        Err(RebaseError::OutOfMemory) => {}
        _ => return Told::Changed,
    }
    if !is_at(publisher, reader, state) {
        return Told::Changed;
    }
    match publisher.rebase(rt) {
        Ok(receipt) if is_rebase(&receipt, 1) => Told::Unchanged,
        _ => Told::Changed,
    }
}

/// Tries to publish the next batch of a store that is at this state, which came by this feed. If the step is refused, the batch is
/// held, and nothing else has changed.
fn step<R: Threads + Wait>(
    rt: &R,
    publisher: &mut Publisher,
    reader: &mut Reader,
    state: State<'_>,
    feed: u8,
) -> Told
    ensures queue { publisher.new.queue ≡ publisher.old.queue }
    ensures store { OneStore publisher.old.moment publisher.new.moment }
{
    let number = state.number.saturating_add(1);
    match publisher.step(rt, Workers::one(), &OpenGate) {
        Ok(Some(receipt)) if is_next(&receipt, state.epoch, number, feed) => return Told::Done,
        Err(PublishError::OutOfMemory) => {}
        _ => return Told::Changed,
    }
    if is_at(publisher, reader, state.holding(feed)) {
        Told::Held
    } else {
        Told::Changed
    }
}

/// Publishes the next batch of a store that is at this state, by a second step where the first one is refused.
fn publish<R: Threads + Wait>(
    rt: &R,
    publisher: &mut Publisher,
    reader: &mut Reader,
    state: State<'_>,
    feed: u8,
) -> Told
    ensures queue { publisher.new.queue ≡ publisher.old.queue }
    ensures store { OneStore publisher.old.moment publisher.new.moment }
{
    let first = step(rt, publisher, reader, state, feed);
    if first != Told::Held {
        return first;
    }
    match step(rt, publisher, reader, state.holding(feed), feed) {
        Told::Done => Told::Held,
        _ => Told::Changed,
    }
}

/// Rebases a store that holds a batch, after a refused allocation: the rebase gets all memory that it asks for. It leaves the batch and
/// the edges as they were, and returns the state that the store is at then; `None` if it is at another.
fn rebase_over<'a, R: Threads + Wait>(
    rt: &R,
    publisher: &mut Publisher,
    reader: &mut Reader,
    held: State<'a>,
) -> Option<State<'a>>
    ensures queue { publisher.new.queue ≡ publisher.old.queue }
    ensures store { OneStore publisher.old.moment publisher.new.moment }
{
    let rebased = held.in_the_next_epoch();
    match publisher.rebase(rt) {
        Ok(receipt) if is_rebase(&receipt, rebased.epoch) => {}
        _ => return None,
    }
    if is_at(publisher, reader, rebased) {
        Some(rebased)
    } else {
        None
    }
}

/// Publishes the second batch in epoch 1, which has none yet. If the step is refused, the batch is held over another rebase, and is
/// published in epoch 2.
fn publish_later<R: Threads + Wait>(
    rt: &R,
    publisher: &mut Publisher,
    reader: &mut Reader,
    state: State<'_>,
) -> Told
    ensures queue { publisher.new.queue ≡ publisher.old.queue }
    ensures store { OneStore publisher.old.moment publisher.new.moment }
{
    let first = step(rt, publisher, reader, state, 1);
    if first != Told::Held {
        return first;
    }
    let Some(rebased) = rebase_over(rt, publisher, reader, state.holding(1)) else {
        return Told::Changed;
    };
    match step(rt, publisher, reader, rebased, 1) {
        Told::Done => Told::HeldOverLater,
        _ => Told::Changed,
    }
}

/// Rebases after the first batch was published, and publishes the second.
fn rebase_after<R: Threads + Wait>(rt: &R, publisher: &mut Publisher, reader: &mut Reader) -> Told
    ensures queue { publisher.new.queue ≡ publisher.old.queue }
    ensures store { OneStore publisher.old.moment publisher.new.moment }
{
    let state = State {
        epoch: 0,
        number: 1,
        neighbours: &[0, 2],
        held: None,
    };
    let told = rebase(rt, publisher, reader, state);
    let rebased = state.in_the_next_epoch();
    if !is_at(publisher, reader, rebased) {
        return Told::Changed;
    }
    both(told, publish_later(rt, publisher, reader, rebased))
}

/// Rebases while the first batch is held, whose step was refused, and publishes it and the second one.
fn rebase_while_held<R: Threads + Wait>(
    rt: &R,
    publisher: &mut Publisher,
    reader: &mut Reader,
    held: State<'_>,
) -> Told
    ensures queue { publisher.new.queue ≡ publisher.old.queue }
    ensures store { OneStore publisher.old.moment publisher.new.moment }
{
    let Some(rebased) = rebase_over(rt, publisher, reader, held) else {
        return Told::Changed;
    };
    let first = publish(rt, publisher, reader, rebased, 3);
    let next = State {
        number: 1,
        neighbours: &[0, 2],
        held: None,
        ..rebased
    };
    let second = publish(rt, publisher, reader, next, 1);
    both(both(first, second), Told::HeldOver)
}

/// Publishes the first batch and rebases, or the other way round.
fn rebase_and_publish<R: Threads + Wait>(
    rt: &R,
    publisher: &mut Publisher,
    reader: &mut Reader,
) -> Told
    ensures queue { publisher.new.queue ≡ publisher.old.queue }
    ensures store { OneStore publisher.old.moment publisher.new.moment }
{
    match step(rt, publisher, reader, EMPTY, 3) {
        Told::Done => rebase_after(rt, publisher, reader),
        Told::Held => rebase_while_held(rt, publisher, reader, EMPTY.holding(3)),
        _ => Told::Changed,
    }
}

/// Rebases a store that published nothing yet, and publishes the batch that waits. If the rebase is refused, the batch is published
/// without it.
fn rebase_at_first<R: Threads + Wait>(
    rt: &R,
    publisher: &mut Publisher,
    reader: &mut Reader,
) -> Told
    ensures queue { publisher.new.queue ≡ publisher.old.queue }
    ensures store { OneStore publisher.old.moment publisher.new.moment }
{
    match publisher.rebase(rt) {
        Ok(receipt) if is_rebase(&receipt, 1) => {
            publish(rt, publisher, reader, EMPTY.in_the_next_epoch(), 0)
        }
        Err(RebaseError::OutOfMemory) if is_at(publisher, reader, EMPTY) => {
            both(publish(rt, publisher, reader, EMPTY, 0), Told::Unchanged)
        }
        _ => Told::Changed,
    }
}

/// A feed submits a batch, and the store is rebased before it is published.
pub(crate) fn rebase_before<R: Threads + Wait>(rt: &R, alloc: Global) -> Result<(), Stop> {
    let Ok((batch, _)) = batches(alloc) else {
        return Err(Stop::NotBegun);
    };
    let Ok(ends) = Store::new(3, rt, alloc) else {
        return Err(Stop::NotBegun);
    };
    let Ends {
        mut publisher,
        mut feeds,
        mut reader,
    } = ends;
    let submitted = feeds[0].submit(batch, rt).is_ok();
    let told = rebase_at_first(rt, &mut publisher, &mut reader);
    let finished = publisher.finish(feeds, rt);
    let is_done = finished.held.is_none()
        && finished.left.is_empty()
        && finished.last.number() == 1
        && finished.last.edge_count() == 2;
    match told {
        Told::Done if submitted && is_done => Ok(()),
        Told::Held if submitted && is_done => Err(Stop::NotPublished),
        Told::Unchanged if submitted && is_done => Err(Stop::NotRebased),
        _ => Err(Stop::Wrong),
    }
}

/// The epoch and the number of the last version, if all is as it should be.
fn last_place(told: Told) -> (u64, u64) {
    match told {
        Told::HeldOver => (1, 2),
        Told::HeldOverLater => (2, 1),
        Told::Done | Told::Held | Told::Unchanged | Told::Changed => (1, 1),
    }
}

/// Whether nothing is left of the batches, and both are published.
fn is_done(finished: &Finished, epoch: u64) -> bool {
    finished.held.is_none()
        && finished.left.is_empty()
        && finished.last.epoch() == epoch
        && finished.last.edge_count() == 2
}

/// The last feed and another one submit a batch each. The first is published, the store is rebased, and the second is published.
pub(crate) fn rebase_between<R: Threads + Wait>(rt: &R, alloc: Global) -> Result<(), Stop> {
    let Ok((first_batch, second_batch)) = batches(alloc) else {
        return Err(Stop::NotBegun);
    };
    let Ok(ends) = Store::new(3, rt, alloc) else {
        return Err(Stop::NotBegun);
    };
    let Ends {
        mut publisher,
        mut feeds,
        mut reader,
    } = ends;
    let submitted = feeds[3].submit(first_batch, rt).is_ok()
        && feeds[1].submit(second_batch, rt).is_ok();
    let told = rebase_and_publish(rt, &mut publisher, &mut reader);
    let (epoch, number) = last_place(told);
    let last_is_pinned = pins_such(&mut reader, epoch, number, &[1, 2]);
    let finished = publisher.finish(feeds, rt);
    if !submitted || !last_is_pinned || !is_done(&finished, epoch) {
        return Err(Stop::Wrong);
    }
    match told {
        Told::Done => Ok(()),
        Told::Held => Err(Stop::NotPublished),
        Told::Unchanged => Err(Stop::NotRebased),
        Told::HeldOver => Err(Stop::HeldOver),
        Told::HeldOverLater => Err(Stop::HeldOverLater),
        Told::Changed => Err(Stop::Wrong),
    }
}
