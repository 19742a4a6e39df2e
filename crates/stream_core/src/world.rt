//! The store as one value.
ghost use Rattle.std.specs.Prelude.{◌≡◌, ◌<◌, ◌≤◌, true, is_some, IfOk, OnOk, OnErr};
ghost use Rattle.past_model.specs.declared.limits.TheConstants.{MOST_VERTICES};
ghost use Rattle.past_model.specs.Past.{graph_of};
ghost use Rattle.shard_table.specs.Table.{IsTable, parts_of};
ghost use Rattle.history.specs.declared.limits.TheConstants.{MOST_PUBLICATIONS};
ghost use Rattle.history.specs.declared.published.Published.TheVariants.{Batch as OneBatch, Rebase as OneRebase};
ghost use Rattle.history.specs.Moment.{count_of, and_then};
ghost use Rattle.store_model.specs.Core.{opening_core, run_of};
ghost use Rattle.store_model.specs.Events.{can, after, Answers};

use crate::held::Held;
use crate::reader_run::ReaderRun;
use crate::version_shards::VersionShards;
use history::{Head, Known, MOST_PUBLICATIONS};
use past_model::{Batch, Entry, FEEDS};
use shards::Shard;
use std::alloc::{AllocError, Global};
use std::collections::VecDeque;
use std::marker::Model;
use std::sync::Arc;
use store_model::{Event, QUEUE_PLACES, READERS, Reply};

/// All that the store has: the history of what it published, which takes no memory, the queue, the batch in work, the
/// shards that were published last, and each reader's run.
pub struct World {
    alloc: Global,
    vertex_count: u32,
    head: Head,
    known: Known,
    count: u64,
    queue: VecDeque<Entry>,
    held: Option<Held>,
    table: VersionShards,
    runs: Vec<Option<ReaderRun>>,
}

impl Drop for World {
    // Written out, so that crates above prove a call here, and not the drop of each part.
    fn drop(self) {
        let World {
            alloc: _alloc,
            vertex_count: _vertex_count,
            head: _head,
            known: _known,
            count: _count,
            queue: _queue,
            held: _held,
            table: _table,
            runs: _runs,
        } = self;
    }
}

impl Model for World {
    ghost use Rattle.store_model.specs.Core.{Core};
    ghost use Rattle.std.specs.Prelude.{◌≡◌};
    ghost use Rattle.history.specs.Moment.{count_of};
    ghost use Rattle.stream_core.specs.Runs.{past_at};
    ghost use Rattle.stream_core.specs.World.{core_of, IsWorld};

    ghost Value = { Core };

    ghost view = { λ w. core_of (past_at w.vertex_count w.known) w.queue.items w.held w.runs.items };

    ghost invariant = { λ w. IsWorld (past_at w.vertex_count w.known) w.queue.items w.held w.table w.runs.items
        × (w.known.book ≡ w.head) × (w.count ≡ count_of w.known) };
}

impl World {
    ghost use Rattle.store_model.specs.declared.event.Event.TheVariants as events;
    ghost use Rattle.store_model.specs.declared.reply.Reply.TheVariants as replies;

    /// A store of a graph of so many vertices, from 1 to 268,435,456, without an edge, in which nothing has
    /// happened yet.
    pub fn new(alloc: Global, vertex_count: u32) -> Result<World, AllocError>
        requires some { 1 ≤ vertex_count }
        requires most { vertex_count ≤ MOST_VERTICES }
        ensures { IfOk result (λ world. world ≡ opening_core vertex_count) }
    {
        let mut runs = Vec::with_capacity(alloc, usize::from(READERS))?;
        for _ in 0..READERS {
            runs.push(None)?;
        }
        let (head, known) = Head::new();
        Ok(World {
            alloc,
            vertex_count,
            head,
            known,
            count: 0,
            queue: VecDeque::new(alloc),
            held: None,
            table: VersionShards::empty(alloc, vertex_count)?,
            runs,
        })
    }

    /// The shards that were published last.
    pub(crate) fn shards(&self) -> &[Arc<Shard>]
        ensures { IsTable (graph_of self.now.past) (parts_of result.now) }
    {
        self.table.shards()
    }

    /// Whether an event can happen.
    pub(crate) fn can(&self, event: &Event) -> bool
        ensures { result ≡ can self.now event.now }
    {
        match event {
            Event::Submit { feed, batch } => {
                *feed < FEEDS
                    && self.queue.len() < QUEUE_PLACES
                    && batch.is_below(self.vertex_count)
            }
            Event::Take => self.held.is_none() && !self.queue.is_empty(),
            Event::Part { range } => match &self.held {
                None => false,
                Some(held) => held.is_open(*range),
            },
            Event::Publish => match &self.held {
                None => false,
                Some(held) => held.is_whole(),
            },
            Event::Rebase => true,
            Event::Pin { reader, vertex } => *reader < READERS && *vertex < self.vertex_count,
            Event::Lend { reader } => self.has_run(*reader),
        }
    }

    // Whether a reader has a run.
    fn has_run(&self, reader: u8) -> bool
        ensures { result ≡ is_some (run_of self.now reader) }
    {
        match self.runs.get(usize::from(reader)) {
            Some(Some(_)) => true,
            _ => false,
        }
    }

    /// Puts a batch at the end of the queue.
    pub(crate) fn submit(&mut self, feed: u8, batch: Batch) -> Result<(), AllocError>
        requires { can self.old (events.Submit feed batch) ≡ true }
        ensures ok { OnOk result (self.new ≡ after self.old (events.Submit feed batch) replies.Done) }
        ensures err { OnErr result (self.new ≡ self.old) }
    {
        self.queue.push_back(Entry { feed, batch })?;
        Ok(())
    }

    /// Takes the first batch of the queue, to be worked on. After an error, which comes if there is no memory for another table of
    /// the shards or for the edits by their ranges, the queue still has it.
    pub(crate) fn take(&mut self) -> Result<(), AllocError>
        requires { can self.old events.Take ≡ true }
        ensures ok { OnOk result (self.new ≡ after self.old events.Take replies.Done) }
        ensures err { OnErr result (self.new ≡ self.old) }
    {
        let alloc = self.alloc;
        let table = self.table.share(alloc)?;
        if let Some(entry) = self.queue.front() {
            let held = Held::begin(alloc, entry.share()?, table)?;
            self.queue.pop_front();
            self.held = Some(held);
            return Ok(());
        }
        Ok(())
    }

    /// Does the held batch's edits of one range.
    pub(crate) fn part(&mut self, range: u32) -> Result<(), AllocError>
        requires { can self.old (events.Part range) ≡ true }
        ensures ok { OnOk result (self.new ≡ after self.old (events.Part range) replies.Done) }
        ensures err { OnErr result (self.new ≡ self.old) }
    {
        let alloc = self.alloc;
        if let Some(held) = &mut self.held {
            return held.apply(alloc, range);
        }
        Ok(())
    }

    /// Puts the held batch at the end of the log, and its shards in the place of the ones before. It fails after 2^64 - 1
    /// publications.
    pub(crate) fn publish(&mut self) -> Result<(), AllocError>
        requires { can self.old events.Publish ≡ true }
        ensures ok { OnOk result (self.new ≡ after self.old events.Publish replies.Done) }
        ensures err { OnErr result (self.new ≡ self.old) }
    {
        if let Some(held) = &self.held {
            let known = longer(&self.head, &self.known, self.count, held.entry())?;
            if let Some(held) = self.held.take() {
                held.show(&mut self.table);
                self.known = known;
                self.count += 1;
                return Ok(());
            }
        }
        Ok(())
    }

    /// Makes the graph of this moment the base of a new epoch, whose log is empty. It fails after 2^64 - 1 publications.
    pub(crate) fn rebase(&mut self) -> Result<(), AllocError>
        requires { can self.old events.Rebase ≡ true }
        ensures ok { OnOk result (self.new ≡ after self.old events.Rebase replies.Done) }
        ensures err { OnErr result (self.new ≡ self.old) }
    {
        let known = rebased(&self.head, &self.known, self.count)?;
        self.known = known;
        self.count += 1;
        Ok(())
    }

    /// Begins a reader's run in the version of this moment, in place of the run that it had.
    pub(crate) fn pin(&mut self, reader: u8, vertex: u32) -> Result<(), AllocError>
        requires { can self.old (events.Pin reader vertex) ≡ true }
        ensures ok { OnOk result (self.new ≡ after self.old (events.Pin reader vertex) replies.Done) }
        ensures err { OnErr result (self.new ≡ self.old) }
    {
        let table = self.table.share(self.alloc)?;
        let run = ReaderRun {
            known: self.known.again(),
            vertex,
            place: 0,
            ended: false,
            table,
        };
        self.runs[usize::from(reader)] = Some(run);
        Ok(())
    }

    /// Lends a reader's run its next words.
    pub(crate) fn lend(&mut self, reader: u8) -> Result<Reply, AllocError>
        requires { can self.old (events.Lend reader) ≡ true }
        ensures answer { IfOk result (λ reply. Answers self.old (events.Lend reader) reply) }
        ensures ok { IfOk result (λ reply. self.new ≡ after self.old (events.Lend reader) reply) }
        ensures err { OnErr result (self.new ≡ self.old) }
    {
        let alloc = self.alloc;
        if let Some(run) = &mut self.runs[usize::from(reader)] {
            return run.lend(alloc);
        }
        Ok(Reply::End)
    }
}

// What is known once the history has a batch more.
fn longer(head: &Head, known: &Known, count: u64, entry: &Entry) -> Result<Known, AllocError>
    requires book { known.now.book ≡ head.now }
    requires count { count ≡ count_of known.now }
    ensures known { IfOk result (λ longer. longer ≡ and_then known.now (OneBatch entry.now)) }
    ensures room { IfOk result (λ _. count < MOST_PUBLICATIONS) }
{
    if count >= MOST_PUBLICATIONS {
        return Err(AllocError);
    }
    match head.add(known, count, entry) {
        Some(longer) => Ok(longer),
        None => Err(AllocError),
    }
}

// What is known once the history has a rebase more.
fn rebased(head: &Head, known: &Known, count: u64) -> Result<Known, AllocError>
    requires book { known.now.book ≡ head.now }
    requires count { count ≡ count_of known.now }
    ensures known { IfOk result (λ longer. longer ≡ and_then known.now OneRebase) }
    ensures room { IfOk result (λ _. count < MOST_PUBLICATIONS) }
{
    if count >= MOST_PUBLICATIONS {
        return Err(AllocError);
    }
    match head.rebase(known, count) {
        Some(longer) => Ok(longer),
        None => Err(AllocError),
    }
}
