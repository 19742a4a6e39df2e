//! A version: what it answers, and the next one of it and a batch.
ghost use Rattle.std.specs.Prelude.{◌≡◌, ◌+◌, ◌/◌, ◌%◌, ◌<◌, ◌≤◌, ℕ, drop, length, slice_get, IfOk, IfErr};
ghost use Rattle.past_model.specs.declared.limits.TheConstants.{MOST_BATCHES, MOST_EPOCHS, MOST_VERTICES};
ghost use Rattle.graph_model.specs.Graph.{neighbours, edge_count, degree};
ghost use Rattle.past_model.specs.Edits.{AreEditsBelow, added, removed};
ghost use Rattle.past_model.specs.Homes.{home_of};
ghost use Rattle.graph_model.specs.Views.{is_edge, neighbour_words, neighbours_among, word_bytes};
ghost use Rattle.workers.specs.declared.work_error.WorkError.TheVariants.{OutOfMemory};
ghost use Rattle.past_model.specs.Past.{IsPast, graph_of, number_of, epoch_of, opening, longer};
ghost use Rattle.past_model.specs.Epochs.{branched, rebased};

use crate::epoch::Epoch;
use crate::log::Log;
use batch_apply::{edit_table, edit_table_alone};
use cursors::Cursor;
use past_model::{Entry, Home};
use shard_table::Table;
use shards::Counts;
use std::alloc::{AllocError, Global};
use std::marker::Model;
use std::sync::{Arc, Wait};
use std::thread::Threads;
use workers::{Crew, Gate, WorkError, Workers};

/// One state of a graph: what the log of its epoch's batches makes of the epoch's base. It never changes after it was
/// made. Contracts see it as the past that it is the replay of.
pub struct Version {
    vertex_count: u32,
    epoch: Arc<Epoch>,
    log: Log,
    shards: Table,
    edge_count: u64,
}

impl Drop for Version {
    // Written out, so that crates above prove a call here, and not the drop of each part.
    fn drop(self) {
        let Version {
            vertex_count: _vertex_count,
            epoch: _epoch,
            log: _log,
            shards: _shards,
            edge_count: _edge_count,
        } = self;
    }
}

impl Model for Version {
    ghost use Rattle.std.specs.Arc.{arc_value};
    ghost use Rattle.past_model.specs.Past.{Past};
    ghost use Rattle.version.specs.Ground.{past_on};
    ghost use Rattle.version.specs.Version.{IsVersion};

    ghost Value = { Past };

    ghost view = { λ v. past_on v.vertex_count (arc_value v.epoch) v.log };

    ghost invariant = { λ v. IsVersion (past_on v.vertex_count (arc_value v.epoch) v.log) v.shards v.edge_count };
}

impl Version {
    ghost use Rattle.version.specs.Version.{IsVertexCount, IsMade};
    ghost use Rattle.version.specs.Sorted.{AreSorted, past_of};

    /// The version with nothing published.
    pub fn opening(alloc: Global, vertex_count: u32) -> Result<Version, AllocError>
        requires { IsVertexCount vertex_count }
        ensures { IfOk result (λ version. version ≡ opening vertex_count) }
    {
        Ok(Version {
            vertex_count,
            epoch: Arc::new(alloc, Epoch::first(alloc))?,
            log: Log::empty(alloc),
            shards: Table::empty(alloc, vertex_count)?,
            edge_count: 0,
        })
    }

    /// The version of a graph whose edges are given in sorted arrays, as the base of a first epoch without a batch: where the list
    /// of each vertex begins, the end of them all after the last, and the lists. Each list is in the home to which its degree leads.
    pub fn of_lists(
        alloc: Global,
        vertex_count: u32,
        starts: &[u64],
        targets: &[u32],
    ) -> Result<Version, AllocError>
        requires count { IsVertexCount vertex_count }
        requires sorted { AreSorted vertex_count starts.now targets.now }
        ensures { IfOk result (λ version. version ≡ past_of vertex_count starts.now targets.now) }
    {
        let shards = Table::of_lists(alloc, vertex_count, starts, targets)?;
        let base = shards.share(alloc)?;
        let epoch = Arc::new(alloc, Epoch::based(alloc, base))?;
        Ok(Version {
            vertex_count,
            epoch,
            log: Log::empty(alloc),
            shards,
            edge_count: targets.len() as u64,
        })
    }

    /// How many batches of its epoch were published before it and with it.
    pub fn number(&self) -> u64
        ensures value { result ≡ number_of self.now }
        ensures small { result ≤ MOST_BATCHES }
        ensures past { IsPast self.now }
    {
        self.log.len()
    }

    /// How many epochs ended before it.
    pub fn epoch(&self) -> u64
        ensures value { result ≡ epoch_of self.now }
        ensures small { result ≤ MOST_EPOCHS }
    {
        self.epoch.number()
    }

    /// How many vertices it has: from 1 to 268,435,456.
    pub fn vertex_count(&self) -> u32
        ensures value { result ≡ self.now.vertex_count }
        ensures range { IsVertexCount result }
    {
        self.vertex_count
    }

    /// How many edges it has.
    pub fn edge_count(&self) -> u64
        ensures { result ≡ edge_count (graph_of self.now) }
    {
        self.edge_count
    }

    /// The neighbours of a vertex, ascending, to be lent in slices. A vertex outside has none.
    pub fn cursor(&self, vertex: u32) -> Cursor<'_>
        ensures { result ≡ neighbours (graph_of self.now) vertex }
    {
        Cursor::over(self.shards.shard_of(u64::from(vertex)), vertex)
    }

    /// The neighbours of a vertex from a place on, to be lent in the same way. There are none past their end.
    pub fn cursor_from(&self, vertex: u32, place: u32) -> Cursor<'_>
        ensures left { result ≡ drop place (neighbours (graph_of self.now) vertex) }
        ensures small { length result ≤ MOST_VERTICES }
    {
        let vertex = u64::from(vertex);
        Cursor::from_place(self.shards.shard_of(vertex), vertex, u64::from(place))
    }

    /// How many neighbours a vertex has. A vertex outside has none.
    #[inline(always)]
    pub fn degree(&self, vertex: u64) -> u32
        ensures value { result ≡ degree (graph_of self.now) vertex }
        ensures small { result ≤ MOST_VERTICES }
    {
        // A run asks for each vertex, from more places than LLVM makes this part of by itself.
        cursors::degree(self.shards.shard_of(vertex), vertex)
    }

    /// How many vertices in a row have no neighbours, from one on. How far it looks is left open.
    pub fn edgeless_from(&self, vertex: u64) -> u32
        ensures { (k : ℕ) → k < result → degree (graph_of self.now) (vertex + k) ≡ 0 }
    {
        cursors::edgeless_from(self.shards.shard_of(vertex), vertex)
    }

    /// Where a vertex's neighbours are kept. A vertex outside has none, and they are in its block.
    pub fn home(&self, vertex: u64) -> Home
        ensures { result ≡ home_of self.now vertex }
    {
        self.shards.home(vertex)
    }

    /// Whether there is an edge from a vertex to another.
    pub fn has_edge(&self, source: u64, target: u64) -> bool
        ensures { result ≡ is_edge (graph_of self.now) source target }
    {
        cursors::has_edge(self.shards.shard_of(source), source, target)
    }

    /// The neighbour at a place of a vertex's neighbours, from 0; there is none past their end.
    pub fn neighbour(&self, vertex: u64, place: u64) -> Option<u32>
        ensures { result ≡ slice_get (neighbours (graph_of self.now) vertex) place }
    {
        cursors::neighbour(self.shards.shard_of(vertex), vertex, place)
    }

    /// Fills a slice with the neighbours of a vertex from a place on, each as four bytes, the lowest first,
    /// and with bytes 255 where there are no more. It returns how many there were.
    pub fn gather(&self, vertex: u64, first: u64, out: &mut [u8]) -> u32
        requires { length out.old % 4 ≡ 0 }
        ensures words { out.new
            ≡ word_bytes (neighbour_words (graph_of self.now) vertex first (length out.old / 4)) }
        ensures count { result ≡ neighbours_among (graph_of self.now) vertex first (length out.old / 4) }
    {
        cursors::gather(self.shards.shard_of(vertex), vertex, first, out)
    }

    /// The version after one more batch, and what the batch does, by workers: the same for each number of them, gate and
    /// order in which threads run. Each edited range's number is a piece of the gate's. This version stays. `OutOfMemory`
    /// if there is no memory, `WorkerRefused` if a thread could not be started; with one worker none is.
    pub fn next<Ga: Gate, R: Threads + Wait>(
        &self,
        crew: &Crew<'_, R, Ga>,
        alloc: Global,
        entry: &Entry,
    ) -> Result<(Version, Counts), WorkError>
        requires room { number_of self.now < MOST_BATCHES }
        requires below { AreEditsBelow self.now.vertex_count entry.now.batch }
        ensures next { IfOk result (λ next. next.0 ≡ longer self.now entry.now) }
        ensures gained { IfOk result (λ next. next.1.added ≡ added entry.now.batch (graph_of self.now)) }
        ensures lost { IfOk result (λ next. next.1.removed ≡ removed entry.now.batch (graph_of self.now)) }
        ensures alone { crew.now.workers.count ≡ 1 → IfErr result (λ e. e ≡ OutOfMemory) }
    {
        let made = edit_table(crew, alloc, &self.shards, entry.batch.edits())?;
        let next = self.with_batch(alloc, entry, made)?;
        Ok(next)
    }

    /// What `next` answers, by the caller's own thread alone: it needs no right to start a thread or to wait. The only error is
    /// lack of memory.
    pub fn next_alone(&self, alloc: Global, entry: &Entry) -> Result<(Version, Counts), AllocError>
        requires room { number_of self.now < MOST_BATCHES }
        requires below { AreEditsBelow self.now.vertex_count entry.now.batch }
        ensures next { IfOk result (λ next. next.0 ≡ longer self.now entry.now) }
        ensures gained { IfOk result (λ next. next.1.added ≡ added entry.now.batch (graph_of self.now)) }
        ensures lost { IfOk result (λ next. next.1.removed ≡ removed entry.now.batch (graph_of self.now)) }
    {
        let made = edit_table_alone(alloc, &self.shards, entry.batch.edits())?;
        self.with_batch(alloc, entry, made)
    }

    // The version of what a batch made of this one's shards.
    fn with_batch(
        &self,
        alloc: Global,
        entry: &Entry,
        made: (Table, Counts),
    ) -> Result<(Version, Counts), AllocError>
        requires { IsMade self.now entry.now made.0 made.1 }
        ensures next { IfOk result (λ next. next.0 ≡ longer self.now entry.now) }
        ensures gained { IfOk result (λ next. next.1.added ≡ added entry.now.batch (graph_of self.now)) }
        ensures lost { IfOk result (λ next. next.1.removed ≡ removed entry.now.batch (graph_of self.now)) }
    {
        let (shards, counts) = made;
        let version = Version {
            vertex_count: self.vertex_count,
            epoch: Arc::try_clone(&self.epoch)?,
            log: self.log.with(alloc, entry.share()?)?,
            shards,
            edge_count: self.edge_count + counts.added - counts.removed,
        };
        Ok((version, counts))
    }

    /// The same graph, with the same homes, as the base of a new epoch. No shard is copied, and this version stays.
    pub fn rebased(&self, alloc: Global) -> Result<Version, AllocError>
        requires { epoch_of self.now < MOST_EPOCHS }
        ensures { IfOk result (λ version. version ≡ rebased self.now) }
    {
        let base = self.shards.share(alloc)?;
        let shards = self.shards.share(alloc)?;
        let epoch = Arc::new(alloc, self.epoch.next(alloc, base, self.log.mark())?)?;
        Ok(Version {
            vertex_count: self.vertex_count,
            epoch,
            log: Log::empty(alloc),
            shards,
            edge_count: self.edge_count,
        })
    }

    /// The same graph, with the same homes, as the base of a first epoch without a batch. No shard is copied, and this version
    /// stays: what is made of the one is not seen by the other.
    pub fn branched(&self, alloc: Global) -> Result<Version, AllocError>
        ensures { IfOk result (λ version. version ≡ branched self.now) }
    {
        let own = self.shards.share(alloc)?;
        let epoch = Arc::new(alloc, Epoch::based(alloc, own))?;
        let log = Log::empty(alloc);
        Ok(Version {
            vertex_count: self.vertex_count,
            epoch,
            log,
            shards: self.shards.share(alloc)?,
            edge_count: self.edge_count,
        })
    }

    /// Lets the version go, by workers, each of whom has a part of its shards. What other versions share stays.
    pub fn let_go<R: Threads>(self, rt: &R, alloc: Global, workers: Workers) {
        let Version {
            vertex_count: _,
            epoch: _epoch,
            log: _log,
            shards,
            edge_count: _,
        } = self;
        shards.let_go(rt, alloc, usize::from(workers.count()));
    }
}
