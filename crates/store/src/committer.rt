//! How a taken batch becomes the version that readers are shown.
ghost use Rattle.std.specs.Prelude.{◌≡◌, ◌≤◌, Some, None, true, is_some, option_map, IfOk, IfErr};
ghost use Rattle.std.specs.Arc.{arc_value};
ghost use Rattle.past_model.specs.declared.limits.TheConstants.{MOST_BATCHES, SERVED_EPOCHS};
ghost use Rattle.past_model.specs.Edits.{added, removed};
ghost use Rattle.past_model.specs.Past.{number_of, epoch_of, graph_of};
ghost use Rattle.workers.specs.declared.work_error.WorkError.TheVariants.{OutOfMemory};
ghost use Rattle.store.specs.Pending.{at_rest, and_waiting, entry_of, moment_after, IsNext, HasRoom, MayFollow, AreOwnersOf, IsPending, IsWaiting, IsGoneOn, IsRebasing};

use crate::board::Board;
use crate::pending::{Change, Pending, Stage};
use crate::receipt::Receipt;
use crate::recorded::{Owners, Recorded};
use history::Head;
use past_model::Entry;
use std::alloc::{AllocError, Global};
use std::marker::Model;
use std::sync::{Arc, Wait};
use std::thread::Threads;
use version::{Counts, Version};
use workers::{Crew, Gate, WorkError, Workers};

/// After a batch of so many edits or more, the version before it is dropped at once.
const LET_GO_EDITS: usize = 4_096;

/// Where versions are made and shown. It has to be ended by `close`.
pub struct Committer {
    pub(crate) alloc: Global,
    pub(crate) head: Head,
    pub(crate) current: Recorded,
    pub(crate) board: Board,
}

impl Model for Committer {
    ghost use Rattle.std.specs.Prelude.{◌≡◌};
    ghost use Rattle.store.specs.Pending.{Committing};

    ghost Value = { Committing };

    ghost view = { λ p. record { moment = p.current; waiting = p.board.waiting } };

    ghost invariant = { λ p. (p.head ≡ p.current.book) × (p.board.shown ≡ p.current) };
}

impl Committer {
    /// How many batches of its epoch the last version has.
    pub(crate) fn number(&self) -> u64
        ensures value { result ≡ number_of self.now.moment.past }
        ensures small { result ≤ MOST_BATCHES }
    {
        self.current.number()
    }

    /// How many epochs ended.
    pub(crate) fn epoch(&self) -> u64
        ensures value { result ≡ epoch_of self.now.moment.past }
        ensures small { result ≤ SERVED_EPOCHS }
    {
        self.current.epoch()
    }

    /// Makes the version after a batch with all its owners, and only then adds the batch to the history. After an error the history
    /// is as it was.
    pub(crate) fn begin<Ga: Gate, R: Threads + Wait>(
        &self,
        entry: &Entry,
        rt: &R,
        workers: Workers,
        gate: &Ga,
    ) -> Result<(Owners<Recorded>, Counts), WorkError>
        requires { IsNext self.now.moment entry.now }
        ensures owners { IfOk result (λ made. AreOwnersOf (moment_after self.now.moment (Some entry.now)) made.0) }
        ensures gained { IfOk result (λ made. made.1.added ≡ added entry.now.batch (graph_of self.now.moment.past)) }
        ensures lost { IfOk result (λ made. made.1.removed ≡ removed entry.now.batch (graph_of self.now.moment.past)) }
        ensures alone { workers.count ≡ 1 → IfErr result (λ e. e ≡ OutOfMemory) }
    {
        let crew = Crew { rt, workers, gate };
        let next = self.current.version().next(&crew, self.alloc, entry);
        let Crew {
            rt: _,
            workers: _,
            gate: _,
        } = crew;
        let (version, counts) = next?;
        Ok((self.record(version, Some(entry))?, counts))
    }

    // Makes the owners of the version after a batch, or after a rebase, and adds that to the history.
    fn record(
        &self,
        version: Version,
        added: Option<&Entry>,
    ) -> Result<Owners<Recorded>, AllocError>
        requires room { HasRoom self.now.moment.past (option_map (λ e. e.now) added) }
        requires version { version ≡ (moment_after self.now.moment (option_map (λ e. e.now) added)).past }
        ensures { IfOk result (AreOwnersOf (moment_after self.now.moment (option_map (λ e. e.now) added.entry))) }
    {
        let shares = Owners::of(version, self.alloc)?;
        // The history is never longer than what its only publisher knows.
        match self.current.record(&self.head, added, shares) {
            Some(owners) => Ok(owners),
            None => Err(AllocError),
        }
    }

    /// Goes on with a batch, from where it stopped; a rebase comes back as it is. The version before it goes by workers, where nobody
    /// else has it.
    pub(crate) fn publish<R: Threads + Wait>(
        &mut self,
        pending: Pending,
        rt: &R,
        workers: Workers,
    ) -> Result<Receipt, Pending>
        requires { IsPending self.old pending }
        ensures gone_on { IsGoneOn self.old pending.change result self.new }
        ensures batch { IfOk result (λ _. is_some pending.change ≡ true) }
    {
        if pending.change.is_none() {
            return Err(pending);
        }
        let before = self.current.share();
        let receipt = self.go_on(pending, rt)?;
        if let Ok(before) = before {
            before.let_go(rt, self.alloc, workers);
        }
        Ok(receipt)
    }

    /// Goes on with a rebase, from where it stopped, or else begins one: it makes the rebase of the last version with all its owners, and
    /// only then adds it to the history. A batch comes back as it is.
    pub(crate) fn rebase<R: Wait>(
        &mut self,
        pending: Option<Pending>,
        rt: &R,
    ) -> Result<Receipt, Option<Pending>>
        requires room { HasRoom self.old.moment.past None }
        requires waits { IsWaiting self.old pending }
        ensures { IsRebasing self.old pending result self.new }
    {
        match pending {
            None => match self.begin_rebase() {
                Ok(pending) => self.go_on(pending, rt).map_err(Some),
                Err(_) => Err(None),
            },
            Some(pending) => {
                // No refused allocation leads there: the version of a batch is made with all its owners before the history has it, and
                // the board has room for it.
                if pending.change.is_some() {
                    return Err(Some(pending));
                }
                self.go_on(pending, rt).map_err(Some)
            }
        }
    }

    // A new rebase.
    fn begin_rebase(&self) -> Result<Pending, AllocError>
        requires room { HasRoom self.now.moment.past None }
        requires rest { self.now ≡ at_rest self.now.moment }
        ensures { IfOk result (λ pending. (pending.change ≡ None) × IsPending self.now pending) }
    {
        let version = self.current.version().rebased(self.alloc)?;
        let stage = Stage::Added(self.record(version, None)?);
        Ok(Pending {
            change: None,
            stage,
        })
    }

    // Goes on with a publication, from where it stopped.
    fn go_on<R: Wait>(&mut self, pending: Pending, rt: &R) -> Result<Receipt, Pending>
        requires { IsPending self.old pending }
        ensures { IsGoneOn self.old pending.change result self.new }
    {
        let Pending { change, stage } = pending;
        match stage {
            Stage::Added(owners) => self.hand_in(change, owners, rt),
            Stage::Ready(kept, told) => self.show(change, kept, told, rt),
        }
    }

    // Hands the version in to be shown.
    fn hand_in<R: Wait>(
        &mut self,
        change: Option<Change>,
        owners: Owners<Recorded>,
        rt: &R,
    ) -> Result<Receipt, Pending>
        requires change { MayFollow self.old.moment change }
        requires owners { AreOwnersOf (moment_after self.old.moment (entry_of change)) owners }
        requires rest { self.old ≡ at_rest self.old.moment }
        ensures { IsGoneOn self.old change result self.new }
    {
        let Owners { shown, kept, told } = owners;
        match self.board.append(shown) {
            Ok(()) => self.show(change, kept, told, rt),
            Err(shown) => {
                let stage = Stage::Added(Owners { shown, kept, told });
                Err(Pending { change, stage })
            }
        }
    }

    // Shows it.
    fn show<R: Wait>(
        &mut self,
        change: Option<Change>,
        kept: Recorded,
        told: Recorded,
        rt: &R,
    ) -> Result<Receipt, Pending>
        requires change { MayFollow self.old.moment change }
        requires kept { kept ≡ moment_after self.old.moment (entry_of change) }
        requires told { told ≡ moment_after self.old.moment (entry_of change) }
        requires waits { self.old ≡ and_waiting self.old.moment (moment_after self.old.moment (entry_of change)) }
        ensures { IsGoneOn self.old change result self.new }
    {
        match self.board.show(rt) {
            Ok(()) => {
                self.current = kept;
                self.bring_up(&change, rt);
                Ok(Receipt::of(told, change))
            }
            Err(_) => {
                let stage = Stage::Ready(kept, told);
                Err(Pending { change, stage })
            }
        }
    }

    // After a rebase, and after a large batch, the board's other copy is brought up to the version that is shown, so that the one before
    // has no owner here.
    fn bring_up<R: Wait>(&mut self, change: &Option<Change>, rt: &R)
        requires { self.old ≡ at_rest self.old.moment }
        ensures { self.new ≡ self.old }
    {
        let is_large = match change {
            None => true,
            Some(change) => change.entry.batch.edits().len() >= LET_GO_EDITS,
        };
        if is_large {
            let _ = self.board.show(rt);
        }
    }

    /// Ends it: the last version. Readers are answered from then on that the store is closed.
    pub(crate) fn close<R: Wait>(self, rt: &R) -> Arc<Version>
        ensures { arc_value result ≡ self.moment.past }
    {
        let Committer {
            alloc: _,
            head: _,
            current,
            board,
        } = self;
        board.close(rt);
        current.into_version()
    }
}
