//! A version with the history's word that it was published.
ghost use Rattle.std.specs.Prelude.{◌≡◌, ◌<◌, ◌≤◌, option_map, IfOk, IfSome};
ghost use Rattle.std.specs.Arc.{arc_value};
ghost use Rattle.past_model.specs.declared.limits.TheConstants.{MOST_BATCHES, SERVED_EPOCHS};
ghost use Rattle.past_model.specs.Past.{number_of, epoch_of};
ghost use Rattle.history.specs.declared.limits.TheConstants.{MOST_PUBLICATIONS};
ghost use Rattle.history.specs.Moment.{moment_of, count_of, and_then};
ghost use Rattle.store.specs.Recorded.{moment_in, AreFew, AreSharesOf};
ghost use Rattle.store.specs.Pending.{published_of, moment_after, HasRoom, AreOwnersOf};

use history::{Head, Known};
use past_model::Entry;
use std::alloc::{AllocError, Global};
use std::marker::Model;
use std::sync::{Arc, Wait};
use std::thread::Threads;
use version::Version;
use workers::Workers;

/// A version, and the history's word that it was published. Contracts see it as its moment.
#[derive(Drop)]
pub struct Recorded {
    version: Arc<Version>,
    known: Known,
    // How many publications led to it.
    count: u64,
}

impl Model for Recorded {
    ghost use Rattle.std.specs.Prelude.{◌≡◌};
    ghost use Rattle.std.specs.Arc.{arc_value};
    ghost use Rattle.history.specs.Moment.{Moment, moment_of, count_of};
    ghost use Rattle.store.specs.Recorded.{moment_in, AreFew};

    ghost Value = { Moment };

    ghost view = { λ r. moment_in (arc_value r.version) r.known };

    ghost invariant = { λ r. (moment_of (arc_value r.version).vertex_count r.known
        ≡ moment_in (arc_value r.version) r.known)
        × (r.count ≡ count_of r.known) × AreFew (arc_value r.version) r.count };
}

/// The owners of one version: for the board, for the publisher and for the receipt.
#[derive(Drop)]
pub struct Owners<T> {
    pub shown: T,
    pub kept: T,
    pub told: T,
}

impl Owners<Arc<Version>> {
    /// The owners of a version that the history does not have.
    pub(crate) fn of(version: Version, alloc: Global) -> Result<Owners<Arc<Version>>, AllocError>
        ensures { IfOk result (AreSharesOf version) }
    {
        let shown = Arc::new(alloc, version)?;
        Ok(Owners {
            kept: Arc::try_clone(&shown)?,
            told: Arc::try_clone(&shown)?,
            shown,
        })
    }

    // The same, with the history's word for the version, to which so many publications led.
    fn recorded(self, known: Known, count: u64) -> Owners<Recorded>
        requires known { moment_of (arc_value self.shown).vertex_count known ≡ moment_in (arc_value self.shown) known }
        requires count { count ≡ count_of known }
        requires few { AreFew (arc_value self.shown) count }
        requires shares { AreSharesOf (arc_value self.shown) self }
        ensures { AreOwnersOf (moment_in (arc_value self.shown) known) result }
    {
        Owners {
            shown: Recorded::of(self.shown, known.again(), count),
            kept: Recorded::of(self.kept, known.again(), count),
            told: Recorded::of(self.told, known, count),
        }
    }
}

impl Recorded {
    /// This version, with the history's word for it, to which so many publications led.
    pub(crate) fn of(version: Arc<Version>, known: Known, count: u64) -> Recorded
        requires known { moment_of (arc_value version).vertex_count known ≡ moment_in (arc_value version) known }
        requires count { count ≡ count_of known }
        requires few { AreFew (arc_value version) count }
        ensures { result ≡ moment_in (arc_value version) known }
    {
        Recorded {
            version,
            known,
            count,
        }
    }

    /// The version.
    pub(crate) fn version(&self) -> &Version
        ensures { result.now ≡ self.now.past }
    {
        &self.version
    }

    /// The version's owner.
    pub(crate) fn into_version(self) -> Arc<Version>
        ensures { arc_value result ≡ self.past }
    {
        let Recorded {
            version,
            known: _,
            count: _,
        } = self;
        version
    }

    /// How many vertices it has.
    pub(crate) fn vertex_count(&self) -> u32
        ensures { result ≡ self.now.past.vertex_count }
    {
        self.version.vertex_count()
    }

    /// How many batches of its epoch were published before it and with it.
    pub(crate) fn number(&self) -> u64
        ensures value { result ≡ number_of self.now.past }
        ensures small { result ≤ MOST_BATCHES }
    {
        self.version.number()
    }

    /// How many epochs ended before it.
    pub(crate) fn epoch(&self) -> u64
        ensures value { result ≡ epoch_of self.now.past }
        ensures small { result ≤ SERVED_EPOCHS }
    {
        self.version.epoch()
    }

    /// The history's word, and how many publications it is of.
    pub(crate) fn known(&self) -> (Known, u64)
        ensures known { moment_of self.now.past.vertex_count result.0 ≡ self.now }
        ensures count { result.1 ≡ count_of result.0 }
    {
        (self.known.again(), self.count)
    }

    /// Another owner of the same version.
    pub(crate) fn share(&self) -> Result<Recorded, AllocError>
        ensures { IfOk result (λ other. other ≡ self.now) }
    {
        Ok(Recorded {
            version: Arc::try_clone(&self.version)?,
            known: self.known.again(),
            count: self.count,
        })
    }

    /// Drops this owner; by workers, if it is the last.
    pub(crate) fn let_go<R: Threads + Wait>(self, rt: &R, alloc: Global, workers: Workers) {
        if let Some(version) = Arc::into_inner(self.into_version()) {
            version.let_go(rt, alloc, workers);
        }
    }

    /// Adds a batch to the history, or without one a rebase, whose version these are the owners of. `None`, and the history is as
    /// it was, where it is longer than what led to this version.
    pub(crate) fn record(
        &self,
        head: &Head,
        added: Option<&Entry>,
        shares: Owners<Arc<Version>>,
    ) -> Option<Owners<Recorded>>
        requires book { head.now ≡ self.now.book }
        requires room { HasRoom self.now.past (option_map (λ e. e.now) added) }
        requires shares { AreSharesOf (moment_after self.now (option_map (λ e. e.now) added)).past shares }
        ensures { IfSome result (AreOwnersOf (moment_after self.now (option_map (λ e. e.now) added.entry))) }
    {
        let known = next_word(head, &self.known, self.count, added)?;
        let count = self.count + 1;
        Some(shares.recorded(known, count))
    }
}

// The history's word that it has a batch more, or without one a rebase.
fn next_word(head: &Head, known: &Known, count: u64, added: Option<&Entry>) -> Option<Known>
    requires book { known.now.book ≡ head.now }
    requires count { count ≡ count_of known.now }
    requires room { count < MOST_PUBLICATIONS }
    ensures { IfSome result (λ next. next ≡ and_then known.now (published_of (option_map (λ e. e.now) added.entry))) }
{
    match added {
        Some(entry) => head.add(known, count, entry),
        None => head.rebase(known, count),
    }
}
