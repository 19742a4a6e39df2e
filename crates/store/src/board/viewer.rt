//! A reader's side: pins, lessons, and readers beside it.
ghost use Rattle.std.specs.Prelude.{◌≡◌, ◌⊎◌, false, IfOk, IfErr};
ghost use Rattle.left_right.specs.Sides.{view as board_view_of};
ghost use Rattle.crossbeam_queue.specs.Passes.{view as member_of, IsPassOf};
ghost use Rattle.history.specs.Moment.{OneStore, Begins};
ghost use Rattle.store.specs.BoardViews.{Knows};

use crate::board::errors::{NoPlace, PinError};
use crate::board::pool::{Back, Lend, Membership, Pool, Twin};
use crate::board::rule::{Inner, Look};
use crate::recorded::Recorded;
use history::{Known, compare};
use std::marker::Model;
use std::sync::Arc;
use std::thread;

/// How often a reader that is dropped tries to give its place back. Others may be in its way for moments, unless the system
/// keeps one of them from running just then.
const MOST_TRIES: u32 = 1_000_000;

/// A reader's side of the board. Contracts see it as the moment that it saw last.
pub(crate) struct Viewer {
    pub(super) vertex_count: u32,
    // How many publications it knows of.
    pub(super) count: u64,
    pub(super) known: Known,
    // It is there, but while a version is pinned.
    pub(super) inner: Option<Inner>,
    pub(super) pool: Arc<Pool>,
    pub(super) membership: Membership,
}

impl Model for Viewer {
    ghost use Rattle.std.specs.Prelude.{◌≡◌, IfSome};
    ghost use Rattle.std.specs.Arc.{arc_value};
    ghost use Rattle.left_right.specs.Sides.{view as board_view_of};
    ghost use Rattle.crossbeam_queue.specs.Passes.{view as member_of, IsPassOf};
    ghost use Rattle.history.specs.Moment.{Moment, moment_of, count_of};
    ghost use Rattle.store.specs.BoardViews.{Knows};
    ghost use Rattle.store.specs.Pool.{IsMember};

    ghost Value = { Moment };

    ghost view = { λ r. moment_of r.vertex_count r.known };

    ghost invariant = { λ r. (r.count ≡ count_of r.known)
        × IfSome r.inner (λ inner. Knows (moment_of r.vertex_count r.known) (board_view_of inner.place))
        × IsPassOf (arc_value r.pool) r.membership
        × IsMember (moment_of r.vertex_count r.known) (member_of r.membership) };
}

impl Viewer {
    /// The version that is shown at a moment of this call. It continues what this reader saw. Nobody is waited for.
    pub(crate) fn pin(&mut self) -> Result<Recorded, PinError>
        ensures begins { IfOk result (λ version. Begins self.old version) }
        ensures seen { IfOk result (λ version. self.new ≡ version) }
        ensures failed { IfErr result (λ _. self.new ≡ self.old) }
    {
        let version = self.look()?;
        let (known, count) = version.known();
        compare(&self.known, &known);
        // The history's tokens decide which of the two is later: the version never is the earlier one.
        if count < self.count {
            return Err(PinError::NoShare);
        }
        self.count = count;
        self.known = known;
        Ok(version)
    }

    // A version of this reader's store.
    fn look(&mut self) -> Result<Recorded, PinError>
        ensures same { self.new ≡ self.old }
        ensures store { IfOk result (λ version. OneStore self.old version) }
    {
        let Some(inner) = self.inner.take() else {
            return Err(PinError::Closed);
        };
        match inner.enter_as::<Look>() {
            Ok(reading) => {
                let version = reading.get().version.share();
                self.inner = Some(reading.leave());
                version.map_err(|_| PinError::NoShare)
            }
            Err(inner) => {
                self.inner = Some(inner);
                Err(PinError::Closed)
            }
        }
    }

    /// Learns that a version is there: from now on, what is pinned continues it.
    pub(crate) fn learn(&mut self, version: &Recorded)
        requires { OneStore self.old version.now }
        ensures one { (self.new ≡ self.old) ⊎ (self.new ≡ version.now) }
        ensures this { Begins self.old self.new }
        ensures that { Begins version.now self.new }
    {
        let (known, count) = version.known();
        compare(&known, &self.known);
        if count > self.count {
            self.count = count;
            self.known = known;
        }
    }

    /// Another reader, which has seen as much. It can go to another thread.
    pub(crate) fn another(&mut self) -> Result<Viewer, NoPlace>
        ensures other { IfOk result (λ other. other ≡ self.old) }
        ensures same { self.new ≡ self.old }
    {
        let pool = Arc::try_clone(&self.pool).map_err(|_| NoPlace)?;
        let Some(inner) = pool.try_pop_as::<Lend>(&mut self.membership) else {
            return Err(NoPlace);
        };
        let membership = pool.another::<Twin>(&mut self.membership);
        Ok(Viewer {
            vertex_count: self.vertex_count,
            count: self.count,
            known: self.known.again(),
            inner: Some(inner),
            pool,
            membership,
        })
    }
}

// Gives a reader back. The pool has room for all, so a try fails only where another thread is in the way.
fn give_back(pool: &Pool, membership: &mut Membership, reader: Inner)
    requires pass { IsPassOf pool.now membership.old }
    requires shared { (member_of membership.old).sole ≡ false }
    requires knows { Knows (member_of membership.old).of (board_view_of reader.place) }
{
    let mut reader = reader;
    'tries: for _ in 0..MOST_TRIES {
        match pool.try_push_as::<Back>(membership, reader) {
            Ok(()) => return,
            Err(back) => reader = back,
        }
        thread::yield_now();
    }
}

impl Drop for Viewer {
    // Its place is free again.
    fn drop(self) {
        let Viewer {
            vertex_count: _,
            count: _,
            known: _,
            inner,
            pool,
            mut membership,
        } = self;
        if let Some(reader) = inner {
            give_back(&pool, &mut membership, reader);
        }
    }
}
