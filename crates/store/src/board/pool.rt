//! The pool of readers that nobody has.
use crate::board::member::Member;
use crate::board::rule::Inner;
use crossbeam_queue::protocol::{Outcome, Protocol, Split};
use crossbeam_queue::{Pass, RuledArrayQueue};

/// All readers are of one store, and each pass knows which.
pub(crate) struct OneStore;

impl Protocol<Inner, Member> for OneStore {
    ghost use Rattle.std.specs.Prelude.{map};
    ghost use Rattle.left_right.specs.Sides.{view as board_view_of};
    ghost use Rattle.store.specs.Pool.{Pools, maker};

    ghost holds = { λ readers views. Pools (map (λ r. board_view_of r.place) readers) views };

    ghost first = { maker };
}

/// The first reader is put in, and says which store it is.
pub(crate) struct Seed;

impl Outcome<Inner, Member> for Seed {
    ghost use Rattle.std.specs.Prelude.{◌≡◌};
    ghost use Rattle.left_right.specs.Sides.{view as board_view_of};
    ghost use Rattle.store.specs.Pool.{member};

    ghost then = { λ v r w. w ≡ member (board_view_of r.place).version };
}

/// A reader is put in.
pub(crate) struct Back;

impl Outcome<Inner, Member> for Back {
    ghost use Rattle.std.specs.Prelude.{◌≡◌};

    ghost then = { λ v r w. w ≡ v };
}

/// A reader is taken out.
pub(crate) struct Lend;

impl Outcome<Inner, Member> for Lend {
    ghost use Rattle.std.specs.Prelude.{◌≡◌};
    ghost use Rattle.left_right.specs.Sides.{view as board_view_of};
    ghost use Rattle.store.specs.BoardViews.{Knows};

    ghost then = { λ v r w. (w ≡ v) × Knows v.of (board_view_of r.place) };
}

/// Another pass.
pub(crate) struct Twin;

impl Split<Member> for Twin {
    ghost left = { λ v. v };

    ghost right = { λ v. v };
}

/// Readers that wait to be lent.
pub(crate) type Pool = RuledArrayQueue<Inner, Member, OneStore>;

/// One who shares the pool.
pub(crate) type Membership = Pass<Inner, Member>;
