//! The counter, and what is done with it.
ghost use Rattle.std.specs.Prelude.{◌≡◌, ◌+◌, ◌-◌, ◌*◌, ◌<◌, ◌≤◌, [], ◌∷◌, ◌++◌, length, IfOk};
ghost use Rattle.claims.specs.declared.limits.TheConstants.{PARTS, CLAIMS_OF_A_PART};
ghost use Rattle.claims.specs.Claims.{claiming, AreAllBelow};

use crate::claimant::Claimant;
use crate::hand::Hand;
use crate::rule::{Claim, Count, EachOnce, OnePart};
use atomic_table::Table;
use std::alloc::{AllocError, Global};
use std::marker::Model;

/// A counter of which several threads claim numbers, ascending from 0. Contracts see which it is.
#[derive(Drop)]
pub struct Counter {
    table: Table<u8, Hand, (), EachOnce, Global>,
}

impl Model for Counter {
    ghost use Rattle.std.specs.Prelude.{◌≡◌};
    ghost use Rattle.atomic_table.specs.Seated.{TableId};

    ghost Value = { TableId };

    ghost view = { λ c. c.table.shared.table_id };

    ghost invariant = { λ c. c.table.shared.table_id.words ≡ 1 };
}

impl Counter {
    /// A counter of which nothing was claimed, and a claimant with all of its parts.
    pub fn new(alloc: Global) -> Result<(Counter, Claimant), AllocError>
        ensures { IfOk result (λ made. made.1 ≡ claiming made.0 PARTS []) }
    {
        let (table, seat) = Table::of_words(alloc, &[0], &())?;
        Ok((Counter { table }, Claimant { seat }))
    }

    /// The next number, which nobody else claims. It is one step, for which nobody is waited for. What a claimant claims
    /// ascends, so that its number `k`, from 0, is `k` at least.
    pub fn claim(&self, claimant: &mut Claimant) -> u64
        requires of { claimant.old.counter ≡ self.now }
        requires room { length claimant.old.claimed < claimant.old.parts * CLAIMS_OF_A_PART }
        ensures claim { claimant.new
            ≡ claiming claimant.old.counter claimant.old.parts (claimant.old.claimed ++ result ∷ []) }
        ensures least { length claimant.old.claimed ≤ result }
    {
        self.table
            .shared
            .fetch_add::<Claim>(&mut claimant.seat, 0, 1)
    }

    /// Another claimant, with one part of this one, which has to have one more and to have claimed nothing.
    pub fn another(&self, claimant: &mut Claimant) -> Claimant
        requires of { claimant.old.counter ≡ self.now }
        requires parts { 1 < claimant.old.parts }
        requires fresh { claimant.old.claimed ≡ [] }
        ensures rest { claimant.new ≡ claiming claimant.old.counter (claimant.old.parts - 1) [] }
        ensures part { result ≡ claiming claimant.old.counter 1 [] }
    {
        Claimant {
            seat: self.table.shared.split_seat::<OnePart>(&mut claimant.seat),
        }
    }

    /// Makes one claimant of two: the first has the parts and the claims of both.
    pub fn join(&self, claimant: &mut Claimant, other: Claimant)
        requires of { claimant.old.counter ≡ self.now }
        requires other_of { other.counter ≡ self.now }
        ensures { claimant.new ≡ claiming claimant.old.counter (claimant.old.parts + other.parts)
            (claimant.old.claimed ++ other.claimed) }
    {
        let Claimant { seat } = other;
        self.table
            .shared
            .join_seat::<OnePart>(&mut claimant.seat, seat);
    }

    /// How many numbers were claimed, which the only claimant asks: it has claimed all below, each once, and no other.
    pub fn count(&self, claimant: &mut Claimant) -> u64
        requires of { claimant.old.counter ≡ self.now }
        requires all { claimant.old.parts ≡ PARTS }
        ensures same { claimant.new ≡ claimant.old }
        ensures each { AreAllBelow result claimant.old.claimed }
    {
        self.table.shared.load::<Count>(&mut claimant.seat, 0)
    }
}
