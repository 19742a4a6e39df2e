//! Who claims.
use crate::hand::Hand;
use atomic_table::Seat;
use std::marker::Model;

/// One that claims numbers of a counter, in a thread of its own. It has no bytes. Contracts see it as a `Claiming`.
#[derive(Drop)]
pub struct Claimant {
    pub(crate) seat: Seat<u8, Hand>,
}

impl Model for Claimant {
    ghost use Rattle.std.specs.Prelude.{◌≡◌, []};
    ghost use Rattle.claims.specs.Claims.{Claiming, claiming};

    ghost Value = { Claiming };

    ghost view = { λ c. claiming c.seat.table_id c.seat.me.0.parts c.seat.me.0.claimed };

    ghost invariant = { λ c. c.seat.me.1 ≡ [] };
}
