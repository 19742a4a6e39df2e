//! The rule of the counter, as its calls name it.
use crate::hand::Hand;
use atomic_table::{Join, Play, Split, TableRule};

/// The numbers below the counter were claimed, each once.
pub struct EachOnce;

impl TableRule<u8, Hand, ()> for EachOnce {
    ghost use Rattle.std.specs.Prelude.{[]};
    ghost use Rattle.claims.specs.declared.limits.TheConstants.{PARTS};
    ghost use Rattle.claims.specs.Rule.{hand, AreClaimed};

    ghost holds = { λ _ s. AreClaimed s.words s.views };

    ghost first = { λ _. hand PARTS [] };
}

/// A number is claimed.
pub struct Claim;

impl Play<u8, Hand> for Claim {
    ghost use Rattle.std.specs.Prelude.{◌≡◌};
    ghost use Rattle.claims.specs.Rule.{Claims};

    ghost then = { λ _ before number after. Claims before.0 number after.0 × (after.1 ≡ before.1) };
}

/// The counter is read.
pub struct Count;

impl Play<u8, Hand> for Count {
    ghost use Rattle.std.specs.Prelude.{◌≡◌};
    ghost use Rattle.claims.specs.Rule.{Counts};

    ghost then = { λ _ before count after. Counts before.0 count after.0 × (after.1 ≡ before.1) };
}

/// One part for another claimant, who has claimed nothing; or all parts and claims of two for one of them.
pub struct OnePart;

impl Split<Hand> for OnePart {
    ghost use Rattle.std.specs.Prelude.{◌-◌, []};
    ghost use Rattle.claims.specs.Rule.{hand};

    ghost left = { λ h. hand (h.parts - 1) h.claimed };

    ghost right = { λ _. hand 1 [] };
}

impl Join<Hand> for OnePart {
    ghost use Rattle.std.specs.Prelude.{◌+◌, ◌++◌, []};
    ghost use Rattle.claims.specs.Rule.{hand};

    ghost both = { λ h other. hand (h.parts + other.parts) (h.claimed ++ other.claimed) };

    ghost spent = { hand 0 [] };
}
