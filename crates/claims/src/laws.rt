//! What claimants know, at the first claims. Each function only makes public calls, and is proved from their contracts
//! alone.
ghost use Rattle.std.specs.Prelude.{◌≡◌, ◌≤◌, [], ◌∷◌, IfOk};
ghost use Rattle.claims.specs.Claims.{AreAllBelow};

use crate::counter::Counter;
use std::alloc::{AllocError, Global};

/// Nothing is claimed of a new counter.
pub fn nothing_is_claimed_at_first(alloc: Global) -> Result<u64, AllocError>
    ensures { IfOk result (λ count. count ≡ 0) }
{
    let (counter, mut claimant) = Counter::new(alloc)?;
    Ok(counter.count(&mut claimant))
}

/// Two claimants that claim one number each have claimed all below the count, each once, and no other.
pub fn two_claim_all(alloc: Global) -> Result<(u64, u64, u64), AllocError>
    ensures { IfOk result (λ made. AreAllBelow made.2 (made.0 ∷ made.1 ∷ [])) }
{
    let (counter, mut claimant) = Counter::new(alloc)?;
    let mut other = counter.another(&mut claimant);
    let first = counter.claim(&mut claimant);
    let second = counter.claim(&mut other);
    counter.join(&mut claimant, other);
    let count = counter.count(&mut claimant);
    Ok((first, second, count))
}

/// The second number of a claimant is not 0.
pub fn second_claim_is_not_zero(alloc: Global) -> Result<u64, AllocError>
    ensures { IfOk result (λ second. 1 ≤ second) }
{
    let (counter, mut claimant) = Counter::new(alloc)?;
    counter.claim(&mut claimant);
    Ok(counter.claim(&mut claimant))
}
