//! How many workers there may be, at the limits. Each function only makes public calls, and is proved from their
//! contracts alone.
ghost use Rattle.std.specs.Prelude.{◌≡◌, true};

use crate::limits::MOST_WORKERS;
use crate::workers::Workers;

/// One worker is one.
pub fn one_is_one() -> u8
    ensures { result ≡ 1 }
{
    Workers::one().count()
}

/// Sixteen workers are allowed, and are sixteen.
pub fn sixteen_are_sixteen() -> u8
    ensures { result ≡ 16 }
{
    match Workers::new(MOST_WORKERS) {
        Some(workers) => workers.count(),
        None => 0,
    }
}

/// Zero workers and seventeen are refused.
pub fn zero_and_seventeen_are_refused() -> bool
    ensures { result ≡ true }
{
    match (Workers::new(0), Workers::new(MOST_WORKERS + 1)) {
        (None, None) => true,
        _ => false,
    }
}
