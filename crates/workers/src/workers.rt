//! How many threads work.
ghost use Rattle.std.specs.Prelude.{◌≡◌, ◌<◌, ◌≤◌, ◌⊎◌, IfSome, IfNone};
ghost use Rattle.workers.specs.declared.limits.TheConstants.{MOST_WORKERS};

use crate::limits::MOST_WORKERS;

/// How many threads work, from 1 to 16. One worker is the caller's own thread. Of several that make a run one is, too;
/// several that apply a batch are all new threads, and the caller waits.
#[derive(Clone, Copy, Debug)]
pub struct Workers {
    count: u8,
    ghost some: { 0 < count },
    ghost most: { count ≤ MOST_WORKERS },
}

impl Workers {
    /// So many workers; none at 0 and above 16.
    pub fn new(n: u8) -> Option<Workers>
        ensures some { IfSome result (λ workers. workers.count ≡ n) }
        ensures none { IfNone result ((n ≡ 0) ⊎ (MOST_WORKERS < n)) }
    {
        if n == 0 || n > MOST_WORKERS {
            return None;
        }
        Some(Workers { count: n })
    }

    /// The caller's thread alone.
    pub fn one() -> Workers
        ensures { result.count ≡ 1 }
    {
        Workers { count: 1 }
    }

    /// How many.
    #[inline(always)]
    pub fn count(self) -> u8
        ensures value { result ≡ self.count }
        ensures some { 0 < result }
        ensures most { result ≤ MOST_WORKERS }
    {
        self.count
    }
}
