//! What workers are to do together.
ghost use Rattle.std.specs.Prelude.{◌≡◌, ◌+◌, ◌<◌, ◌≤◌, [], length};
ghost use Rattle.past_model.specs.declared.limits.TheConstants.{MOST_VERTICES};
ghost use Rattle.map_model.specs.declared.limits.TheConstants.{EDGE_BYTES};

use claims::{Claimant, Counter};
use edge_fold::Rows;
use map_model::Reduction;
use verifier::Verified;
use version::Version;

/// A map, and the counter of which its pieces are claimed.
#[derive(Clone, Copy)]
pub(crate) struct Plan<'a> {
    pub version: &'a Version,
    pub program: &'a Verified,
    pub argument: &'a [u8],
    pub frontier: &'a [u32],
    pub reduction: Reduction,
    pub rows: Rows,
    pub counter: &'a Counter,
    ghost argued: { length argument.now + EDGE_BYTES ≡ program.now.record_length },
    ghost few: { length frontier.now ≤ MOST_VERTICES },
}

/// A worker who has claimed nothing yet, and how many threads are started besides. Each gets a part of the worker's claim.
#[derive(Drop)]
pub(crate) struct Team {
    pub me: Claimant,
    pub more: u8,
    ghost parts: { more < me.parts },
    ghost fresh: { me.claimed ≡ [] },
}
