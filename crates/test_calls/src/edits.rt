//! Batches of edits, for tests.
ghost use Rattle.std.specs.Prelude.{◌≡◌, IfOk};

use past_model::{Batch, Edit};
use std::alloc::{AllocError, Global};

/// The batch of these edits.
pub(crate) fn batch_of(alloc: Global, edits: &[Edit]) -> Result<Batch, AllocError>
    ensures { IfOk result (λ batch. batch ≡ edits.now) }
{
    Batch::new(alloc, Vec::from_slice(alloc, edits)?)
}
