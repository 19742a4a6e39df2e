//! A range of a graph after edits, as a worker makes it.
ghost use Rattle.std.specs.Prelude.{◌≡◌, IfOk};
ghost use Rattle.std.specs.Arc.{arc_value};
ghost use Rattle.shards.specs.Edited.{IsMadeOf, IsEdited};
ghost use Rattle.shards.specs.Part.{AreEditsOf};

use crate::counts::Counts;
use crate::scratch::Scratch;
use crate::shard::Shard;
use past_model::Edit;
use std::alloc::{AllocError, Global};
use std::sync::Arc;

/// A shard to which edits were applied, and what they did. Its type keeps that it is an earlier shard after edits.
pub struct EditedShard {
    /// The shard after the edits.
    pub shard: Arc<Shard>,
    /// What they did.
    pub counts: Counts,
    ghost edited: { ∥ IsEdited (arc_value shard) counts ∥₁ },
}

impl Drop for EditedShard {
    // Written out, so that crates above prove a call here, and not the drop of each part.
    fn drop(self) {
        let EditedShard {
            shard: _shard,
            counts: _counts,
        } = self;
    }
}

impl EditedShard {
    /// A shard after a list of edits of its vertices, to vertices that a graph may have, made in space that is lent. The shard
    /// stays.
    pub fn of(
        alloc: Global,
        shard: &Shard,
        edits: &[Edit],
        scratch: &mut Scratch,
    ) -> Result<EditedShard, AllocError>
        requires { AreEditsOf shard.now edits.now }
        ensures { IfOk result (λ made. IsMadeOf shard.now edits.now (arc_value made.shard) made.counts) }
    {
        let (next, counts) = shard.apply_in(alloc, edits, scratch)?;
        let shard = Arc::new(alloc, next)?;
        Ok(EditedShard { shard, counts })
    }

    /// The number of its range.
    pub fn range(&self) -> u32
        ensures { result ≡ (arc_value self.now.shard).range }
    {
        self.shard.range()
    }
}
