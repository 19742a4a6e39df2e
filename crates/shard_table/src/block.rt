//! Shards of neighbouring ranges, after one owner.
ghost use Rattle.std.specs.Prelude.{◌≡◌, ◌+◌, ◌^◌, ◌<◌, ◌≤◌, length, IfOk};
ghost use Rattle.past_model.specs.declared.limits.TheConstants.{MOST_RANGES};
ghost use Rattle.graph_model.specs.Graph.{Graph};
ghost use Rattle.past_model.specs.Edits.{AreEditsBelow};
ghost use Rattle.shards.specs.declared.groups.Grouping.TheVariants.{ByRange};
ghost use Rattle.shard_table.specs.Blocks.{ArePartsFrom, AreEditable, AreEdited, AreHoused, AreRehoused};
ghost use Rattle.shards.specs.Groups.{filled_below};
ghost use Rattle.shard_table.specs.Made.{AreMade};
ghost use Rattle.shard_table.specs.Table.{parts_of};

use shards::{Counts, EditedShard, Groups, Shard};
use std::alloc::{AllocError, Global};
use std::marker::Model;
use std::sync::Arc;

/// The shards of ranges one after another.
#[derive(Drop)]
pub(crate) struct Block {
    shards: Vec<Arc<Shard>>,
}

impl Model for Block {
    ghost use Rattle.std.specs.Prelude.{List};
    ghost use Rattle.shards.specs.Part.{Part};
    ghost use Rattle.shard_table.specs.Table.{parts_of};

    ghost Value = { List Part };

    ghost view = { λ b. parts_of b.shards.items };
}

/// Edited shards, in the order of their ranges, and the edits of their batch by ranges.
#[derive(Clone, Copy)]
pub(crate) struct EditedShards<'a> {
    pub groups: &'a Groups<'a>,
    pub made: &'a [&'a EditedShard],
}

impl Block {
    /// These shards.
    pub(crate) fn of(shards: Vec<Arc<Shard>>) -> Block
        ensures { result ≡ parts_of shards.items }
    {
        Block { shards }
    }

    /// The shards, in order.
    pub(crate) fn shards(&self) -> &[Arc<Shard>]
        ensures { parts_of result.now ≡ self.now }
    {
        &self.shards
    }

    /// The shards, in order, which are no block any more.
    pub(crate) fn into_shards(self) -> Vec<Arc<Shard>>
        ensures { parts_of result.items ≡ self }
    {
        self.shards
    }

    /// The block with edited shards put in, where its first shard is of this range, and what the edits did to its
    /// shards. A shard that no edit is of is shared. `next` counts the edited shards that were put in.
    // A function of its own: as part of the long function that makes a version each shard takes half as much again.
    #[inline(never)]
    pub(crate) fn with(
        &self,
        alloc: Global,
        first: usize,
        batch: EditedShards<'_>,
        next: &mut usize,
    ) -> Result<(Block, Counts), AllocError>
        requires ranges { batch.groups.now.grouping ≡ ByRange }
        requires within { first + length self.now ≤ batch.groups.now.count }
        requires fits { batch.groups.now.count < 2 ^ 64 }
        requires editable { AreEditable first self.now batch.groups.now.edits }
        requires next { next.old ≡ length (filled_below batch.groups.now first) }
        requires made { AreMade batch.groups.now first self.now batch.made.now }
        requires few { length batch.made.now ≤ MOST_RANGES }
        ensures edited { IfOk result (λ new. (g : Graph) → AreEditsBelow g.vertex_count batch.entry.groups.now.edits
            → ArePartsFrom g first self.now → AreEdited batch.entry.groups.now.edits g first new.0 new.1) }
        ensures same { IfOk result (λ new. length new.0 ≡ length self.now) }
        ensures homes { IfOk result (λ new. AreHoused self.now → AreRehoused self.now new.0) }
        ensures next { IfOk result (λ _.
            next.new ≡ length (filled_below batch.entry.groups.now (first + length self.now))) }
    {
        let EditedShards { groups, made } = batch;
        let mut shards = Vec::with_capacity(alloc, self.shards.len())?;
        let mut counts = Counts::NONE;
        let end = first + self.shards.len();
        let mut filled = groups.next_filled(first, end);
        for (place, shard) in self.shards.iter().enumerate() {
            if first + place < filled {
                shards.push(Arc::try_clone(shard)?)?;
                continue;
            }
            let edited: &EditedShard = made[*next];
            shards.push(Arc::try_clone(&edited.shard)?)?;
            counts = counts.plus(edited.counts);
            *next += 1;
            filled = groups.next_filled(filled + 1, end);
        }
        let block = Block { shards };
        Ok((block, counts))
    }
}
