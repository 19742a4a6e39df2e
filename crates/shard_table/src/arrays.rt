//! The shards of a graph whose edges are sorted already.
ghost use Rattle.std.specs.Prelude.{◌≡◌, ◌+◌, ◌≤◌, length, IfOk};
ghost use Rattle.past_model.specs.declared.limits.TheConstants.{MOST_VERTICES};
ghost use Rattle.shards.specs.Arrays.{AreLists};
ghost use Rattle.shard_table.specs.Arrays.{ArePartsOf};
ghost use Rattle.shard_table.specs.Table.{parts_of};

use past_model::RANGE_VERTICES;
use shards::{Scratch, Shard, SortedLists};
use std::alloc::{AllocError, Global};
use std::sync::Arc;

/// The shards of a graph whose vertices have these lists, one for each range. Each list is in the home to which its
/// degree leads from a block.
pub(crate) fn shards_of_lists(
    alloc: Global,
    vertex_count: u32,
    lists: SortedLists<'_>,
) -> Result<Vec<Arc<Shard>>, AllocError>
    requires some { 1 ≤ vertex_count }
    requires most { vertex_count ≤ MOST_VERTICES }
    requires count { length lists.starts.now ≡ vertex_count + 1 }
    requires lists { AreLists lists.starts.now lists.targets.now }
    ensures { IfOk result (λ shards.
        ArePartsOf lists.entry.starts.now lists.entry.targets.now vertex_count (parts_of shards.items)) }
{
    let count = (vertex_count - 1) / RANGE_VERTICES + 1;
    let mut scratch = Scratch::new(alloc);
    let mut shards = Vec::with_capacity(alloc, count as usize)?;
    for range in 0..count {
        let left = vertex_count - RANGE_VERTICES * range;
        let vertices = left.min(RANGE_VERTICES) as u16;
        let shard = Shard::of_lists(alloc, range, vertices, lists, &mut scratch)?;
        shards.push(Arc::new(alloc, shard)?)?;
    }
    Ok(shards)
}
