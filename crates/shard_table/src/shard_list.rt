//! Shards with owners, in one list.
ghost use Rattle.std.specs.Prelude.{◌≡◌, ◌≤◌, IfOk};
ghost use Rattle.past_model.specs.declared.limits.TheConstants.{MOST_VERTICES};
ghost use Rattle.graph_model.specs.Graph.{Graph, empty_graph};
ghost use Rattle.shard_table.specs.Blocks.{AreInBlocks};
ghost use Rattle.shard_table.specs.Table.{IsTable, IsShardOf, parts_of};

use past_model::RANGE_VERTICES;
use shards::Shard;
use std::alloc::{AllocError, Global};
use std::sync::Arc;

/// The shards of a graph of so many vertices without an edge, one for each range. Each list is in its block.
pub fn empty_shards(alloc: Global, vertex_count: u32) -> Result<Vec<Arc<Shard>>, AllocError>
    requires some { 1 ≤ vertex_count }
    requires most { vertex_count ≤ MOST_VERTICES }
    ensures table { IfOk result (λ shards. IsTable (empty_graph vertex_count) (parts_of shards.items)) }
    ensures homes { IfOk result (λ shards. AreInBlocks (parts_of shards.items)) }
{
    let count = (vertex_count - 1) / RANGE_VERTICES + 1;
    let mut shards = Vec::with_capacity(alloc, count as usize)?;
    for range in 0..count {
        let left = vertex_count - RANGE_VERTICES * range;
        let shard = Shard::new(alloc, range, left.min(RANGE_VERTICES) as u16)?;
        shards.push(Arc::new(alloc, shard)?)?;
    }
    Ok(shards)
}

/// Other owners of these shards.
pub fn share_shards(alloc: Global, shards: &[Arc<Shard>]) -> Result<Vec<Arc<Shard>>, AllocError>
    ensures { IfOk result (λ copy. parts_of copy.items ≡ parts_of shards.now) }
{
    let mut copy = Vec::with_capacity(alloc, shards.len())?;
    for shard in shards {
        copy.push(Arc::try_clone(shard)?)?;
    }
    Ok(copy)
}

/// The shard in which a vertex's list stands, where these are a graph's. A vertex past the last range has
/// none.
pub fn shard_of(shards: &[Arc<Shard>], vertex: u64) -> Option<&Shard>
    ensures { (g : Graph) → IsTable g (parts_of shards.now) → IsShardOf g vertex result }
{
    let range = vertex / u64::from(RANGE_VERTICES);
    let shard: &Shard = shards.get(range as usize)?;
    Some(shard)
}
