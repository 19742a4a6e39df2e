//! Where a vertex's list stands.
ghost use Rattle.std.specs.Prelude.{◌≡◌, ◌+◌, ◌<◌, ◌≤◌, ℕ, length, IfSome, MatchOption};
ghost use Rattle.graph_model.specs.Graph.{Graph, neighbours};
ghost use Rattle.shards.specs.Part.{row_at};
ghost use Rattle.shard_table.specs.Table.{IsShardOf};

use past_model::RANGE_VERTICES;
use shards::Shard;

/// A vertex's list by the shard in which it stands and its place there. A vertex outside the graph has none.
pub(crate) fn place_of(shard: Option<&Shard>, vertex: u64) -> Option<(&Shard, u8)>
    ensures inside { IfSome result (λ place. place.1 < length place.0.now.rows) }
    ensures list { (g : Graph) → IsShardOf g vertex shard.entry
        → MatchOption result (g.vertex_count ≤ vertex) (λ place. row_at place.0.now place.1 ≡ neighbours g vertex) }
    // The lists after it in the shard are those of the vertices after it.
    ensures rest { (g : Graph) → IsShardOf g vertex shard.entry
        → IfSome result (λ place. (k : ℕ) → place.1 + k < length place.0.now.rows
        → row_at place.0.now (place.1 + k) ≡ neighbours g (vertex + k)) }
{
    let shard: &Shard = shard?;
    let place = (vertex % u64::from(RANGE_VERTICES)) as u8;
    if u16::from(place) < shard.vertex_count() {
        Some((shard, place))
    } else {
        None
    }
}
