//! Single questions to a graph in shards.
ghost use Rattle.std.specs.Prelude.{◌≡◌, ◌+◌, ◌<◌, ◌≤◌, ◌↔◌, ℕ, length, slice_get, Contains, IsTrue};
ghost use Rattle.past_model.specs.declared.limits.TheConstants.{MOST_VERTICES};
ghost use Rattle.graph_model.specs.Graph.{Graph, neighbours};
ghost use Rattle.shard_table.specs.Table.{IsShardOf};

use crate::place::place_of;
use shards::Shard;

/// How many neighbours a vertex has, where this is the shard in which its list stands. A vertex outside has
/// none.
pub fn degree(shard: Option<&Shard>, vertex: u64) -> u32
    ensures small { result ≤ MOST_VERTICES }
    ensures value { (g : Graph) → IsShardOf g vertex shard.entry → result ≡ length (neighbours g vertex) }
{
    match place_of(shard, vertex) {
        Some((shard, place)) => shard.degree(place),
        None => 0,
    }
}

/// How many vertices in a row have no neighbours, from one on, of those whose lists stand in its shard. A vertex outside counts
/// for none.
pub fn edgeless_from(shard: Option<&Shard>, vertex: u64) -> u32
    ensures { (g : Graph) → IsShardOf g vertex shard.entry → (k : ℕ) → k < result → length (neighbours g (vertex + k))
        ≡ 0 }
{
    match place_of(shard, vertex) {
        Some((shard, place)) => shard.edgeless_from(place),
        None => 0,
    }
}

/// Whether there is an edge from a vertex, in whose shard its list stands, to another. A vertex outside has
/// none.
pub fn has_edge(shard: Option<&Shard>, source: u64, target: u64) -> bool
    ensures { (g : Graph) → IsShardOf g source shard.entry → IsTrue result ↔ Contains (neighbours g source) target }
{
    match place_of(shard, source) {
        Some((shard, place)) => shard.has_target(place, target),
        None => false,
    }
}

/// The neighbour at a place of a vertex's list, from 0; there is none past its end.
pub fn neighbour(shard: Option<&Shard>, vertex: u64, place: u64) -> Option<u32>
    ensures { (g : Graph) → IsShardOf g vertex shard.entry → result ≡ slice_get (neighbours g vertex) place }
{
    let (shard, own) = place_of(shard, vertex)?;
    if place < u64::from(shard.degree(own)) {
        shard.lent_at(own, place as u32).first().copied()
    } else {
        None
    }
}
