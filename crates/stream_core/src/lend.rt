//! Which words are lent next.
ghost use Rattle.std.specs.Prelude.{◌≡◌, ◌<◌, [], length, drop, MatchOption};
ghost use Rattle.graph_model.specs.Graph.{Graph, neighbours};
ghost use Rattle.shard_table.specs.Table.{IsTable, parts_of};
ghost use Rattle.store_model.specs.Events.{IsBeginning};

use cursors::Cursor;
use shard_table::shard_of;
use shards::Shard;
use std::sync::Arc;

/// The next words of a vertex's neighbours from a place on, as they lie in one slice. There are none past the end.
pub(crate) fn lent_from(shards: &[Arc<Shard>], vertex: u32, place: usize) -> Option<&[u32]>
    ensures { (g : Graph) → IsTable g (parts_of shards.now)
        → MatchOption result (drop place (neighbours g vertex) ≡ [])
        (λ words. (0 < length words.now) × IsBeginning words.now (drop place (neighbours g vertex))) }
{
    let vertex = u64::from(vertex);
    let mut cursor = Cursor::from_place(shard_of(shards, vertex), vertex, place as u64);
    cursor.next_slice()
}
