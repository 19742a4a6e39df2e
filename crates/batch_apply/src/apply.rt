//! A batch on a table of shards.
ghost use Rattle.std.specs.Prelude.{◌≡◌, IsErrOf};
ghost use Rattle.shard_table.specs.Table.{IsOfGraph};
ghost use Rattle.batch_apply.specs.Applied.{IsApplied};

use crate::edited::edit_table;
use crate::errors::ApplyError;
use past_model::{Batch, MOST_EDITS, are_below};
use shard_table::Table;
use shards::Counts;
use std::alloc::Global;
use std::sync::Wait;
use std::thread::Threads;
use workers::{Crew, Gate};

/// The table of a graph after a batch, and what the batch did to the graph. The table stays. `TooManyEdits` exactly
/// above 65,536 edits; else `VertexRange` exactly where an edit names a vertex that the graph does not have; then
/// `OutOfMemory` where there is no memory, and `WorkerRefused` where a thread could not be started. The answer does not
/// depend on the workers, the gate or the order in which threads run. As many workers are at work as there are, as
/// there are edited ranges, and as have the gate's `edits_a_worker` each, but one at least. The edited ranges,
/// ascending, are dealt to these in turn, the j-th, from 0, to worker j modulo their number. A range's number is a
/// piece of the gate's. With one worker at work no thread is started.
pub fn apply_batch<Ga: Gate, R: Threads + Wait>(
    crew: &Crew<'_, R, Ga>,
    alloc: Global,
    table: &Table,
    batch: &Batch,
) -> Result<(Table, Counts), ApplyError>
    requires { IsOfGraph table.now }
    ensures applied { IsApplied table.now batch.now result }
    ensures alone { crew.now.workers.count ≡ 1 → IsErrOf result ApplyError.WorkerRefused → ⊥ }
{
    let edits = batch.edits();
    if edits.len() > MOST_EDITS {
        return Err(ApplyError::TooManyEdits);
    }
    if !are_below(edits, table.vertex_count()) {
        return Err(ApplyError::VertexRange);
    }
    let next = edit_table(crew, alloc, table, edits)?;
    Ok(next)
}
