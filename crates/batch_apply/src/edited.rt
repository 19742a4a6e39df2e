//! A table of shards after a batch.
ghost use Rattle.std.specs.Prelude.{◌≡◌, ◌<◌, ◌≤◌, All, length, IfOk, IfErr};
ghost use Rattle.past_model.specs.declared.limits.TheConstants.{MOST_RANGES};
ghost use Rattle.workers.specs.declared.limits.TheConstants.{MOST_WORKERS};
ghost use Rattle.shard_table.specs.Made.{IsBatch};
ghost use Rattle.shard_table.specs.Table.{IsEditable, AreAfter, AreMoved};
ghost use Rattle.workers.specs.declared.work_error.WorkError.TheVariants.{OutOfMemory};
ghost use Rattle.batch_apply.specs.Dealt.{IsReady, AreDealt, pieces_of};

use crate::hands::{Deal, spread, work};
use crate::one_range::{edit_range, only_range};
use crate::pieces::Pieces;
use past_model::Edit;
use shard_table::Table;
use shards::{Counts, EditedShard, Grouping, Groups};
use std::alloc::{AllocError, Global};
use std::sync::Wait;
use std::thread::Threads;
use std::{slice, thread};
use workers::{Crew, Gate, OpenGate, WorkError};

/// The edited shards of all workers, each in a thread of its own.
fn made_by<Ga: Gate, R: Threads + Wait>(
    crew: &Crew<'_, R, Ga>,
    alloc: Global,
    deal: Deal<'_>,
) -> Result<Vec<Vec<EditedShard>>, WorkError>
    requires { 0 < deal.step }
    ensures dealt { IfOk result (λ lists. AreDealt deal.entry.table.now deal.entry.pieces.now deal.entry.step
        lists.items) }
    ensures all { IfOk result (λ lists. length lists.items ≡ deal.entry.step) }
{
    let rt = crew.rt;
    let workers = crew.workers;
    let gate = crew.gate;
    let Deal {
        table,
        pieces,
        step,
    } = deal;
    thread::scope(
        thread::scope_env(),
        rt,
        move |scope| -> Result<Vec<Vec<EditedShard>>, WorkError>
            requires { All (IsReady table.now) pieces.now × (length pieces.now ≤ MOST_RANGES)
                × (0 < step) × (step ≤ MOST_WORKERS) }
            ensures { IfOk result (λ lists.
                AreDealt table.entry.now pieces.entry.now step lists.items
                × (length lists.items ≡ step)) }
        {
            let crew = Crew { rt, workers, gate };
            let deal = Deal {
                table,
                pieces,
                step,
            };
            let lists = spread(&crew, alloc, scope, deal, step);
            let Crew {
                rt: _,
                workers: _,
                gate: _,
            } = crew;
            lists
        },
    )
}

/// The table with what workers made put in.
fn put_in(
    alloc: Global,
    table: &Table,
    groups: &Groups<'_>,
    pieces: &Pieces,
    lists: &[Vec<EditedShard>],
) -> Result<(Table, Counts), AllocError>
    requires batch { IsBatch groups.now table.now }
    requires pieces { pieces.now ≡ pieces_of groups.now }
    requires few { length pieces.now ≤ MOST_RANGES }
    requires some { 0 < length lists.now }
    requires hands { length lists.now ≤ MOST_WORKERS }
    requires dealt { AreDealt table.now pieces.now (length lists.now) lists.now }
    ensures after { IfOk result (λ next. AreAfter groups.now.edits table.now next.0 next.1) }
    ensures homes { IfOk result (λ next. AreMoved table.now next.0) }
{
    let hands = lists.len();
    let mut made = Vec::with_capacity(alloc, pieces.len())?;
    for place in 0..pieces.len() {
        let own = &lists[place % hands];
        made.push(&own[place / hands])?;
    }
    table.with(alloc, groups, &made)
}

/// The table with what one worker makes, who has the caller's thread, put in.
fn edit_alone<Ga: Gate>(
    alloc: Global,
    table: &Table,
    groups: &Groups<'_>,
    pieces: &Pieces,
    gate: &Ga,
) -> Result<(Table, Counts), AllocError>
    requires batch { IsBatch groups.now table.now }
    requires pieces { pieces.now ≡ pieces_of groups.now }
    requires ready { All (IsReady table.now) pieces.now }
    requires few { length pieces.now ≤ MOST_RANGES }
    ensures after { IfOk result (λ next. AreAfter groups.now.edits table.now next.0 next.1) }
    ensures homes { IfOk result (λ next. AreMoved table.now next.0) }
{
    let deal = Deal {
        table,
        pieces,
        step: 1,
    };
    let own = work(alloc, deal, gate, 0)?;
    put_in(alloc, table, groups, pieces, slice::from_ref(&own))
}

/// The table after a batch, and what the batch did: the batch's own answer, whatever the number of workers, the
/// gate and the order in which they come. The old table stays. As many workers are at work as there are, as there are
/// edited ranges, and as have the gate's `edits_a_worker` each, but one at least. The edited ranges, ascending, are dealt
/// to these in turn: the j-th, from 0, to worker j modulo their number. A range's number is a piece of the gate's.
/// `OutOfMemory` where there is no memory, `WorkerRefused` where a thread could not be started; with one worker at work
/// none is.
pub fn edit_table<Ga: Gate, R: Threads + Wait>(
    crew: &Crew<'_, R, Ga>,
    alloc: Global,
    table: &Table,
    edits: &[Edit],
) -> Result<(Table, Counts), WorkError>
    requires { IsEditable table.now edits.now }
    ensures after { IfOk result (λ next. AreAfter edits.now table.now next.0 next.1) }
    ensures homes { IfOk result (λ next. AreMoved table.now next.0) }
    ensures alone { crew.now.workers.count ≡ 1 → IfErr result (λ e. e ≡ OutOfMemory) }
{
    if let Some(range) = only_range(edits) {
        let next = edit_range(alloc, table, edits, range, crew.gate)?;
        return Ok(next);
    }
    let groups = Groups::of(alloc, Grouping::ByRange, table.count(), edits)?;
    let pieces = Pieces::of(alloc, &groups, edits.len())?;
    let busy = edits.len() / crew.gate.edits_a_worker();
    let hands = usize::from(crew.workers.count())
        .min(pieces.len())
        .min(busy)
        .max(1);
    if hands == 1 {
        let next = edit_alone(alloc, table, &groups, &pieces, crew.gate)?;
        return Ok(next);
    }
    let deal = Deal {
        table,
        pieces: &pieces,
        step: hands,
    };
    let lists = made_by(crew, alloc, deal)?;
    let next = put_in(alloc, table, &groups, &pieces, &lists)?;
    Ok(next)
}

/// The table after a batch, and what the batch did, as `edit_table` answers, by the caller's own thread alone: it needs no
/// right to start a thread or to wait. The old table stays. The only error is lack of memory.
pub fn edit_table_alone(
    alloc: Global,
    table: &Table,
    edits: &[Edit],
) -> Result<(Table, Counts), AllocError>
    requires { IsEditable table.now edits.now }
    ensures after { IfOk result (λ next. AreAfter edits.now table.now next.0 next.1) }
    ensures homes { IfOk result (λ next. AreMoved table.now next.0) }
{
    if let Some(range) = only_range(edits) {
        return edit_range(alloc, table, edits, range, &OpenGate);
    }
    let groups = Groups::of(alloc, Grouping::ByRange, table.count(), edits)?;
    let pieces = Pieces::of(alloc, &groups, edits.len())?;
    edit_alone(alloc, table, &groups, &pieces, &OpenGate)
}
