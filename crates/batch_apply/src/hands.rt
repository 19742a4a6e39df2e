//! Workers, to whom the edited ranges are dealt in turn.
ghost use Rattle.std.specs.Prelude.{◌≡◌, ◌<◌, ◌≤◌, All, length, IfOk};
ghost use Rattle.std.proofs.Props.{props};
ghost use Rattle.past_model.specs.declared.limits.TheConstants.{MOST_RANGES};
ghost use Rattle.workers.specs.declared.limits.TheConstants.{MOST_WORKERS};
ghost use Rattle.batch_apply.specs.Dealt.{IsReady, IsDealt, AreDealt};

use crate::pieces::Pieces;
use shard_table::Table;
use shards::{EditedShard, Scratch};
use std::alloc::{AllocError, Global};
use std::thread::{Promise, Scope, Threads};
use workers::{Crew, Gate, WorkError};

/// The pieces of a batch on a table, which are dealt to so many workers.
#[derive(Clone, Copy)]
pub(crate) struct Deal<'a> {
    pub table: &'a Table,
    pub pieces: &'a Pieces,
    pub step: usize,
    ghost ready: { All (IsReady table.now) pieces.now } by { Prim.hlevel props },
    ghost few: { length pieces.now ≤ MOST_RANGES },
    ghost most: { step ≤ MOST_WORKERS },
}

/// What a worker will have made.
#[derive(Clone, Copy)]
pub(crate) struct Share<'a> {
    table: &'a Table,
    pieces: &'a Pieces,
    first: usize,
    step: usize,
}

impl<'a> Promise<Result<Vec<EditedShard>, AllocError>> for Share<'a> {
    ghost kept_by = { λ share r. IfOk r (λ made.
        IsDealt share.table.now share.pieces.now share.first share.step made.items) };
}

/// One worker's edited shards: of the piece at its first place, and of each so many places further on. A piece's
/// range is its number at the gate.
pub(crate) fn work<Ga: Gate>(
    alloc: Global,
    deal: Deal<'_>,
    gate: &Ga,
    first: usize,
) -> Result<Vec<EditedShard>, AllocError>
    requires { first < deal.step }
    ensures { IfOk result (λ made. IsDealt deal.entry.table.now deal.entry.pieces.now first deal.entry.step
        made.items) }
{
    let Deal {
        table,
        pieces,
        step,
    } = deal;
    let mut made = Vec::new(alloc);
    let mut scratch = Scratch::new(alloc);
    let mut next = first;
    'pieces: while next < pieces.len() {
        let range = pieces.range(next);
        gate.enter(range);
        let edited = table.edit(alloc, range as usize, pieces.edits(next), &mut scratch);
        gate.leave(range);
        made.push(edited?)?;
        next += step;
    }
    Ok(made)
}

/// The edited shards of the workers below a number, each in a thread of its own. All threads that were started have ended.
// The caller's thread makes none: a system that starts a thread where its maker runs would have both in turn on one processor,
// and another idle.
pub(crate) fn spread<'s, E, Ga: Gate, R: Threads>(
    crew: &Crew<'s, R, Ga>,
    alloc: Global,
    scope: &Scope<'s, E>,
    deal: Deal<'s>,
    bound: usize,
) -> Result<Vec<Vec<EditedShard>>, WorkError>
    requires { bound ≤ deal.step }
    ensures dealt { IfOk result (λ lists. AreDealt deal.entry.table.now deal.entry.pieces.now deal.entry.step
        lists.items) }
    ensures all { IfOk result (λ lists. length lists.items ≡ bound) }
{
    if bound == 0 {
        return Ok(Vec::new(alloc));
    }
    let first = bound - 1;
    let gate = crew.gate;
    // The closure takes plain references, and makes the deal again.
    let Deal {
        table,
        pieces,
        step,
    } = deal;
    let share = Share {
        table,
        pieces,
        first,
        step,
    };
    let worker = move || -> Result<Vec<EditedShard>, AllocError>
        requires { All (IsReady table.now) pieces.now × (length pieces.now ≤ MOST_RANGES)
            × (first < step) × (step ≤ MOST_WORKERS) }
        ensures { IfOk result (λ made.
            IsDealt table.entry.now pieces.entry.now first step made.items) }
    {
        let deal = Deal {
            table,
            pieces,
            step,
        };
        work(alloc, deal, gate, first)
    };
    let Ok(thread) = scope.spawn_with(share, worker) else {
        return Err(WorkError::WorkerRefused);
    };
    let here = spread(crew, alloc, scope, deal, first);
    let there = thread.join(crew.rt);
    let mut lists = here?;
    lists.push(there?)?;
    Ok(lists)
}
