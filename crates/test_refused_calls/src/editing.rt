//! Batches on a table whose lists stand in each home. One that is refused memory leaves the table as it was.
ghost use Rattle.std.specs.Prelude.{IfOk};
ghost use Rattle.shard_table.specs.Table.{IsOfGraph};

use crate::stop::Stop;
use batch_apply::{ApplyError, apply_batch};
use past_model::{Batch, Edit};
use shard_table::Table;
use shards::{Counts, Shard};
use std::alloc::{AllocError, Global};
use std::sync::Wait;
use std::thread::Threads;
use store::{OpenGate, Workers};
use workers::Crew;

// How many vertices the graph has, and so how many targets a vertex can have.
const VERTICES: u32 = 1200;

// How many targets the first vertices have: in a tree, a run, a block, a short block, nowhere, and a run that is full, which moves
// with one more.
const DEGREES: [u32; 6] = [1100, 20, 10, 4, 0, 32];

// The first vertex of another range, how many from it on have edges, and how many targets each of these has: so many that the
// next edit of the range cuts its pages anew.
const DENSE_FIRST: u32 = 1024;

const DENSE_COUNT: u32 = 12;

const DENSE_DEGREE: u32 = 240;

// How many edits of the tree are put in one by one, and how many are too many for that.
const FEW: u32 = 20;

const MANY: u32 = 60;

// Insertions of edges of one vertex.
#[derive(Clone, Copy)]
struct Work {
    source: u32,
    // The targets from one to below another.
    from: u32,
    below: u32,
}

fn push_all(edits: &mut Vec<Edit>, work: Work) -> Result<(), AllocError> {
    for target in work.from..work.below {
        edits.push(Edit::Insert(work.source, target))?;
    }
    Ok(())
}

// Insertions of all targets that the vertices begin with.
fn first_edits(alloc: Global) -> Result<Batch, AllocError> {
    let mut edits = Vec::new(alloc);
    let mut source = 0u32;
    for below in DEGREES {
        push_all(
            &mut edits,
            Work {
                source,
                from: 0,
                below,
            },
        )?;
        source = source.saturating_add(1);
    }
    for place in 0..DENSE_COUNT {
        push_all(
            &mut edits,
            Work {
                source: DENSE_FIRST + place,
                from: 0,
                below: DENSE_DEGREE,
            },
        )?;
    }
    Batch::new(alloc, edits)
}

// Whether a vertex has exactly the numbers below its degree.
fn has_first(shard: &Shard, vertex: u8, degree: u32) -> bool {
    if u16::from(vertex) >= shard.vertex_count() {
        return false;
    }
    let mut next = 0u32;
    for _ in 0..degree {
        for word in shard.lent_at(vertex, next) {
            if *word != next {
                return false;
            }
            next = next.wrapping_add(1);
        }
    }
    next == degree && shard.degree(vertex) == degree
}

// Whether each vertex of the dense range has the targets that it begins with.
fn is_first_dense(table: &Table) -> bool {
    let Some(shard) = table.shard_of(u64::from(DENSE_FIRST)) else {
        return false;
    };
    for place in 0..DENSE_COUNT {
        if !has_first(shard, place as u8, DENSE_DEGREE) {
            return false;
        }
    }
    true
}

// Whether each vertex has the targets that it begins with.
fn is_first(table: &Table) -> bool {
    let Some(shard) = table.shard_of(0) else {
        return false;
    };
    let mut vertex = 0u8;
    for degree in DEGREES {
        if !has_first(shard, vertex, degree) {
            return false;
        }
        vertex = vertex.saturating_add(1);
    }
    is_first_dense(table)
}

// The table after a batch, by one worker.
fn applied<R: Threads + Wait>(
    rt: &R,
    alloc: Global,
    table: &Table,
    batch: &Batch,
) -> Result<(Table, Counts), ApplyError>
    requires { IsOfGraph table.now }
    ensures { IfOk result (λ next. IsOfGraph next.0) }
{
    let crew = Crew {
        rt,
        workers: Workers::one(),
        gate: &OpenGate,
    };
    let told = apply_batch(&crew, alloc, table, batch);
    let Crew {
        rt: _,
        workers: _,
        gate: _,
    } = crew;
    let next = told?;
    Ok(next)
}

// One batch of insertions, on a table that has to stay, whatever comes of it.
fn edit<R: Threads + Wait>(rt: &R, alloc: Global, table: &Table, work: Work) -> Result<(), Stop>
    requires { IsOfGraph table.now }
{
    let mut edits = Vec::new(alloc);
    if push_all(&mut edits, work).is_err() {
        return Err(Stop::NotBegun);
    }
    let count = edits.len() as u64;
    let Ok(batch) = Batch::new(alloc, edits) else {
        return Err(Stop::NotBegun);
    };
    match applied(rt, alloc, table, &batch) {
        Ok((_, counts)) if counts.added == count && counts.removed == 0 && is_first(table) => Ok(
            (),
        ),
        Err(ApplyError::OutOfMemory) => Err(Stop::ListsUnchanged.if_unchanged(is_first(table))),
        _ => Err(Stop::Wrong),
    }
}

/// One edit of a list in each home, a few of the tree, many of it, and one by which the pages of a dense range are cut anew.
pub(crate) fn edit_lists<R: Threads + Wait>(rt: &R, alloc: Global) -> Result<(), Stop> {
    let (Ok(empty), Ok(batch)) = (Table::empty(alloc, VERTICES), first_edits(alloc)) else {
        return Err(Stop::NotBegun);
    };
    let Ok((table, _)) = applied(rt, alloc, &empty, &batch) else {
        return Err(Stop::NotBegun);
    };
    let mut source = 0u32;
    for degree in DEGREES {
        let work = Work {
            source,
            from: degree,
            below: degree.saturating_add(1),
        };
        edit(rt, alloc, &table, work)?;
        source = source.saturating_add(1);
    }
    for count in [FEW, MANY] {
        let work = Work {
            source: 0,
            from: DEGREES[0],
            below: DEGREES[0].saturating_add(count),
        };
        edit(rt, alloc, &table, work)?;
    }
    let work = Work {
        source: DENSE_FIRST,
        from: DENSE_DEGREE,
        below: DENSE_DEGREE + 1,
    };
    edit(rt, alloc, &table, work)
}
