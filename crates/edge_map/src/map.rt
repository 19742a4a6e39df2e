//! A map over edges.
ghost use Rattle.std.specs.Prelude.{◌≡◌, ◌+◌, ◌<◌, ◌≤◌, [], length, IfOk};
ghost use Rattle.past_model.specs.declared.limits.TheConstants.{MOST_VERTICES};
ghost use Rattle.past_model.specs.Past.{graph_of};
ghost use Rattle.map_model.specs.declared.limits.TheConstants.{EDGE_BYTES};
ghost use Rattle.workers.specs.declared.limits.TheConstants.{MOST_WORKERS};
ghost use Rattle.edge_fold.specs.declared.rows.Rows.TheVariants.{OfEach, OfSources};
ghost use Rattle.edge_map.specs.Maps.{IsMap, IsMapped};
ghost use Rattle.edge_map.specs.Pieces.{IsWork, task};
ghost use Rattle.edge_map.specs.Plans.{task_of};

use crate::done::Done;
use crate::errors::MapError;
use crate::frontier::is_frontier;
use crate::joined::joined;
use crate::piece::count_pieces;
use crate::plan::{Plan, Team};
use crate::work::{spread, work};
use claims::Counter;
use edge_fold::{MapOutcome, Rows};
use map_model::{EDGE_BYTES, Reduction};
use std::alloc::{AllocError, Global};
use std::sync::Wait;
use std::thread;
use std::thread::Threads;
use store::Pin;
use verifier::Verified;
use version::Version;
use workers::{Crew, Gate, WorkError, Workers};

/// What is mapped: a program with its argument, the vertices whose edges it is run on, and what its numbers become.
#[derive(Clone, Copy)]
pub struct MapRequest<'a> {
    /// The program that is run on each edge.
    pub program: &'a Verified,
    /// What its record has after the edge.
    pub argument: &'a [u8],
    /// The vertices from which the edges go out, strictly ascending.
    pub frontier: &'a [u32],
    /// What the numbers that it exits with are reduced to.
    pub reduction: Reduction,
}

/// What all workers have done. With one worker no thread is started.
fn done_by<Ga: Gate, R: Threads + Wait>(
    crew: &Crew<'_, R, Ga>,
    alloc: Global,
    plan: Plan<'_>,
    team: Team,
) -> Result<Done, WorkError>
    requires { team.me.counter ≡ plan.counter.now }
    ensures { IfOk result (λ done. IsWork (task_of plan.entry) team.me.parts done.claimant done.pieces.items) }
{
    let rt = crew.rt;
    let workers = crew.workers;
    let gate = crew.gate;
    let Team { me, more } = team;
    if more == 0 {
        let done = work(alloc, plan, gate, me)?;
        return Ok(done);
    }
    let Plan {
        version,
        program,
        argument,
        frontier,
        reduction,
        rows,
        counter,
    } = plan;
    thread::scope(
        thread::scope_env(),
        rt,
        move |scope| -> Result<Done, WorkError>
            requires { (me.counter ≡ counter.now) × (more < me.parts) × (me.claimed ≡ [])
                × (length argument.now + EDGE_BYTES ≡ program.now.record_length)
                × (length frontier.now ≤ MOST_VERTICES) }
            ensures { IfOk result (λ done. IsWork (task program.entry.now (graph_of version.entry.now)
                argument.entry.now frontier.entry.now reduction rows counter.entry.now) me.parts
                done.claimant done.pieces.items) }
        {
            let plan = Plan {
                version,
                program,
                argument,
                frontier,
                reduction,
                rows,
                counter,
            };
            let crew = Crew { rt, workers, gate };
            let done = spread(&crew, alloc, scope, plan, Team { me, more });
            let Crew {
                rt: _,
                workers: _,
                gate: _,
            } = crew;
            done
        },
    )
}

/// How many threads are started besides the caller's: no more than have a piece to claim.
fn more_workers(workers: Workers, pieces: u64) -> u8
    ensures { result < MOST_WORKERS }
{
    u64::from(workers.count() - 1).min(pieces.saturating_sub(1)) as u8
}

/// The map by these workers, where the argument and the frontier are as they have to be.
fn map_allowed<Ga: Gate, R: Threads + Wait>(
    crew: &Crew<'_, R, Ga>,
    alloc: Global,
    version: &Version,
    request: &MapRequest<'_>,
    rows: Rows,
) -> Result<MapOutcome, WorkError>
    requires argument { length request.now.argument.now + EDGE_BYTES ≡ request.now.program.now.record_length }
    requires few { length request.now.frontier.now ≤ MOST_VERTICES }
    ensures { IfOk result (λ out. IsMap rows request.now.program.now (graph_of version.now) request.now.reduction
        request.now.argument.now request.now.frontier.now out) }
{
    let (counter, me) = Counter::new(alloc)?;
    let plan = Plan {
        version,
        program: request.program,
        argument: request.argument,
        frontier: request.frontier,
        reduction: request.reduction,
        rows,
        counter: &counter,
    };
    let count = count_pieces(&plan);
    let more = more_workers(crew.workers, count);
    let mut done = done_by(crew, alloc, plan, Team { me, more })?;
    let _claimed = counter.count(&mut done.claimant);
    let out = joined(alloc, &plan, done.pieces, count)?;
    Ok(out)
}

/// What `map_edges` and `map_sources` say, of a version.
pub(crate) fn map_version<Ga: Gate, R: Threads + Wait>(
    crew: &Crew<'_, R, Ga>,
    alloc: Global,
    version: &Version,
    request: &MapRequest<'_>,
    rows: Rows,
) -> Result<MapOutcome, MapError>
    ensures { IsMapped rows request.now.program.now (graph_of version.now) request.now.reduction
        request.now.argument.now request.now.frontier.now result }
{
    if request.argument.len() + EDGE_BYTES != usize::from(request.program.image().record_length()) {
        return Err(MapError::ArgumentLength);
    }
    if !is_frontier(request.frontier, version.vertex_count()) {
        return Err(MapError::Frontier);
    }
    let out = map_allowed(crew, alloc, version, request, rows)?;
    Ok(out)
}

/// Runs a verified program on each edge of the frontier's vertices, on a record of the edge's own, and reduces the
/// numbers that it exits with: those of each vertex, which has a row, and all together. No edge is left out
/// (`edge_fold::laws`). The graph is that of the pin's version.
/// `ArgumentLength` exactly where the argument does not have the record's length less 16 bytes; else `Frontier` exactly
/// where the frontier does not strictly ascend or has a vertex outside; then `OutOfMemory` where there is no memory,
/// and `WorkerRefused` where a thread could not be started. The answer does not depend on the workers, the gate or the
/// order in which threads run. A piece of the gate's is 64 places of the frontier: piece `p` begins at place `64 * p`.
/// Workers claim the pieces, the caller's thread among them, so that one thread less is started than there are workers,
/// and none that has no piece to claim.
pub fn map_edges<Ga: Gate, R: Threads + Wait>(
    crew: &Crew<'_, R, Ga>,
    alloc: Global,
    pin: &Pin,
    request: &MapRequest<'_>,
) -> Result<MapOutcome, MapError>
    ensures { IsMapped OfEach request.now.program.now (graph_of pin.now.past) request.now.reduction
        request.now.argument.now request.now.frontier.now result }
{
    map_version(crew, alloc, pin.version(), request, Rows::OfEach)
}

/// What `map_edges` does, with rows of those vertices alone that have a neighbour.
pub fn map_sources<Ga: Gate, R: Threads + Wait>(
    crew: &Crew<'_, R, Ga>,
    alloc: Global,
    pin: &Pin,
    request: &MapRequest<'_>,
) -> Result<MapOutcome, MapError>
    ensures { IsMapped OfSources request.now.program.now (graph_of pin.now.past) request.now.reduction
        request.now.argument.now request.now.frontier.now result }
{
    map_version(crew, alloc, pin.version(), request, Rows::OfSources)
}
