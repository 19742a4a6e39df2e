//! Workers that claim one piece after another.
ghost use Rattle.std.specs.Prelude.{◌≡◌, ◌+◌, ◌<◌, ◌≤◌, [], length, IfOk};
ghost use Rattle.past_model.specs.declared.limits.TheConstants.{MOST_VERTICES};
ghost use Rattle.past_model.specs.Past.{graph_of};
ghost use Rattle.map_model.specs.declared.limits.TheConstants.{EDGE_BYTES};
ghost use Rattle.edge_map.specs.Pieces.{IsWork, task};
ghost use Rattle.edge_map.specs.Plans.{task_of};

use crate::done::Done;
use crate::piece::{Piece, count_pieces, map_piece};
use crate::plan::{Plan, Team};
use claims::Claimant;
use edge_fold::Memory;
use std::alloc::{AllocError, Global};
use std::thread::{Scope, Threads};
use workers::{Crew, Gate, WorkError};

/// One worker's pieces: those that it claims, until none is left. It has one memory for all its edges.
pub(crate) fn work<Ga: Gate>(
    alloc: Global,
    plan: Plan<'_>,
    gate: &Ga,
    me: Claimant,
) -> Result<Done, AllocError>
    requires of { me.counter ≡ plan.counter.now }
    requires parts { 0 < me.parts }
    requires fresh { me.claimed ≡ [] }
    ensures { IfOk result (λ done. IsWork (task_of plan.entry) me.parts done.claimant done.pieces.items) }
{
    let mut claimant = me;
    let mut memory = Memory::for_program(plan.program);
    let mut pieces = Vec::new(alloc);
    let count = count_pieces(&plan);
    'claims: loop {
        let number = plan.counter.claim(&mut claimant);
        if number >= count {
            break;
        }
        gate.enter(number as u32);
        let outcome = map_piece(alloc, &mut memory, &plan, number);
        gate.leave(number as u32);
        pieces.push(Piece {
            number,
            outcome: outcome?,
        })?;
    }
    Ok(Done { claimant, pieces })
}

/// What two workers have done together.
fn together(plan: &Plan<'_>, here: Done, there: Done) -> Result<Done, AllocError>
    requires here { IsWork (task_of plan.now) here.claimant.parts here.claimant here.pieces.items }
    requires there { IsWork (task_of plan.now) there.claimant.parts there.claimant there.pieces.items }
    ensures { IfOk result (λ done. IsWork (task_of plan.now) (here.claimant.parts + there.claimant.parts)
        done.claimant done.pieces.items) }
{
    let mut here = here;
    let mut there = there;
    plan.counter.join(&mut here.claimant, there.claimant);
    here.pieces.append(&mut there.pieces)?;
    Ok(here)
}

/// What so many threads do, and the caller's own. All threads that were started have ended.
pub(crate) fn spread<'s, E, Ga: Gate, R: Threads>(
    crew: &Crew<'s, R, Ga>,
    alloc: Global,
    scope: &Scope<'s, E>,
    plan: Plan<'s>,
    team: Team,
) -> Result<Done, WorkError>
    requires { team.me.counter ≡ plan.counter.now }
    ensures { IfOk result (λ done. IsWork (task_of plan.entry) team.me.parts done.claimant done.pieces.items) }
{
    let gate = crew.gate;
    let Team { me, more } = team;
    if more == 0 {
        let done = work(alloc, plan, gate, me)?;
        return Ok(done);
    }
    let mut mine = me;
    let theirs = plan.counter.another(&mut mine);
    // The closure takes plain references, and makes the plan again.
    let Plan {
        version,
        program,
        argument,
        frontier,
        reduction,
        rows,
        counter,
    } = plan;
    let worker = move || -> Result<Done, AllocError>
        requires { (theirs.counter ≡ counter.now) × (theirs.parts ≡ 1) × (theirs.claimed ≡ [])
            × (length argument.now + EDGE_BYTES ≡ program.now.record_length)
            × (length frontier.now ≤ MOST_VERTICES) }
        ensures { IfOk result (λ done. IsWork (task program.entry.now (graph_of version.entry.now)
            argument.entry.now frontier.entry.now reduction rows counter.entry.now) 1 done.claimant done.pieces.items) }
    {
        let plan = Plan {
            version,
            program,
            argument,
            frontier,
            reduction,
            rows,
            counter,
        };
        work(alloc, plan, gate, theirs)
    };
    let Ok(thread) = scope.spawn_with(plan, worker) else {
        return Err(WorkError::WorkerRefused);
    };
    let rest = Team {
        me: mine,
        more: more - 1,
    };
    let here = spread(crew, alloc, scope, plan, rest);
    let there = thread.join(crew.rt);
    let done = together(&plan, here?, there?)?;
    Ok(done)
}
