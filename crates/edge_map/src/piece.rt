//! A piece of a map: so many places of the frontier.
ghost use Rattle.std.specs.Prelude.{◌≡◌, ◌<◌, ◌≤◌, IfOk};
ghost use Rattle.past_model.specs.declared.limits.TheConstants.{MOST_VERTICES};
ghost use Rattle.edge_map.specs.Pieces.{IsPart, piece_count};
ghost use Rattle.edge_map.specs.Plans.{task_of};
ghost use Rattle.edge_fold.specs.Kept.{IsFor};

use crate::limits::PIECE_VERTICES;
use crate::plan::Plan;
use edge_fold::{MapOutcome, Mapped, Memory, Request, map_frontier};
use std::alloc::{AllocError, Global};

/// What a piece gave, under its number.
#[derive(Drop)]
pub(crate) struct Piece {
    pub number: u64,
    pub outcome: MapOutcome,
}

/// How many pieces there are.
pub(crate) fn count_pieces(plan: &Plan<'_>) -> u64
    ensures value { result ≡ piece_count plan.now.frontier.now }
    ensures few { result ≤ MOST_VERTICES }
{
    let _few = plan.frontier.len();
    plan.frontier.len().div_ceil(PIECE_VERTICES) as u64
}

/// One piece, in a memory for the plan's program. What else the memory held before does not matter.
pub(crate) fn map_piece(
    alloc: Global,
    memory: &mut Memory,
    plan: &Plan<'_>,
    number: u64,
) -> Result<MapOutcome, AllocError>
    requires piece { number < piece_count plan.now.frontier.now }
    requires memory { IsFor plan.now.program.now memory.old }
    ensures part { IfOk result (λ out. IsPart (task_of plan.now) number out) }
    ensures memory { IsFor plan.now.program.now memory.new }
{
    let from = number as usize * PIECE_VERTICES;
    let until = plan.frontier.len().min(from + PIECE_VERTICES);
    let part = &plan.frontier[from..until];
    let mapped = Mapped {
        version: plan.version,
        program: plan.program,
        argument: plan.argument,
        columns: &[],
    };
    let request = Request {
        frontier: part,
        reduction: plan.reduction,
    };
    let outcome = map_frontier(alloc, memory, &mapped, &request, plan.rows)?;
    Ok(outcome)
}
