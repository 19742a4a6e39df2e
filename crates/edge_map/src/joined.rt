//! What all workers did, in the frontier's order again.
ghost use Rattle.std.specs.Prelude.{◌≡◌, ◌<◌, None, IfOk};
ghost use Rattle.edge_map.specs.Maps.{IsMap};
ghost use Rattle.edge_map.specs.Pieces.{IsWorkDone, ArePlaced, piece_count};
ghost use Rattle.edge_map.specs.Plans.{task_of};

use crate::piece::Piece;
use crate::plan::Plan;
use edge_fold::{MapOutcome, combine, nothing};
use std::alloc::{AllocError, Global};

/// What each piece gave, at its number.
fn placed(
    alloc: Global,
    plan: &Plan<'_>,
    pieces: Vec<Piece>,
    count: u64,
) -> Result<Vec<Option<MapOutcome>>, AllocError>
    requires count { count ≡ piece_count plan.now.frontier.now }
    requires all { IsWorkDone (task_of plan.now) pieces.items }
    ensures { IfOk result (λ places. ArePlaced (task_of plan.now) places.items) }
{
    let mut places = Vec::with_capacity(alloc, count as usize)?;
    'empty: while places.len() < count as usize {
        places.push(None)?;
    }
    let mut pieces = pieces;
    'left: while let Some(piece) = pieces.pop() {
        places[piece.number as usize] = Some(piece.outcome);
    }
    Ok(places)
}

/// What all pieces gave, as one.
pub(crate) fn joined(
    alloc: Global,
    plan: &Plan<'_>,
    pieces: Vec<Piece>,
    count: u64,
) -> Result<MapOutcome, AllocError>
    requires count { count ≡ piece_count plan.now.frontier.now }
    requires all { IsWorkDone (task_of plan.now) pieces.items }
    ensures { IfOk result (λ out. let t = task_of plan.now in
        IsMap t.rows t.program t.graph t.reduction t.argument t.frontier out) }
{
    let places = placed(alloc, plan, pieces, count)?;
    let mut out = MapOutcome {
        edges: 0,
        total: nothing(plan.reduction),
        rows: Vec::new(alloc),
    };
    'places: for number in 0..places.len() {
        let Some(part) = &places[number] else {
            unreachable!()
        };
        out.edges += part.edges;
        out.total = combine(plan.reduction, out.total, part.total);
        out.rows.extend_from_slice(&part.rows)?;
    }
    Ok(out)
}
