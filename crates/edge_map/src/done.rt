//! What workers have done.
ghost use Rattle.std.specs.Prelude.{IfOk};
ghost use Rattle.edge_map.specs.Pieces.{IsWork};
ghost use Rattle.edge_map.specs.Plans.{task_of};

use crate::piece::Piece;
use crate::plan::Plan;
use claims::Claimant;
use std::alloc::AllocError;
use std::thread::Promise;

/// What one worker has done, or several have together.
#[derive(Drop)]
pub(crate) struct Done {
    pub claimant: Claimant,
    pub pieces: Vec<Piece>,
}

impl<'a> Promise<Result<Done, AllocError>> for Plan<'a> {
    ghost kept_by = { λ plan r. IfOk r (λ done. IsWork (task_of plan) 1 done.claimant done.pieces.items) };
}
