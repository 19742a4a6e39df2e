//! The edits of a batch in the order of their ranges.
ghost use Rattle.std.specs.Prelude.{◌≡◌, ◌<◌, ◌≤◌, length, slice_index_or, IfOk};
ghost use Rattle.past_model.specs.declared.limits.TheConstants.{MOST_RANGES};
ghost use Rattle.batch_apply.specs.Dealt.{Piece, pieces_of};

use past_model::Edit;
use shards::Groups;
use std::alloc::{AllocError, Global};
use std::marker::Model;

/// A range, and from where to where its edits lie.
#[derive(Clone, Copy)]
pub(crate) struct Run {
    pub range: u32,
    pub start: usize,
    pub end: usize,
}

/// Ranges with their edits, which lie one after another. Contracts see them as the list of these pieces.
#[derive(Drop)]
pub(crate) struct Pieces {
    edits: Vec<Edit>,
    runs: Vec<Run>,
}

impl Model for Pieces {
    ghost use Rattle.std.specs.Prelude.{List, length, map, All};
    ghost use Rattle.batch_apply.specs.Dealt.{Piece};
    ghost use Rattle.batch_apply.specs.Pieces.{piece_in, IsWithin};

    ghost Value = { List Piece };

    ghost view = { λ p. map (piece_in p.edits.items) p.runs.items };

    ghost invariant = { λ p. All (IsWithin (length p.edits.items)) p.runs.items };
}

impl Pieces {
    /// Each range that has an edit, ascending, with its edits in their order. There are so many edits in all.
    pub(crate) fn of(alloc: Global, groups: &Groups<'_>, edits: usize) -> Result<Pieces, AllocError>
        requires { groups.now.count ≤ MOST_RANGES }
        ensures { IfOk result (λ pieces. pieces ≡ pieces_of groups.now) }
    {
        let ranges = groups.filled(alloc)?;
        let mut all = Vec::with_capacity(alloc, edits)?;
        let mut runs = Vec::with_capacity(alloc, ranges.len())?;
        for place in 0..ranges.len() {
            let range = ranges[place];
            let start = all.len();
            groups.push(range as usize, &mut all)?;
            let end = all.len();
            runs.push(Run { range, start, end })?;
        }
        Ok(Pieces { edits: all, runs })
    }

    /// How many there are.
    pub(crate) fn len(&self) -> usize
        ensures { result ≡ length self.now }
    {
        self.runs.len()
    }

    /// A piece's range.
    pub(crate) fn range(&self, place: usize) -> u32
        requires { place < length self.now }
        ensures { (p : Piece) → result ≡ (slice_index_or self.now place p).0 }
    {
        self.runs[place].range
    }

    /// A piece's edits.
    pub(crate) fn edits(&self, place: usize) -> &[Edit]
        requires { place < length self.now }
        ensures { (p : Piece) → result.now ≡ (slice_index_or self.now place p).1 }
    {
        let run = self.runs[place];
        &self.edits[run.start..run.end]
    }
}
