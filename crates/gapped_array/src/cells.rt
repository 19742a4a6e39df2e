//! Changes of the cells that one run has.
ghost use Rattle.std.specs.Prelude.{◌≡◌, ◌<◌, ◌≤◌, ◌+◌, ◌-◌, ◌*◌, ◌^◌, ◌++◌, ◌∷◌, [], length, take, drop, insert, remove, replicate, slice_index, vec_len, IfOk, OnOk, OnErr};
ghost use Rattle.gapped_array.specs.Cells.{piece};
ghost use Rattle.gapped_array.specs.Runs.{words_in, HasRoom};

use crate::run::{Run, SEGMENT};
use std::alloc::AllocError;

/// The words of a run.
pub(crate) fn words_of(cells: &[u32], run: Run) -> &[u32]
    requires { SEGMENT * run.segment + run.count ≤ length cells.now }
    ensures { result.now ≡ words_in cells.now run }
{
    let from = SEGMENT * run.segment as usize;
    &cells[from..from + run.count as usize]
}

/// Puts a word at a place into the `count` cells from `from` on. The cell after them is overwritten.
pub(crate) fn put_word(cells: &mut Vec<u32>, from: usize, count: usize, at: usize, word: u32)
    requires place { at ≤ count }
    requires room { from + count < vec_len cells.old }
    ensures { cells.new.items ≡ take from cells.old.items
        ++ (insert (piece from count cells.old.items) at word ++ drop (from + (count + 1)) cells.old.items) }
{
    let places = &mut cells[from + at..from + count + 1];
    places.rotate_right(1);
    places[0] = word;
}

/// Takes the word at a place out of the `count` cells from `from` on. It then lies after the others.
pub(crate) fn take_word(cells: &mut Vec<u32>, from: usize, count: usize, at: usize)
    requires place { at < count }
    requires within { from + count ≤ vec_len cells.old }
    ensures { cells.new.items ≡ take from cells.old.items ++ ((remove (piece from count cells.old.items) at
        ++ slice_index (piece from count cells.old.items) at ∷ []) ++ drop (from + count) cells.old.items) }
{
    cells[from + at..from + count].rotate_left(1);
}

/// Puts words after all cells, and then empty cells, `places` in all.
pub(crate) fn append(cells: &mut Vec<u32>, words: &[u32], places: usize) -> Result<(), AllocError>
    requires { length words.now ≤ places }
    ensures ok { OnOk result (cells.new.items ≡ cells.old.items ++ (words.now
        ++ replicate (places - length words.now) 0)) }
    ensures err { OnErr result (cells.new.items ≡ cells.old.items) }
{
    cells.reserve(places)?;
    let end = cells.len() + places;
    cells.extend_from_slice(words)?;
    cells.resize(end, 0)?;
    Ok(())
}

/// The same with the `count` cells from `from` on.
pub(crate) fn append_piece(
    cells: &mut Vec<u32>,
    from: usize,
    count: usize,
    places: usize,
) -> Result<(), AllocError>
    requires fits { count ≤ places }
    requires within { from + count ≤ vec_len cells.old }
    ensures ok { OnOk result (cells.new.items ≡ cells.old.items ++ (piece from count cells.old.items
        ++ replicate (places - count) 0)) }
    ensures err { OnErr result (cells.new.items ≡ cells.old.items) }
{
    cells.reserve(places)?;
    let end = cells.len() + places;
    cells.extend_from_within(from..from + count)?;
    cells.resize(end, 0)?;
    Ok(())
}

/// A run with a place free for one word more: this one, or where it is full a copy of it after all segments, which
/// has twice as many of them and one. After an error the cells are as they were. There is none for more segments than
/// can be numbered.
pub(crate) fn with_room(cells: &mut Vec<u32>, segments: u32, run: Run) -> Result<Run, AllocError>
    requires cells { vec_len cells.old ≡ SEGMENT * segments }
    requires inside { run.segment + run.segments ≤ segments }
    requires count { run.count ≤ SEGMENT * run.segments }
    ensures ok { IfOk result (HasRoom segments run cells.old.items cells.new.items) }
    ensures room { IfOk result (λ r. SEGMENT * r.segment + r.count < vec_len cells.new) }
    ensures numbered { IfOk result (λ r. r.segment + r.segments < 2 ^ 32) }
    ensures err { OnErr result (cells.new.items ≡ cells.old.items) }
{
    let from = SEGMENT * run.segment as usize;
    if (run.count as usize) < SEGMENT * run.segments as usize {
        return Ok(run);
    }
    let wider = 2 * run.segments + 1;
    if u32::MAX - segments < wider {
        return Err(AllocError);
    }
    append_piece(cells, from, run.count as usize, SEGMENT * wider as usize)?;
    Ok(Run {
        segment: segments,
        segments: wider,
        count: run.count,
    })
}
