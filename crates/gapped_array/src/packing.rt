//! The space that closed runs and moved ones left.
ghost use Rattle.std.specs.Prelude.{◌≡◌, ◌≤◌, ◌<◌, ◌+◌, ◌-◌, ◌*◌, ◌++◌, length, take, drop, vec_len, None, Some};
ghost use Rattle.gapped_array.specs.Runs.{IsLayout, IsFirstBelow, lists_in, words_in, live};

use crate::run::{Run, SEGMENT};

/// How many segments there are beyond twice those of the runs.
pub(crate) fn surplus(segments: u32, runs: &[Option<Run>]) -> u32
    ensures { result ≡ segments - 2 * live runs.now }
{
    let mut left = segments;
    for run in runs {
        if let Some(run) = run {
            left = left
                .saturating_sub(run.segments)
                .saturating_sub(run.segments);
        }
    }
    left
}

/// The first run that begins at or after a segment and has some, with its vertex.
fn first_from(runs: &[Option<Run>], from: u32) -> Option<(usize, Run)>
    ensures { IsFirstBelow (length runs.now) from runs.now result }
{
    let mut first = None;
    for vertex in 0..runs.len() {
        first = earlier(runs, from, first, vertex);
    }
    first
}

// That among the vertices up to this one, where it is known among those before.
fn earlier(
    runs: &[Option<Run>],
    from: u32,
    first: Option<(usize, Run)>,
    vertex: usize,
) -> Option<(usize, Run)>
    requires listed { vertex < length runs.now }
    requires known { IsFirstBelow vertex from runs.now first }
    ensures { IsFirstBelow (vertex + 1) from runs.now result }
{
    let Some(run) = runs[vertex] else {
        return first;
    };
    if run.segment < from || run.segments == 0 {
        return first;
    }
    match first {
        Some((_, before)) if before.segment <= run.segment => first,
        _ => Some((vertex, run)),
    }
}

/// Moves the words of a run to the front of a segment.
fn move_words(cells: &mut Vec<u32>, run: Run, segment: u32)
    requires down { segment ≤ run.segment }
    requires within { SEGMENT * run.segment + run.count ≤ vec_len cells.old }
    ensures { cells.new.items ≡ take (SEGMENT * segment) cells.old.items ++ (words_in cells.old.items run
        ++ drop (SEGMENT * segment + run.count) cells.old.items) }
{
    let from = SEGMENT * run.segment as usize;
    cells.copy_within(from..from + run.count as usize, SEGMENT * segment as usize);
}

/// Moves all runs together, in their order, so that they alone have segments. Answers how many these are.
pub(crate) fn pack(cells: &mut Vec<u32>, segments: u32, runs: &mut Vec<Option<Run>>) -> u32
    requires { IsLayout cells.old.items segments runs.old.items }
    ensures layout { IsLayout cells.new.items result runs.new.items }
    ensures lists { lists_in cells.new.items runs.new.items ≡ lists_in cells.old.items runs.old.items }
    ensures space { result ≡ live runs.new.items }
{
    let mut end = 0;
    while let Some((vertex, run)) = first_from(runs, end) {
        move_words(cells, run, end);
        runs[vertex] = Some(Run {
            segment: end,
            ..run
        });
        end += run.segments;
    }
    cells.truncate(SEGMENT * end as usize);
    end
}
