//! Programs over the edges of a version's vertices.
ghost use Rattle.std.specs.Prelude.{◌≡◌, Some, None};
ghost use Rattle.past_model.specs.Past.{graph_of};
ghost use Rattle.embedding.specs.Holding.{OnBoth};
ghost use Rattle.embedding.specs.Lent.{lent_of};
ghost use Rattle.embedding.specs.Parts.{IsPullSome};
ghost use Rattle.embedding.specs.Runs.{reduction_at, IsPull};

use crate::held::Held;
use crate::lent::test_lent;
use crate::places::is_at_place;
use crate::runnable::{Edges, Lent, Runnable};
use crate::statuses::{DONE, LENGTHS, OTHER_KIND, PROGRESS, REDUCTION};
use edge_fold::{Progress, Reduction, Request};
use past_model::MOST_VERTICES;
use version::Version;

/// What all edges of a run have together.
#[repr(C)]
#[derive(Clone, Copy, Debug, PartialEq, Eq)]
pub struct Totals {
    /// How many edges there are, each with a number.
    pub edges: u64,
    /// What all numbers reduce to.
    pub total: u64,
}

/// What a host asks of a run.
#[derive(Clone, Copy)]
pub struct RunAsked<'a> {
    /// What each run is lent besides its edge.
    pub lent: Lent<'a>,
    /// The vertices whose edges the program runs on, at most 268,435,456 of them in any order.
    pub frontier: &'a [u32],
    /// What the numbers are reduced to: 0 is the sum, 1 the least and 2 the greatest.
    pub reduction: u32,
}

/// The reduction of a number: 0 is the sum, 1 the least and 2 the greatest.
pub(crate) fn reduction_from(number: u32) -> Option<Reduction>
    ensures { result ≡ reduction_at number }
{
    match number {
        0 => Some(Reduction::Sum),
        1 => Some(Reduction::Min),
        2 => Some(Reduction::Max),
        _ => None,
    }
}

// Runs a program over a frontier. All is tested before anything is written.
#[tactic(auto, using(crate::proofs::RunValues::values_of_rows))]
fn run(
    version: &Version,
    program: &mut Runnable,
    asked: &RunAsked<'_>,
    values: &mut [u64],
    totals: &mut Totals,
) -> u32
    ensures program { program.new ≡ program.old }
    ensures answered { let a = asked.now in IsPull
        (graph_of version.now) program.old (lent_of a.lent) a.frontier.now a.reduction result values.old totals.old
        values.new totals.new }
{
    let Some(reduction) = reduction_from(asked.reduction) else {
        return REDUCTION;
    };
    let frontier = asked.frontier;
    if values.len() != frontier.len() || frontier.len() > MOST_VERTICES as usize {
        return LENGTHS;
    }
    let fault = test_lent(version, program, &asked.lent);
    if fault != DONE {
        return fault;
    }
    let on = Edges {
        version,
        lent: asked.lent,
    };
    let request = Request {
        frontier,
        reduction,
    };
    let end = program.map(&on, &request, values);
    totals.edges = end.edges;
    totals.total = end.total;
    DONE
}

/// Runs the program that a handle holds on each edge of the vertices of a frontier, in the version that another handle holds,
/// and writes for each vertex what its numbers reduce to, and for all together how many edges there were and what their
/// numbers reduce to. The frontier may have at most 268,435,456 vertices, in any order. It takes no memory. Else nothing is written:
/// `REDUCTION` where there is none of this number, then `LENGTHS` where there is not one value for each vertex or they are too
/// many, then `COLUMNS` where there are more than 8 or one has not a number for each vertex, then `ARGUMENT_LENGTH`.
pub fn run_held(
    graph: &Held,
    code: &mut Held,
    asked: &RunAsked<'_>,
    values: &mut [u64],
    totals: &mut Totals,
) -> u32
    ensures program { code.new ≡ code.old }
    ensures answered { OnBoth (Some graph.now) (Some code.old) result ((values.new ≡ values.old) × (totals.new
        ≡ totals.old))
        (λ past p. IsPull (graph_of past) p (lent_of asked.now.lent) asked.now.frontier.now asked.now.reduction result
        values.old totals.old values.new totals.new) }
{
    let version = match graph {
        Held::Version(version) => version,
        Held::Store(_) => return OTHER_KIND,
        Held::Program(_) => return OTHER_KIND,
    };
    match code {
        Held::Program(program) => run(version, program, asked, values, totals),
        Held::Store(_) => OTHER_KIND,
        Held::Version(_) => OTHER_KIND,
    }
}

// Goes on with a run. All is tested before anything is written.
fn run_some(
    version: &Version,
    program: &mut Runnable,
    asked: &RunAsked<'_>,
    progress: &mut Progress,
    values: &mut [u64],
) -> u32
    ensures program { program.new ≡ program.old }
    ensures answered { let a = asked.now in IsPullSome
        (graph_of version.now) program.old (lent_of a.lent) a.frontier.now a.reduction result progress.old progress.new
        values.old values.new }
{
    let Some(reduction) = reduction_from(asked.reduction) else {
        return REDUCTION;
    };
    let frontier = asked.frontier;
    if values.len() != frontier.len() || frontier.len() > MOST_VERTICES as usize {
        return LENGTHS;
    }
    let fault = test_lent(version, program, &asked.lent);
    if fault != DONE {
        return fault;
    }
    if !is_at_place(version, frontier, progress) {
        return PROGRESS;
    }
    let on = Edges {
        version,
        lent: asked.lent,
    };
    let request = Request {
        frontier,
        reduction,
    };
    program.map_some(&on, &request, progress, values);
    DONE
}

/// Goes on with a run over a frontier: it does the next edges, as far as the progress's budget goes, and one edge or one vertex at
/// least, if any is left. `values` has one place for each vertex, and keeps its content from call to call. The run begins at vertex 0
/// and place 0, and is done where the progress is at the frontier's end: then it has written what `run_held` writes. Hand in the same
/// version, program, argument, frontier and reduction each time. It takes no memory. Else nothing is written: `REDUCTION`,
/// `LENGTHS`, `COLUMNS` and `ARGUMENT_LENGTH` as for a run, then `PROGRESS` where the progress is past the frontier, past a vertex's edges, or at
/// the frontier's end with a place.
pub fn run_some_held(
    graph: &Held,
    code: &mut Held,
    asked: &RunAsked<'_>,
    progress: &mut Progress,
    values: &mut [u64],
) -> u32
    ensures program { code.new ≡ code.old }
    ensures answered { OnBoth (Some graph.now) (Some code.old) result ((values.new ≡ values.old) × (progress.new
        ≡ progress.old))
        (λ past p. IsPullSome (graph_of past) p (lent_of asked.now.lent) asked.now.frontier.now asked.now.reduction
        result progress.old progress.new values.old values.new) }
{
    let version = match graph {
        Held::Version(version) => version,
        Held::Store(_) => return OTHER_KIND,
        Held::Program(_) => return OTHER_KIND,
    };
    match code {
        Held::Program(program) => run_some(version, program, asked, progress, values),
        Held::Store(_) => OTHER_KIND,
        Held::Version(_) => OTHER_KIND,
    }
}
