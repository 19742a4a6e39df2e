//! Pushes: programs over the edges of a version's vertices whose numbers go to the places of their targets.
ghost use Rattle.std.specs.Prelude.{◌≡◌, ◌≤◌, Some, None, length, true};
ghost use Rattle.past_model.specs.Past.{graph_of};
ghost use Rattle.embedding.specs.Holding.{OnBoth};
ghost use Rattle.embedding.specs.Lent.{lent_of};
ghost use Rattle.embedding.specs.Pushing.{IsPush, IsPushSome, have_push_lengths};
ghost use Rattle.past_model.specs.declared.limits.TheConstants.{MOST_VERTICES};

use crate::held::Held;
use crate::lent::test_lent;
use crate::places::is_at_place;
use crate::runnable::{Edges, Runnable};
use crate::runs::{RunAsked, Totals, reduction_from};
use crate::statuses::{DONE, LENGTHS, OTHER_KIND, PROGRESS, REDUCTION};
use edge_fold::{Progress, Request};
use past_model::MOST_VERTICES;
use version::Version;

/// Whether there is one value for each vertex of a graph, and a frontier is not too long.
fn have_lengths(version: &Version, frontier: &[u32], values: &[u64]) -> bool
    ensures tested { result ≡ have_push_lengths (graph_of version.now) frontier.now values.now }
    ensures long { result ≡ true → length values.now ≡ (graph_of version.now).vertex_count }
    ensures few { result ≡ true → length frontier.now ≤ MOST_VERTICES }
{
    values.len() == version.vertex_count() as usize && frontier.len() <= MOST_VERTICES as usize
}

// Pushes over a frontier. All is tested before anything is written.
fn push(
    version: &Version,
    program: &mut Runnable,
    asked: &RunAsked<'_>,
    values: &mut [u64],
    totals: &mut Totals,
) -> u32
    ensures program { program.new ≡ program.old }
    ensures answered { let a = asked.now in IsPush
        (graph_of version.now) program.old (lent_of a.lent) a.frontier.now a.reduction result values.old totals.old
        values.new totals.new }
{
    let Some(reduction) = reduction_from(asked.reduction) else {
        return REDUCTION;
    };
    let frontier = asked.frontier;
    if !have_lengths(version, frontier, values) {
        return LENGTHS;
    }
    let fault = test_lent(version, program, &asked.lent);
    if fault != DONE {
        return fault;
    }
    let on = Edges {
        version,
        lent: asked.lent,
    };
    let request = Request {
        frontier,
        reduction,
    };
    let end = program.push(&on, &request, values);
    totals.edges = end.edges;
    totals.total = end.total;
    DONE
}

/// Runs the program that a handle holds on each edge of the vertices of a frontier, in the version that another handle holds, and
/// reduces the number of each edge into the value of its target. `values` has one for each vertex of the graph, and keeps what it has
/// where no edge leads; `totals` gets how many edges there were, and what their numbers reduce to. The frontier may have at most
/// 268,435,456 vertices, in any order. It takes no memory. Else nothing is written: `REDUCTION` where there is none of this number,
/// then `LENGTHS` where there is not one value for each vertex of the graph or the frontier is too long, then `COLUMNS` and
/// `ARGUMENT_LENGTH` as for a run.
pub fn push_held(
    graph: &Held,
    code: &mut Held,
    asked: &RunAsked<'_>,
    values: &mut [u64],
    totals: &mut Totals,
) -> u32
    ensures program { code.new ≡ code.old }
    ensures answered { OnBoth (Some graph.now) (Some code.old) result ((values.new ≡ values.old) × (totals.new
        ≡ totals.old))
        (λ past p. IsPush (graph_of past) p (lent_of asked.now.lent) asked.now.frontier.now asked.now.reduction result
        values.old totals.old values.new totals.new) }
{
    let version = match graph {
        Held::Version(version) => version,
        Held::Store(_) => return OTHER_KIND,
        Held::Program(_) => return OTHER_KIND,
    };
    match code {
        Held::Program(program) => push(version, program, asked, values, totals),
        Held::Store(_) => OTHER_KIND,
        Held::Version(_) => OTHER_KIND,
    }
}

// Goes on with a push. All is tested before anything is written.
fn push_some(
    version: &Version,
    program: &mut Runnable,
    asked: &RunAsked<'_>,
    progress: &mut Progress,
    values: &mut [u64],
) -> u32
    ensures program { program.new ≡ program.old }
    ensures answered { let a = asked.now in IsPushSome
        (graph_of version.now) program.old (lent_of a.lent) a.frontier.now a.reduction result progress.old progress.new
        values.old values.new }
{
    let Some(reduction) = reduction_from(asked.reduction) else {
        return REDUCTION;
    };
    let frontier = asked.frontier;
    if !have_lengths(version, frontier, values) {
        return LENGTHS;
    }
    let fault = test_lent(version, program, &asked.lent);
    if fault != DONE {
        return fault;
    }
    if !is_at_place(version, frontier, progress) {
        return PROGRESS;
    }
    let on = Edges {
        version,
        lent: asked.lent,
    };
    let request = Request {
        frontier,
        reduction,
    };
    program.push_some(&on, &request, progress, values);
    DONE
}

/// Goes on with a push over a frontier: it does the next edges, as far as the progress's budget goes, and one edge or one vertex at
/// least, if any is left. `values` has one for each vertex of the graph, and keeps its content from call to call. The push begins at
/// vertex 0 and place 0, and is done where the progress is at the frontier's end: then it has left what `push_held` leaves. Hand in
/// the same version, program, argument, columns, frontier and reduction each time. It takes no memory. Else nothing is written:
/// `REDUCTION`, `LENGTHS`, `COLUMNS` and `ARGUMENT_LENGTH` as for a push, then `PROGRESS` as for a run in parts.
pub fn push_some_held(
    graph: &Held,
    code: &mut Held,
    asked: &RunAsked<'_>,
    progress: &mut Progress,
    values: &mut [u64],
) -> u32
    ensures program { code.new ≡ code.old }
    ensures answered { OnBoth (Some graph.now) (Some code.old) result ((values.new ≡ values.old) × (progress.new
        ≡ progress.old))
        (λ past p. IsPushSome (graph_of past) p (lent_of asked.now.lent) asked.now.frontier.now asked.now.reduction
        result progress.old progress.new values.old values.new) }
{
    let version = match graph {
        Held::Version(version) => version,
        Held::Store(_) => return OTHER_KIND,
        Held::Program(_) => return OTHER_KIND,
    };
    match code {
        Held::Program(program) => push_some(version, program, asked, progress, values),
        Held::Store(_) => OTHER_KIND,
        Held::Version(_) => OTHER_KIND,
    }
}
