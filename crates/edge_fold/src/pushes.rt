//! Pushes over a frontier in parts: the number of each edge is reduced into the place of its target.
ghost use Rattle.std.specs.Prelude.{◌≡◌, ◌+◌, ◌-◌, ◌*◌, ◌<◌, ◌≤◌, ◌⊎◌, ℕ, List, length, take, drop, slice_index};
ghost use Rattle.past_model.specs.declared.limits.TheConstants.{MOST_VERTICES};
ghost use Rattle.graph_model.specs.Graph.{degree as degree_of, neighbours};
ghost use Rattle.past_model.specs.Past.{graph_of};
ghost use Rattle.map_model.specs.EdgeMap.{all_with, reduction_of_numbers};
ghost use Rattle.map_model.specs.Parts.{IsPlace, IsBefore, cost_before};
ghost use Rattle.map_model.specs.Pushes.{pushed};
ghost use Rattle.map_model.specs.PushParts.{IsPushedSoFar, HasBegunPush, pushed_edges};
ghost use Rattle.verifier.specs.Walks.{longest};
ghost use Rattle.edge_fold.specs.declared.budget.TheConstants.{EDGE_COST, VERTEX_COST};
ghost use Rattle.edge_fold.specs.Inputs.{inputs_of};
ghost use Rattle.edge_fold.specs.Kept.{AreNumbered, IsFor};
ghost use Rattle.edge_fold.specs.Numbers.{exits_from, first_numbers};

use crate::blocks::targets_from;
use crate::budget::{VERTEX_COST, pay};
use crate::few::{are_few, keep_next, least_alone};
use crate::mapped::{Mapped, Request};
use crate::memory::Memory;
use crate::parts::{MOST_LOOKED, add, begin};
use crate::reducing::{combine, nothing};
use crate::rounds::push_round;
use crate::some::Part;
use crate::span::{Rest, Source, Span};
use map_model::{Progress, Reduction};

/// Pushes the numbers of the first edges in a row: one edge at least, and more as far as the budget goes. Each of them has a number.
fn push_slice(
    mapped: &Mapped<'_>,
    memory: &mut Memory,
    reduction: Reduction,
    span: Span<'_>,
    values: &mut [u64],
) -> Part
    requires degree { span.degree ≡ degree_of (graph_of mapped.now.version.now) span.source }
    requires few { span.place + length span.targets.now ≤ MOST_VERTICES }
    requires some { 0 < length span.targets.now }
    requires inside { (i : ℕ) → i < length span.targets.now → slice_index span.targets.now i < length values.old }
    requires memory { IsFor mapped.now.program.now memory.old }
    requires kept { let m = mapped.now in
        AreNumbered m.program.now (graph_of m.version.now) (inputs_of m) memory.old.kept }
    ensures values { let m = mapped.now in values.new ≡ pushed reduction (take result.count span.entry.targets.now)
        (first_numbers m.program.now (graph_of m.version.now) (inputs_of m) span.entry result.count) values.old }
    ensures long { length values.new ≡ length values.old }
    ensures value { let m = mapped.now in result.value ≡ reduction_of_numbers reduction
        (first_numbers m.program.now (graph_of m.version.now) (inputs_of m) span.entry result.count) }
    ensures count { let m = mapped.now in
        length (first_numbers m.program.now (graph_of m.version.now) (inputs_of m) span.entry result.count)
        ≡ result.count }
    ensures some { 0 < result.count }
    ensures few { result.count ≤ length span.entry.targets.now }
    ensures cost { memory.old.budget ≤ memory.new.budget + (longest mapped.now.program.now + EDGE_COST) * result.count }
    ensures falls { memory.new.budget ≤ memory.old.budget - EDGE_COST * result.count }
    ensures stops { result.count < length span.entry.targets.now → memory.new.budget ≡ 0 }
    ensures memory { IsFor mapped.now.program.now memory.new }
    ensures kept { let m = mapped.now in
        AreNumbered m.program.now (graph_of m.version.now) (inputs_of m) memory.new.kept }
{
    let mut so_far = nothing(reduction);
    let mut at = 0usize;
    'rounds: while at < span.targets.len() && (at == 0 || memory.budget > 0) {
        let rest = Span {
            source: span.source,
            degree: span.degree,
            place: span.place + at as u32,
            targets: targets_from(span.targets, at),
        };
        let part = push_round(mapped, memory, reduction, rest, values);
        so_far = combine(reduction, so_far, part.value);
        at += part.count;
    }
    Part {
        value: so_far,
        count: at,
    }
}

/// Pushes the numbers of a vertex's next edges: one edge at least, if any is left, and more as far as the budget goes. Each of them
/// has a number.
fn push_vertex(
    mapped: &Mapped<'_>,
    memory: &mut Memory,
    reduction: Reduction,
    rest: Rest<'_>,
    values: &mut [u64],
) -> Part
    requires degree { rest.source.degree ≡ degree_of (graph_of mapped.now.version.now) rest.source.vertex }
    requires small { rest.source.degree ≤ MOST_VERTICES }
    requires inside { rest.place ≤ rest.source.degree }
    requires neighbours { rest.neighbours ≡ drop rest.place (neighbours
        (graph_of mapped.now.version.now) rest.source.vertex) }
    requires long { length values.old ≡ (graph_of mapped.now.version.now).vertex_count }
    requires memory { IsFor mapped.now.program.now memory.old }
    requires kept { let m = mapped.now in
        AreNumbered m.program.now (graph_of m.version.now) (inputs_of m) memory.old.kept }
    ensures values { let m = mapped.now in let g = graph_of m.version.now in values.new
        ≡ pushed reduction (take result.count (drop rest.entry.place (neighbours g rest.entry.source.vertex)))
        (exits_from m.program.now g (inputs_of m) rest.entry.source.vertex rest.entry.place result.count) values.old }
    ensures long { length values.new ≡ length values.old }
    ensures value { let m = mapped.now in result.value ≡ reduction_of_numbers reduction
        (exits_from m.program.now (graph_of m.version.now)
        (inputs_of m) rest.entry.source.vertex rest.entry.place result.count) }
    ensures count { let m = mapped.now in
        length (exits_from m.program.now (graph_of m.version.now)
        (inputs_of m) rest.entry.source.vertex rest.entry.place result.count)
        ≡ result.count }
    ensures some { rest.entry.place < rest.entry.source.degree → 0 < result.count }
    ensures few { rest.entry.place + result.count ≤ rest.entry.source.degree }
    ensures cost { memory.old.budget ≤ memory.new.budget + (longest mapped.now.program.now + EDGE_COST) * result.count }
    ensures falls { memory.new.budget ≤ memory.old.budget - EDGE_COST * result.count }
    ensures stops { rest.entry.place + result.count < rest.entry.source.degree → memory.new.budget ≡ 0 }
    ensures memory { IsFor mapped.now.program.now memory.new }
    ensures kept { let m = mapped.now in
        AreNumbered m.program.now (graph_of m.version.now) (inputs_of m) memory.new.kept }
{
    let Rest {
        source,
        place,
        neighbours,
    } = rest;
    let mut cursor = neighbours;
    let mut so_far = nothing(reduction);
    let mut at = place;
    let mut goes_on = true;
    'slices: while goes_on && at < source.degree {
        let Some(targets) = cursor.next_slice() else {
            unreachable!()
        };
        let span = Span {
            source: source.vertex,
            degree: source.degree,
            place: at,
            targets,
        };
        let part = push_slice(mapped, memory, reduction, span, values);
        so_far = combine(reduction, so_far, part.value);
        at += part.count as u32;
        goes_on = memory.budget > 0;
    }
    Part {
        value: so_far,
        count: (at - place) as usize,
    }
}

/// Runs a verified program on the next edges of the frontier's vertices, as far as the budget goes, and reduces the number of each
/// into the place of its target: one edge or vertex at least, if any is left. `values` has a place for each vertex of the graph;
/// those that no edge leads to stay. A push begins where the progress is at vertex 0 and place 0, and is done where it is at the
/// frontier's end. In between hand in what the call before left. The memory is one for this program; what else it held before does
/// not matter. The call takes no memory besides.
pub fn push_some(
    memory: &mut Memory,
    mapped: &Mapped<'_>,
    request: &Request<'_>,
    progress: &mut Progress,
    values: &mut [u64],
)
    requires few { length request.now.frontier.now ≤ MOST_VERTICES }
    requires long { length values.old ≡ (graph_of mapped.now.version.now).vertex_count }
    requires place { IsPlace (graph_of mapped.now.version.now) request.now.frontier.now progress.old }
    requires memory { IsFor mapped.now.program.now memory.old }
    // What was left is the push of the edges before the place, however it was cut.
    ensures so_far { let m = mapped.now in let p = m.program.now in let g = graph_of m.version.now in
        let r = request.now in (first : List ℕ)
        → HasBegunPush p (longest p) g r.reduction (inputs_of m) r.frontier.now progress.old first values.old
        → IsPushedSoFar p (longest p) g r.reduction (inputs_of m) r.frontier.now progress.new first values.new }
    ensures long { length values.new ≡ length values.old }
    ensures place { IsPlace (graph_of mapped.now.version.now) request.now.frontier.now progress.new }
    ensures on { progress.old.vertex < length request.now.frontier.now → IsBefore progress.old progress.new }
    // It stops at the end, or where the budget is used up.
    ensures stops { (progress.new.vertex ≡ length request.now.frontier.now) ⊎ (progress.new.budget ≡ 0) }
    // The budget falls by no more than the bound and a constant for each edge, and a constant for each vertex; and by these
    // constants at least, as far as it goes.
    ensures cost { let m = mapped.now in let p = m.program.now in let g = graph_of m.version.now in
        let f = request.now.frontier.now in let most = cost_before (longest p + EDGE_COST) VERTEX_COST p (longest p) g
        (inputs_of m) f in
        progress.old.budget + most progress.old ≤ progress.new.budget + most progress.new }
    ensures falls { let m = mapped.now in let p = m.program.now in let g = graph_of m.version.now in
        let least = cost_before EDGE_COST VERTEX_COST p (longest p) g (inputs_of m) request.now.frontier.now in
        progress.new.budget ≤ progress.old.budget + least progress.old - least progress.new }
    ensures memory { IsFor mapped.now.program.now memory.new }
{
    let frontier = request.frontier;
    let _count = mapped.version.vertex_count();
    memory.kept.forget();
    begin(progress, request.reduction);
    let least = least_alone(mapped.program);
    let mut looked = 0usize;
    let mut goes_on = true;
    'vertices: while goes_on && (progress.vertex as usize) < frontier.len() {
        let at = progress.vertex as usize;
        let vertex = frontier[at];
        let neighbours = mapped.version.cursor(vertex);
        let degree = neighbours.left();
        if at >= looked && are_few(degree, least) {
            let end = frontier.len().min(at.saturating_add(MOST_LOOKED));
            let left = frontier.get(at..end).unwrap_or(&[]);
            looked = at.saturating_add(keep_next(mapped, memory, left, least));
        }
        let rest = Rest {
            source: Source { vertex, degree },
            place: progress.place,
            neighbours: neighbours.skip(progress.place),
        };
        memory.budget = progress.budget;
        let part = push_vertex(mapped, memory, request.reduction, rest, values);
        add(progress, request.reduction, &part);
        progress.budget = memory.budget;
        if progress.place < degree {
            return;
        }
        pay(&mut progress.budget, VERTEX_COST);
        progress.vertex += 1;
        progress.place = 0;
        goes_on = progress.budget > 0;
    }
}

/// Runs a verified program on each edge of the frontier's vertices, and reduces the number of each into the place of its target.
/// `values` has a place for each vertex of the graph; those that no edge leads to stay. It answers the frontier's end as a progress,
/// which has the edges and the total. It takes no memory.
pub fn push_whole(
    memory: &mut Memory,
    mapped: &Mapped<'_>,
    request: &Request<'_>,
    values: &mut [u64],
) -> Progress
    requires few { length request.now.frontier.now ≤ MOST_VERTICES }
    requires long { length values.old ≡ (graph_of mapped.now.version.now).vertex_count }
    requires memory { IsFor mapped.now.program.now memory.old }
    ensures values { let m = mapped.now in let p = m.program.now in let g = graph_of m.version.now in
        let r = request.now in
        values.new ≡ pushed_edges p (longest p) g r.reduction (inputs_of m) r.frontier.now values.old }
    ensures edges { let m = mapped.now in let p = m.program.now in let g = graph_of m.version.now in
        result.edges ≡ length (all_with p (longest p) g (inputs_of m) request.now.frontier.now) }
    ensures total { let m = mapped.now in let p = m.program.now in let g = graph_of m.version.now in result.total
        ≡ reduction_of_numbers request.now.reduction (all_with p (longest p) g (inputs_of m) request.now.frontier.now) }
    ensures memory { IsFor mapped.now.program.now memory.new }
{
    let _count = mapped.version.vertex_count();
    let mut progress = Progress {
        budget: u64::MAX,
        edges: 0,
        total: nothing(request.reduction),
        vertex: 0,
        place: 0,
    };
    'parts: while (progress.vertex as usize) < request.frontier.len() {
        progress.budget = u64::MAX;
        push_some(memory, mapped, request, &mut progress, values);
    }
    progress
}
