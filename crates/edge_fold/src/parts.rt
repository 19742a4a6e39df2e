//! The map over a frontier in parts: each call goes on where the one before stopped.
ghost use Rattle.std.specs.Prelude.{◌≡◌, ◌+◌, ◌-◌, ◌*◌, ◌^◌, ◌%◌, ◌<◌, ◌≤◌, ◌⊎◌, [], take, drop, length, nat_lt, slice_index};
ghost use Rattle.graph_model.specs.Graph.{degree as degree_of};
ghost use Rattle.past_model.specs.declared.limits.TheConstants.{MOST_VERTICES};
ghost use Rattle.past_model.specs.Past.{graph_of};
ghost use Rattle.map_model.specs.EdgeMap.{all_with, reduction_of_numbers};
ghost use Rattle.map_model.specs.Parts.{IsPlace, IsBefore, IsSoFar, HasBegun, cost_before, values_for};
ghost use Rattle.verifier.specs.Walks.{longest};
ghost use Rattle.edge_fold.specs.declared.budget.TheConstants.{EDGE_COST, VERTEX_COST};
ghost use Rattle.edge_fold.specs.Numbers.{combination, exits_from};
ghost use Rattle.edge_fold.specs.Kept.{AreNumbered, IsFor};
ghost use Rattle.edge_fold.specs.Inputs.{inputs_of};

use crate::budget::{VERTEX_COST, pay};
use crate::edgeless::pass_edgeless;
use crate::few::{are_few, keep_next, least_alone};
use crate::mapped::{Mapped, Request};
use crate::memory::Memory;
use crate::reducing::{combine, nothing};
use crate::some::{Part, fold_some};
use crate::span::{Rest, Source};
use map_model::{Progress, Reduction};

/// So many of the next vertices are looked at for a block that they share: those without neighbours are passed.
pub(crate) const MOST_LOOKED: usize = 1024;

/// The totals of no edges, where a map begins.
pub(crate) fn begin(progress: &mut Progress, reduction: Reduction)
    ensures first { progress.old.vertex ≡ 0 → progress.old.place ≡ 0
        → (progress.new.edges ≡ 0) × (progress.new.total ≡ reduction_of_numbers reduction []) }
    ensures later { (0 < progress.old.vertex) ⊎ (0 < progress.old.place) → progress.new ≡ progress.old }
    ensures vertex { progress.new.vertex ≡ progress.old.vertex }
    ensures place { progress.new.place ≡ progress.old.place }
    ensures budget { progress.new.budget ≡ progress.old.budget }
{
    if progress.vertex == 0 && progress.place == 0 {
        progress.edges = 0;
        progress.total = nothing(reduction);
    }
}

/// Adds what a vertex's next edges have to the totals, and goes to the place after them.
pub(crate) fn add(progress: &mut Progress, reduction: Reduction, part: &Part)
    requires { progress.old.place + part.now.count ≤ MOST_VERTICES }
    ensures edges { progress.new.edges ≡ (progress.old.edges + part.now.count) % 2 ^ 64 }
    ensures total { progress.new.total ≡ combination reduction progress.old.total part.now.value }
    ensures place { progress.new.place ≡ progress.old.place + part.now.count }
    ensures vertex { progress.new.vertex ≡ progress.old.vertex }
{
    progress.edges = progress.edges.wrapping_add(part.count as u64);
    progress.total = combine(reduction, progress.total, part.value);
    progress.place += part.count as u32;
}

/// What a vertex's first edges reduce to, of those that were done before and the next ones. There were none before at place 0.
fn value_of(reduction: Reduction, place: u32, before: u64, next: u64) -> u64
    ensures first { place ≡ 0 → result ≡ next }
    ensures later { 0 < place → result ≡ combination reduction before next }
{
    if place == 0 {
        return next;
    }
    combine(reduction, before, next)
}

/// Passes over a vertex that has no edge, and over those after it that have none, as far as the budget goes. Returns whether any of
/// it is left.
fn pass_some(
    mapped: &Mapped<'_>,
    request: &Request<'_>,
    progress: &mut Progress,
    values: &mut [u64],
) -> bool
    requires few { length request.now.frontier.now ≤ MOST_VERTICES }
    requires inside { progress.old.vertex < length request.now.frontier.now }
    requires none { degree_of (graph_of mapped.now.version.now)
        (slice_index request.now.frontier.now progress.old.vertex) ≡ 0 }
    requires long { length values.old ≡ length request.now.frontier.now }
    ensures on { progress.old.vertex < progress.new.vertex }
    ensures inside { progress.new.vertex ≤ length request.now.frontier.now }
    ensures place { progress.new.place ≡ progress.old.place }
    ensures edges { progress.new.edges ≡ progress.old.edges }
    ensures total { progress.new.total ≡ progress.old.total }
    ensures budget { progress.new.budget ≡ progress.old.budget - VERTEX_COST *
        (progress.new.vertex - progress.old.vertex) }
    ensures left { result ≡ nat_lt 0 progress.new.budget }
    // They add no number.
    ensures numbers { let m = mapped.now in let p = m.program.now in
        let all = all_with p (longest p) (graph_of m.version.now) (inputs_of m) in let f = request.now.frontier.now in
        all (take progress.new.vertex f) ≡ all (take progress.old.vertex f) }
    ensures values { let m = mapped.now in let p = m.program.now in let g = graph_of m.version.now in
        let of = values_for p (longest p) g request.now.reduction (inputs_of m) in let f = request.now.frontier.now in
        take progress.old.vertex values.old ≡ of (take progress.old.vertex f)
        → take progress.new.vertex values.new ≡ of (take progress.new.vertex f) }
    ensures rest { drop progress.new.vertex values.new ≡ drop progress.new.vertex values.old }
    ensures long { length values.new ≡ length values.old }
{
    let at = progress.vertex as usize;
    let more = (progress.budget.saturating_sub(1) / VERTEX_COST) as usize;
    let end = request.frontier.len().min((at + 1).saturating_add(more));
    let next = pass_edgeless(mapped, request, values, at..end);
    pay(&mut progress.budget, VERTEX_COST * (next - at) as u64);
    progress.vertex = next as u32;
    progress.budget > 0
}

/// Runs a verified program on the next edges of the frontier's vertices, as far as the budget goes: one edge or vertex at least,
/// if any is left. `values` has a place for each vertex: those that are done have their values afterwards, and the next one has
/// that of its edges so far; the others stay as they are. A map begins where the progress is at vertex 0 and place 0, and is done
/// where it is at the frontier's end. In between hand in what the call before left. The memory is one for this program; what else
/// it held before does not matter. The call takes no memory besides.
pub fn map_some(
    memory: &mut Memory,
    mapped: &Mapped<'_>,
    request: &Request<'_>,
    progress: &mut Progress,
    values: &mut [u64],
)
    requires few { length request.now.frontier.now ≤ MOST_VERTICES }
    requires long { length values.old ≡ length request.now.frontier.now }
    requires place { IsPlace (graph_of mapped.now.version.now) request.now.frontier.now progress.old }
    requires memory { IsFor mapped.now.program.now memory.old }
    // What was written is that of the edges before the place, however the map was cut.
    ensures so_far { let m = mapped.now in let p = m.program.now in let g = graph_of m.version.now in
        let r = request.now in
        HasBegun p (longest p) g r.reduction (inputs_of m) r.frontier.now progress.old values.old
        → IsSoFar p (longest p) g r.reduction (inputs_of m) r.frontier.now progress.new values.new }
    ensures place { IsPlace (graph_of mapped.now.version.now) request.now.frontier.now progress.new }
    ensures on { progress.old.vertex < length request.now.frontier.now → IsBefore progress.old progress.new }
    // The values of vertices that were not begun stay.
    ensures rest { drop (progress.new.vertex + 1) values.new ≡ drop (progress.new.vertex + 1) values.old }
    // It stops at the end, or where the budget is used up.
    ensures stops { (progress.new.vertex ≡ length request.now.frontier.now) ⊎ (progress.new.budget ≡ 0) }
    // The budget falls by no more than the bound and a constant for each edge, and a constant for each vertex; and by these
    // constants at least, as far as it goes.
    ensures cost { let m = mapped.now in let p = m.program.now in let g = graph_of m.version.now in
        let f = request.now.frontier.now in let most = cost_before (longest p + EDGE_COST) VERTEX_COST p (longest p) g
        (inputs_of m) f in
        progress.old.budget + most progress.old ≤ progress.new.budget + most progress.new }
    ensures falls { let m = mapped.now in let p = m.program.now in let g = graph_of m.version.now in
        let least = cost_before EDGE_COST VERTEX_COST p (longest p) g (inputs_of m) request.now.frontier.now in
        progress.new.budget ≤ progress.old.budget + least progress.old - least progress.new }
    ensures memory { IsFor mapped.now.program.now memory.new }
{
    let frontier = request.frontier;
    let _count = mapped.version.vertex_count();
    memory.kept.forget();
    begin(progress, request.reduction);
    let least = least_alone(mapped.program);
    let mut looked = 0usize;
    let mut goes_on = true;
    'vertices: while goes_on && (progress.vertex as usize) < frontier.len() {
        let at = progress.vertex as usize;
        let vertex = frontier[at];
        let neighbours = mapped.version.cursor(vertex);
        let degree = neighbours.left();
        if degree == 0 {
            goes_on = pass_some(mapped, request, progress, values);
            continue;
        }
        if at >= looked && are_few(degree, least) {
            let end = frontier.len().min(at.saturating_add(MOST_LOOKED));
            let left = frontier.get(at..end).unwrap_or(&[]);
            looked = at.saturating_add(keep_next(mapped, memory, left, least));
        }
        let place = progress.place;
        let rest = Rest {
            source: Source { vertex, degree },
            place,
            neighbours: neighbours.skip(place),
        };
        memory.budget = progress.budget;
        let part = fold_some(mapped, memory, request.reduction, rest);
        values[at] = value_of(request.reduction, progress.place, values[at], part.value);
        add(progress, request.reduction, &part);
        progress.budget = memory.budget;
        if progress.place < degree {
            return;
        }
        pay(&mut progress.budget, VERTEX_COST);
        progress.vertex += 1;
        progress.place = 0;
        goes_on = progress.budget > 0;
    }
}
