//! The map over a frontier as a whole, and its rows.
ghost use Rattle.std.specs.Prelude.{◌≡◌, ◌*◌, ◌≤◌, length, IfOk};
ghost use Rattle.past_model.specs.declared.limits.TheConstants.{MOST_VERTICES};
ghost use Rattle.past_model.specs.Past.{graph_of};
ghost use Rattle.map_model.specs.EdgeMap.{reduction_of_numbers, all_with, rows_with};
ghost use Rattle.map_model.specs.Parts.{values_for};
ghost use Rattle.verifier.specs.Walks.{longest};
ghost use Rattle.edge_fold.specs.Kept.{IsFor};
ghost use Rattle.edge_fold.specs.Rows.{reported_rows};
ghost use Rattle.edge_fold.specs.Inputs.{inputs_of};

use crate::edgeless::pass_edgeless;
use crate::few::{are_few, keep_next, least_alone};
use crate::fold::fold_vertex;
use crate::mapped::{Mapped, Request};
use crate::memory::Memory;
use crate::outcome::MapOutcome;
use crate::reducing::{combine, nothing};
use crate::rows::{Rows, put_row};
use crate::span::Source;
use map_model::{Progress, Row};
use std::alloc::{AllocError, Global};

/// There is room for so many rows before the first vertex, so that a piece of a map takes memory once.
const ROWS_AT_FIRST: usize = 64;

/// Runs a verified program on each edge of the frontier's vertices, on a record of the edge's own in the memory
/// that it is lent, and reduces the numbers that it exits with: those of each vertex, in its row, and all together. The
/// graph is the version's. A vertex outside it has no edge, and one that stands twice is mapped twice. The memory is one
/// for this program; what else it held before does not matter. The only other memory that it takes is for the rows. Each
/// edge has a number: `laws::every_edge_has_its_number`.
pub fn map_frontier(
    alloc: Global,
    memory: &mut Memory,
    mapped: &Mapped<'_>,
    request: &Request<'_>,
    rows: Rows,
) -> Result<MapOutcome, AllocError>
    requires few { length request.now.frontier.now ≤ MOST_VERTICES }
    requires memory { IsFor mapped.now.program.now memory.old }
    // How many edges there are, and what their numbers reduce to.
    ensures edges { IfOk result (λ out. let m = mapped.now in let p = m.program.now in let g = graph_of m.version.now in
        out.edges ≡ length (all_with p (longest p) g (inputs_of m) request.now.frontier.now)) }
    ensures total { IfOk result (λ out. let m = mapped.now in let p = m.program.now in let g = graph_of m.version.now in
        out.total ≡ reduction_of_numbers request.now.reduction
        (all_with p (longest p) g (inputs_of m) request.now.frontier.now)) }
    ensures rows { IfOk result (λ out. let m = mapped.now in let p = m.program.now in let g = graph_of m.version.now in
        out.rows.items ≡ reported_rows rows g
        (rows_with p (longest p) g request.now.reduction (inputs_of m) request.now.frontier.now)) }
    ensures most { IfOk result (λ out. out.edges ≤ length request.now.frontier.now * MOST_VERTICES) }
    // The memory still has the program's table, also where there was no memory for rows.
    ensures memory { IsFor mapped.now.program.now memory.new }
{
    let reduction = request.reduction;
    let frontier = request.frontier;
    let mut out = MapOutcome {
        edges: 0,
        total: nothing(reduction),
        rows: Vec::with_capacity(alloc, frontier.len().min(ROWS_AT_FIRST))?,
    };
    memory.kept.forget();
    let least = least_alone(mapped.program);
    let mut seen = 0usize;
    let mut looked = 0usize;
    for source in frontier {
        let vertex = *source;
        let targets = mapped.version.cursor(vertex);
        let degree = targets.left();
        if seen >= looked && are_few(degree, least) {
            let left = frontier.get(seen..).unwrap_or(&[]);
            looked = seen.saturating_add(keep_next(mapped, memory, left, least));
        }
        seen = seen.wrapping_add(1);
        let source = Source { vertex, degree };
        let value = fold_vertex(mapped, memory, reduction, source, targets);
        out.edges += u64::from(degree);
        out.total = combine(reduction, out.total, value);
        put_row(&mut out.rows, rows, Row { vertex, value }, degree)?;
    }
    Ok(out)
}

/// Runs a verified program on each edge of the frontier's vertices, as `map_frontier` does, and writes a value for each vertex. It
/// answers the frontier's end as a progress, which has the edges and the total. A map in parts comes to the same:
/// `map_model::laws::parts_are_the_whole`. It takes no memory besides.
pub fn map_whole(
    memory: &mut Memory,
    mapped: &Mapped<'_>,
    request: &Request<'_>,
    values: &mut [u64],
) -> Progress
    requires few { length request.now.frontier.now ≤ MOST_VERTICES }
    requires long { length values.old ≡ length request.now.frontier.now }
    requires memory { IsFor mapped.now.program.now memory.old }
    ensures values { let m = mapped.now in let p = m.program.now in let g = graph_of m.version.now in
        let r = request.now in
        values.new ≡ values_for p (longest p) g r.reduction (inputs_of m) r.frontier.now }
    ensures edges { let m = mapped.now in let p = m.program.now in let g = graph_of m.version.now in
        result.edges ≡ length (all_with p (longest p) g (inputs_of m) request.now.frontier.now) }
    ensures total { let m = mapped.now in let p = m.program.now in let g = graph_of m.version.now in result.total
        ≡ reduction_of_numbers request.now.reduction (all_with p (longest p) g (inputs_of m) request.now.frontier.now) }
    ensures vertex { result.vertex ≡ length request.now.frontier.now }
    ensures place { result.place ≡ 0 }
    ensures memory { IsFor mapped.now.program.now memory.new }
{
    let reduction = request.reduction;
    let frontier = request.frontier;
    memory.kept.forget();
    let least = least_alone(mapped.program);
    let mut edges = 0u64;
    let mut total = nothing(reduction);
    let mut looked = 0usize;
    let mut at = 0usize;
    'vertices: while at < frontier.len() {
        let vertex = frontier[at];
        let targets = mapped.version.cursor(vertex);
        let degree = targets.left();
        if degree == 0 {
            at = pass_edgeless(mapped, request, values, at..frontier.len());
            continue;
        }
        if at >= looked && are_few(degree, least) {
            let left = frontier.get(at..).unwrap_or(&[]);
            looked = at.saturating_add(keep_next(mapped, memory, left, least));
        }
        let source = Source { vertex, degree };
        let value = fold_vertex(mapped, memory, reduction, source, targets);
        values[at] = value;
        edges += u64::from(degree);
        total = combine(reduction, total, value);
        at += 1;
    }
    Progress {
        budget: 0,
        edges,
        total,
        vertex: frontier.len() as u32,
        place: 0,
    }
}
