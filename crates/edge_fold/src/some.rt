//! What the next edges of a vertex reduce to, by blocks and edge by edge, as far as a budget goes.
ghost use Rattle.std.specs.Prelude.{◌≡◌, ◌+◌, ◌-◌, ◌*◌, ◌<◌, ◌≤◌, length, take, drop};
ghost use Rattle.past_model.specs.declared.limits.TheConstants.{MOST_VERTICES};
ghost use Rattle.graph_model.specs.Graph.{degree as degree_of, neighbours};
ghost use Rattle.past_model.specs.Past.{graph_of};
ghost use Rattle.map_model.specs.EdgeMap.{reduction_of_numbers};
ghost use Rattle.verifier.specs.Walks.{longest};
ghost use Rattle.edge_fold.specs.declared.budget.TheConstants.{EDGE_COST};
ghost use Rattle.edge_fold.specs.Numbers.{first_numbers, exits_from};
ghost use Rattle.edge_fold.specs.Kept.{AreNumbered, IsFor};
ghost use Rattle.edge_fold.specs.Inputs.{inputs_of};

use crate::blocks::{fill, number_of_lane, some_targets, sweep};
use crate::budget::{cost_in_block, edges_within, pay};
use crate::counted::fold_part;
use crate::few::fold_kept;
use crate::fold::LEAST_IN_BLOCK;
use crate::mapped::Mapped;
use crate::memory::Memory;
use crate::reducing::{combine, nothing};
use crate::span::{Rest, Span};
use bpf_blocks::LANES;
use map_model::Reduction;

/// What the numbers of some edges reduce to, and how many edges these are.
#[derive(Clone, Copy)]
pub(crate) struct Part {
    pub value: u64,
    pub count: usize,
}

/// What the numbers of the first edges in a row reduce to: one edge at least, and more as far as the budget goes. Each of them
/// has a number. They are run by blocks, as far as these can be run at once and are worth it, and the rest edge by edge.
fn fold_slice_some(
    mapped: &Mapped<'_>,
    memory: &mut Memory,
    reduction: Reduction,
    span: Span<'_>,
) -> Part
    requires degree { span.degree ≡ degree_of (graph_of mapped.now.version.now) span.source }
    requires few { span.place + length span.targets.now ≤ MOST_VERTICES }
    requires some { 0 < length span.targets.now }
    requires memory { IsFor mapped.now.program.now memory.old }
    requires kept { let m = mapped.now in
        AreNumbered m.program.now (graph_of m.version.now) (inputs_of m) memory.old.kept }
    ensures value { let m = mapped.now in result.value ≡ reduction_of_numbers reduction
        (first_numbers m.program.now (graph_of m.version.now) (inputs_of m) span.entry result.count) }
    ensures count { let m = mapped.now in
        length (first_numbers m.program.now (graph_of m.version.now) (inputs_of m) span.entry result.count)
        ≡ result.count }
    ensures some { 0 < result.count }
    ensures few { result.count ≤ length span.entry.targets.now }
    ensures cost { memory.old.budget ≤ memory.new.budget + (longest mapped.now.program.now + EDGE_COST) * result.count }
    ensures falls { memory.new.budget ≤ memory.old.budget - EDGE_COST * result.count }
    ensures stops { result.count < length span.entry.targets.now → memory.new.budget ≡ 0 }
    ensures memory { IsFor mapped.now.program.now memory.new }
    ensures kept { let m = mapped.now in
        AreNumbered m.program.now (graph_of m.version.now) (inputs_of m) memory.new.kept }
{
    let all = span.targets.len();
    if let Some(value) = fold_kept(mapped, &mut memory.kept, reduction, span) {
        pay(&mut memory.budget, cost_in_block(mapped.program, all));
        return Part { value, count: all };
    }
    let mut so_far = nothing(reduction);
    let mut at = 0usize;
    'rounds: while memory.blocks.is_useful
        && all - at >= LEAST_IN_BLOCK
        && (at == 0 || memory.budget > 0)
    {
        let blocks = &mut memory.blocks;
        let count = LANES.min(all - at);
        fill(&mut blocks.edges, &span, at, count);
        if !sweep(
            mapped,
            &mut blocks.edges,
            &mut blocks.columns,
            &mut blocks.numbers,
        ) {
            blocks.is_useful = false;
            break;
        }
        'lanes: for lane in 0..count {
            let number = number_of_lane(&blocks.numbers, lane);
            so_far = combine(reduction, so_far, number);
        }
        at += count;
        pay(&mut memory.budget, cost_in_block(mapped.program, count));
    }
    'parts: while at < all && (at == 0 || memory.budget > 0) {
        let count = edges_within(memory.budget, mapped.program, all - at);
        let part = Span {
            source: span.source,
            degree: span.degree,
            place: span.place + at as u32,
            targets: some_targets(span.targets, at, count),
        };
        let folded = fold_part(mapped, &mut memory.run, reduction, part);
        so_far = combine(reduction, so_far, folded.value);
        at += count;
        pay(&mut memory.budget, folded.cost);
    }
    Part {
        value: so_far,
        count: at,
    }
}

/// What the numbers of a vertex's next edges reduce to, from a place on: one edge at least, if any is left, and more as far as the
/// budget goes. Each of them has a number.
pub(crate) fn fold_some(
    mapped: &Mapped<'_>,
    memory: &mut Memory,
    reduction: Reduction,
    rest: Rest<'_>,
) -> Part
    requires degree { rest.source.degree ≡ degree_of (graph_of mapped.now.version.now) rest.source.vertex }
    requires small { rest.source.degree ≤ MOST_VERTICES }
    requires inside { rest.place ≤ rest.source.degree }
    requires neighbours { rest.neighbours ≡ drop rest.place (neighbours
        (graph_of mapped.now.version.now) rest.source.vertex) }
    requires memory { IsFor mapped.now.program.now memory.old }
    requires kept { let m = mapped.now in
        AreNumbered m.program.now (graph_of m.version.now) (inputs_of m) memory.old.kept }
    ensures value { let m = mapped.now in result.value ≡ reduction_of_numbers reduction
        (exits_from m.program.now (graph_of m.version.now)
        (inputs_of m) rest.entry.source.vertex rest.entry.place result.count) }
    ensures count { let m = mapped.now in
        length (exits_from m.program.now (graph_of m.version.now)
        (inputs_of m) rest.entry.source.vertex rest.entry.place result.count)
        ≡ result.count }
    ensures some { rest.entry.place < rest.entry.source.degree → 0 < result.count }
    ensures few { rest.entry.place + result.count ≤ rest.entry.source.degree }
    ensures cost { memory.old.budget ≤ memory.new.budget + (longest mapped.now.program.now + EDGE_COST) * result.count }
    ensures falls { memory.new.budget ≤ memory.old.budget - EDGE_COST * result.count }
    ensures stops { rest.entry.place + result.count < rest.entry.source.degree → memory.new.budget ≡ 0 }
    ensures memory { IsFor mapped.now.program.now memory.new }
    ensures kept { let m = mapped.now in
        AreNumbered m.program.now (graph_of m.version.now) (inputs_of m) memory.new.kept }
{
    let Rest {
        source,
        place,
        neighbours,
    } = rest;
    let mut cursor = neighbours;
    let mut so_far = nothing(reduction);
    let mut at = place;
    let mut goes_on = true;
    'slices: while goes_on && at < source.degree {
        let Some(targets) = cursor.next_slice() else {
            unreachable!()
        };
        let span = Span {
            source: source.vertex,
            degree: source.degree,
            place: at,
            targets,
        };
        let part = fold_slice_some(mapped, memory, reduction, span);
        so_far = combine(reduction, so_far, part.value);
        at += part.count as u32;
        goes_on = memory.budget > 0;
    }
    Part {
        value: so_far,
        count: (at - place) as usize,
    }
}
