//! The numbers of the next edges of a frontier, as far as a budget and the room go.
ghost use Rattle.std.specs.Prelude.{◌≡◌, ◌+◌, ◌-◌, ◌*◌, ◌^◌, ◌%◌, ◌<◌, ◌≤◌, ◌⊎◌, ◌++◌, length, drop, take};
ghost use Rattle.past_model.specs.declared.limits.TheConstants.{MOST_VERTICES};
ghost use Rattle.graph_model.specs.Graph.{degree as degree_of, neighbours};
ghost use Rattle.past_model.specs.Past.{graph_of};
ghost use Rattle.map_model.specs.Parts.{IsPlace, IsBefore, numbers_before, cost_before};
ghost use Rattle.verifier.specs.Walks.{longest};
ghost use Rattle.edge_fold.specs.declared.budget.TheConstants.{EDGE_COST, VERTEX_COST};
ghost use Rattle.edge_fold.specs.Kept.{IsFor};
ghost use Rattle.edge_fold.specs.Numbers.{first_numbers, exits_from};
ghost use Rattle.edge_fold.specs.Inputs.{inputs_of};

use crate::blocks::{first_targets, targets_from};
use crate::budget::{VERTEX_COST, cost_in_block, edges_within, pay};
use crate::counted::number_row;
use crate::mapped::Mapped;
use crate::memory::Memory;
use crate::numbering::number_block;
use crate::span::{Rest, Source, Span};
use map_model::Progress;

/// Writes the numbers of the first edges in a row, edge by edge, and answers how many: one at least, and as many as surely fit the
/// budget.
fn number_next(
    mapped: &Mapped<'_>,
    memory: &mut Memory,
    span: Span<'_>,
    numbers: &mut [u64],
) -> usize
    requires degree { span.degree ≡ degree_of (graph_of mapped.now.version.now) span.source }
    requires few { span.place + length span.targets.now ≤ MOST_VERTICES }
    requires long { length numbers.old ≡ length span.targets.now }
    requires some { 0 < length span.targets.now }
    requires memory { IsFor mapped.now.program.now memory.old }
    ensures numbers { let m = mapped.now in numbers.new
        ≡ first_numbers m.program.now (graph_of m.version.now) (inputs_of m) span.entry result
        ++ drop result numbers.old }
    ensures few { result ≤ length span.entry.targets.now }
    ensures some { 0 < result }
    ensures cost { memory.old.budget ≤ memory.new.budget + (longest mapped.now.program.now + EDGE_COST) * result }
    ensures falls { memory.new.budget ≤ memory.old.budget - EDGE_COST * result }
    ensures memory { IsFor mapped.now.program.now memory.new }
{
    let count = edges_within(memory.budget, mapped.program, span.targets.len());
    let part = Span {
        source: span.source,
        degree: span.degree,
        place: span.place,
        targets: first_targets(span.targets, count),
    };
    let cost = number_row(mapped, &mut memory.run, part, &mut numbers[..count]);
    pay(&mut memory.budget, cost);
    count
}

/// Writes the numbers of the first edges in a row, and answers how many: those of a block, if that can be run at once and is worth
/// it, or else some edge by edge, one at least.
fn number_round(
    mapped: &Mapped<'_>,
    memory: &mut Memory,
    span: Span<'_>,
    numbers: &mut [u64],
) -> usize
    requires degree { span.degree ≡ degree_of (graph_of mapped.now.version.now) span.source }
    requires few { span.place + length span.targets.now ≤ MOST_VERTICES }
    requires long { length numbers.old ≡ length span.targets.now }
    requires some { 0 < length span.targets.now }
    requires memory { IsFor mapped.now.program.now memory.old }
    ensures numbers { let m = mapped.now in numbers.new
        ≡ first_numbers m.program.now (graph_of m.version.now) (inputs_of m) span.entry result
        ++ drop result numbers.old }
    ensures few { result ≤ length span.entry.targets.now }
    ensures some { 0 < result }
    ensures cost { memory.old.budget ≤ memory.new.budget + (longest mapped.now.program.now + EDGE_COST) * result }
    ensures falls { memory.new.budget ≤ memory.old.budget - EDGE_COST * result }
    ensures memory { IsFor mapped.now.program.now memory.new }
{
    let count = number_block(mapped, &mut memory.blocks, span, numbers);
    if count == 0 {
        return number_next(mapped, memory, span, numbers);
    }
    pay(&mut memory.budget, cost_in_block(mapped.program, count));
    count
}

/// Writes the numbers of the first edges in a row, and answers how many: one at least, if there is any, and more as far as the
/// budget goes. They are run by blocks, as far as these can be run at once and are worth it, and the rest edge by edge.
fn number_span_some(
    mapped: &Mapped<'_>,
    memory: &mut Memory,
    span: Span<'_>,
    numbers: &mut [u64],
) -> usize
    requires degree { span.degree ≡ degree_of (graph_of mapped.now.version.now) span.source }
    requires few { span.place + length span.targets.now ≤ MOST_VERTICES }
    requires long { length numbers.old ≡ length span.targets.now }
    requires memory { IsFor mapped.now.program.now memory.old }
    ensures numbers { let m = mapped.now in numbers.new
        ≡ first_numbers m.program.now (graph_of m.version.now) (inputs_of m) span.entry result
        ++ drop result numbers.old }
    ensures count { let m = mapped.now in
        length (first_numbers m.program.now (graph_of m.version.now) (inputs_of m) span.entry result) ≡ result }
    ensures few { result ≤ length span.entry.targets.now }
    ensures some { 0 < length span.entry.targets.now → 0 < result }
    ensures cost { memory.old.budget ≤ memory.new.budget + (longest mapped.now.program.now + EDGE_COST) * result }
    ensures falls { memory.new.budget ≤ memory.old.budget - EDGE_COST * result }
    ensures stops { result < length span.entry.targets.now → memory.new.budget ≡ 0 }
    ensures memory { IsFor mapped.now.program.now memory.new }
{
    let mut at = 0usize;
    'rounds: while at < span.targets.len() && (at == 0 || memory.budget > 0) {
        let rest = Span {
            source: span.source,
            degree: span.degree,
            place: span.place + at as u32,
            targets: targets_from(span.targets, at),
        };
        at += number_round(mapped, memory, rest, &mut numbers[at..]);
    }
    at
}

/// Writes the numbers of a vertex's next edges, from a place on, and answers how many: one edge at least, if any is left and there
/// is room, and more as far as the budget and the room go.
fn number_part(
    mapped: &Mapped<'_>,
    memory: &mut Memory,
    rest: Rest<'_>,
    numbers: &mut [u64],
) -> usize
    requires degree { rest.source.degree ≡ degree_of (graph_of mapped.now.version.now) rest.source.vertex }
    requires small { rest.source.degree ≤ MOST_VERTICES }
    requires inside { rest.place ≤ rest.source.degree }
    requires neighbours { rest.neighbours ≡ drop rest.place (neighbours
        (graph_of mapped.now.version.now) rest.source.vertex) }
    requires memory { IsFor mapped.now.program.now memory.old }
    ensures numbers { let m = mapped.now in numbers.new
        ≡ exits_from m.program.now (graph_of m.version.now)
        (inputs_of m) rest.entry.source.vertex rest.entry.place result ++ drop result numbers.old }
    ensures count { let m = mapped.now in
        length (exits_from m.program.now (graph_of m.version.now)
        (inputs_of m) rest.entry.source.vertex rest.entry.place result) ≡ result }
    ensures room { result ≤ length numbers.old }
    ensures few { rest.entry.place + result ≤ rest.entry.source.degree }
    ensures some { rest.entry.place < rest.entry.source.degree → 0 < length numbers.old → 0 < result }
    ensures cost { memory.old.budget ≤ memory.new.budget + (longest mapped.now.program.now + EDGE_COST) * result }
    ensures falls { memory.new.budget ≤ memory.old.budget - EDGE_COST * result }
    ensures stops { rest.entry.place + result < rest.entry.source.degree → (memory.new.budget ≡ 0)
        ⊎ (result ≡ length numbers.old) }
    ensures memory { IsFor mapped.now.program.now memory.new }
{
    let Rest {
        source,
        place,
        neighbours,
    } = rest;
    let most = numbers.len().min((source.degree - place) as usize);
    let mut cursor = neighbours;
    let mut written = 0usize;
    let mut goes_on = true;
    'slices: while goes_on && written < most {
        let Some(targets) = cursor.next_slice() else {
            unreachable!()
        };
        let count = targets.len().min(most - written);
        let span = Span {
            source: source.vertex,
            degree: source.degree,
            place: place + written as u32,
            targets: first_targets(targets, count),
        };
        let end = written + count;
        written += number_span_some(mapped, memory, span, &mut numbers[written..end]);
        goes_on = memory.budget > 0;
    }
    written
}

/// Writes the numbers of the next edges of a frontier's vertices, one vertex after another and targets ascending, as far as the
/// budget and the room go: one edge or vertex at least, if any is left and there is room for a number. It answers how many it
/// wrote. The work begins and goes on as `map_some` says; `total` stays. It takes no memory.
pub fn number_some(
    memory: &mut Memory,
    mapped: &Mapped<'_>,
    frontier: &[u32],
    progress: &mut Progress,
    numbers: &mut [u64],
) -> usize
    requires few { length frontier.now ≤ MOST_VERTICES }
    requires place { IsPlace (graph_of mapped.now.version.now) frontier.now progress.old }
    requires memory { IsFor mapped.now.program.now memory.old }
    // What was written is that of the edges between the two places.
    ensures numbers { let m = mapped.now in let p = m.program.now in let g = graph_of m.version.now in
        numbers_before p (longest p) g (inputs_of m) frontier.now progress.new
        ≡ numbers_before p (longest p) g (inputs_of m) frontier.now progress.old ++ take result numbers.new }
    ensures rest { drop result numbers.new ≡ drop result numbers.old }
    ensures room { result ≤ length numbers.old }
    ensures edges { progress.new.edges ≡ (progress.old.edges + result) % 2 ^ 64 }
    ensures total { progress.new.total ≡ progress.old.total }
    ensures place { IsPlace (graph_of mapped.now.version.now) frontier.now progress.new }
    ensures on { progress.old.vertex < length frontier.now → 0 < length numbers.old
        → IsBefore progress.old progress.new }
    // It stops at the end, or where the budget is used up, or where the room is.
    ensures stops { (progress.new.vertex ≡ length frontier.now) ⊎ (progress.new.budget ≡ 0) ⊎ (result
        ≡ length numbers.old) }
    ensures cost { let m = mapped.now in let p = m.program.now in let g = graph_of m.version.now in
        let most = cost_before (longest p + EDGE_COST) VERTEX_COST p (longest p) g (inputs_of m) frontier.now in
        progress.old.budget + most progress.old ≤ progress.new.budget + most progress.new }
    ensures falls { let m = mapped.now in let p = m.program.now in let g = graph_of m.version.now in
        let least = cost_before EDGE_COST VERTEX_COST p (longest p) g (inputs_of m) frontier.now in
        progress.new.budget ≤ progress.old.budget + least progress.old - least progress.new }
    ensures memory { IsFor mapped.now.program.now memory.new }
{
    let mut written = 0usize;
    let mut goes_on = true;
    'vertices: while goes_on && (progress.vertex as usize) < frontier.len() {
        let vertex = frontier[progress.vertex as usize];
        let neighbours = mapped.version.cursor(vertex);
        let degree = neighbours.left();
        let place = progress.place;
        let rest = Rest {
            source: Source { vertex, degree },
            place,
            neighbours: neighbours.skip(place),
        };
        memory.budget = progress.budget;
        let count = number_part(mapped, memory, rest, &mut numbers[written..]);
        written += count;
        progress.edges = progress.edges.wrapping_add(count as u64);
        progress.place += count as u32;
        progress.budget = memory.budget;
        if progress.place < degree {
            return written;
        }
        pay(&mut progress.budget, VERTEX_COST);
        progress.vertex += 1;
        progress.place = 0;
        goes_on = progress.budget > 0;
    }
    written
}
