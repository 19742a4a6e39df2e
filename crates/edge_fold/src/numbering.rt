//! The numbers of a version's edges, each written to its place.
ghost use Rattle.std.specs.Prelude.{◌≡◌, ◌+◌, ◌≤◌, ◌++◌, false, length, drop};
ghost use Rattle.past_model.specs.declared.limits.TheConstants.{MOST_VERTICES};
ghost use Rattle.graph_model.specs.Graph.{degree as degree_of};
ghost use Rattle.graph_model.specs.Graph.{edge_count, neighbours, numbers_below};
ghost use Rattle.past_model.specs.Past.{graph_of};
ghost use Rattle.map_model.specs.EdgeMap.{exits_with, all_with};
ghost use Rattle.verifier.specs.Walks.{longest};
ghost use Rattle.edge_fold.specs.Kept.{IsFor};
ghost use Rattle.edge_fold.specs.Numbers.{first_numbers, span_numbers};
ghost use Rattle.bpf_runs.specs.Held.{HoldsTable};
ghost use Rattle.edge_fold.specs.Inputs.{inputs_of};
ghost use Rattle.edge_fold.specs.declared.fold.TheConstants.{LEAST_IN_BLOCK};

use crate::blocks::{Blocks, fill, sweep, targets_from};
use crate::edge::Edge;
use crate::fold::LEAST_IN_BLOCK;
use crate::mapped::Mapped;
use crate::memory::Memory;
use crate::running::run_edge;
use crate::span::Span;
use bpf_blocks::LANES;
use cursors::Cursor;

/// Writes the numbers of a span's first edges to the first places, if there are edges enough for a block and it can be run at
/// once. Returns how many; 0 if it cannot.
pub(crate) fn number_block(
    mapped: &Mapped<'_>,
    blocks: &mut Blocks,
    span: Span<'_>,
    numbers: &mut [u64],
) -> usize
    requires degree { span.degree ≡ degree_of (graph_of mapped.now.version.now) span.source }
    requires few { span.place + length span.targets.now ≤ MOST_VERTICES }
    requires long { length numbers.old ≡ length span.targets.now }
    ensures count { result ≤ length span.entry.targets.now }
    ensures numbers { let m = mapped.now in numbers.new
        ≡ first_numbers m.program.now (graph_of m.version.now) (inputs_of m) span.entry result
        ++ drop result numbers.old }
    ensures given_up { result ≡ 0 → LEAST_IN_BLOCK ≤ length span.entry.targets.now → blocks.new.is_useful ≡ false }
{
    let count = LANES.min(span.targets.len());
    if count < LEAST_IN_BLOCK || !blocks.is_useful {
        return 0;
    }
    fill(&mut blocks.edges, &span, 0, count);
    if !sweep(
        mapped,
        &mut blocks.edges,
        &mut blocks.columns,
        &mut blocks.numbers,
    ) {
        blocks.is_useful = false;
        return 0;
    }
    numbers[..count].copy_from_slice(&blocks.numbers[..count]);
    count
}

/// Writes the numbers of edges in a row, edge by edge. The record is written once, and for each further edge what differs, where
/// the program never writes to memory.
#[inline(always)]
pub(crate) fn number_singly(
    mapped: &Mapped<'_>,
    memory: &mut bpf_runs::Memory,
    span: Span<'_>,
    numbers: &mut [u64],
)
    requires degree { span.degree ≡ degree_of (graph_of mapped.now.version.now) span.source }
    requires few { span.place + length span.targets.now ≤ MOST_VERTICES }
    requires long { length numbers.old ≡ length span.targets.now }
    requires table { HoldsTable mapped.now.program.now.table memory.old.bytes }
    ensures numbers { let m = mapped.now in
        numbers.new ≡ span_numbers m.program.now (graph_of m.version.now) (inputs_of m) span.entry }
    ensures table { HoldsTable mapped.now.program.now.table memory.new.bytes }
{
    let mapped = *mapped;
    let keeps = !mapped.program.writes();
    let mut is_begun = false;
    'targets: for at in 0..span.targets.len() {
        let edge = Edge {
            source: span.source,
            target: span.targets[at],
            place: span.place + at as u32,
            degree: span.degree,
        };
        numbers[at] = run_edge(&mapped, memory, edge, is_begun);
        is_begun = keeps;
    }
}

/// Writes the numbers of edges in a row: by blocks, as far as these can be run at once and are worth it, and the rest edge by edge.
fn number_span(mapped: &Mapped<'_>, memory: &mut Memory, span: Span<'_>, numbers: &mut [u64])
    requires degree { span.degree ≡ degree_of (graph_of mapped.now.version.now) span.source }
    requires few { span.place + length span.targets.now ≤ MOST_VERTICES }
    requires long { length numbers.old ≡ length span.targets.now }
    requires memory { IsFor mapped.now.program.now memory.old }
    ensures numbers { let m = mapped.now in
        numbers.new ≡ span_numbers m.program.now (graph_of m.version.now) (inputs_of m) span.entry }
    ensures memory { IsFor mapped.now.program.now memory.new }
{
    let mut at = 0usize;
    'rounds: while at < span.targets.len() {
        let rest = Span {
            source: span.source,
            degree: span.degree,
            place: span.place + at as u32,
            targets: targets_from(span.targets, at),
        };
        let count = number_block(mapped, &mut memory.blocks, rest, &mut numbers[at..]);
        if count == 0 {
            number_singly(mapped, &mut memory.run, rest, &mut numbers[at..]);
            return;
        }
        at += count;
    }
}

/// Writes the numbers of a vertex's edges, whose targets a cursor lends.
fn number_vertex(
    mapped: &Mapped<'_>,
    memory: &mut Memory,
    source: u32,
    cursor: Cursor<'_>,
    numbers: &mut [u64],
)
    requires cursor { cursor ≡ neighbours (graph_of mapped.now.version.now) source }
    requires long { length numbers.old ≡ degree_of (graph_of mapped.now.version.now) source }
    requires memory { IsFor mapped.now.program.now memory.old }
    ensures numbers { let m = mapped.now in let p = m.program.now in
        numbers.new ≡ exits_with p (longest p) (graph_of m.version.now) (inputs_of m) source }
    ensures memory { IsFor mapped.now.program.now memory.new }
{
    let mut rest = cursor;
    let degree = rest.left();
    let mut place = 0u32;
    'slices: while place < degree {
        let Some(targets) = rest.next_slice() else {
            unreachable!()
        };
        let span = Span {
            source,
            degree,
            place,
            targets,
        };
        let from = place as usize;
        place += targets.len() as u32;
        number_span(mapped, memory, span, &mut numbers[from..place as usize]);
    }
}

/// Writes the number of each edge of a version: sources ascending, and targets ascending for each. The memory is one for this
/// program; what else it held before does not matter. It takes no memory besides.
pub fn number_edges(mapped: &Mapped<'_>, memory: &mut Memory, numbers: &mut [u64])
    requires long { length numbers.old ≡ edge_count (graph_of mapped.now.version.now) }
    requires memory { IsFor mapped.now.program.now memory.old }
    ensures numbers { let m = mapped.now in let p = m.program.now in let g = graph_of m.version.now in
        numbers.new ≡ all_with p (longest p) g (inputs_of m) (numbers_below g.vertex_count) }
    ensures memory { IsFor mapped.now.program.now memory.new }
{
    let mut at = 0usize;
    'sources: for source in 0..mapped.version.vertex_count() {
        let cursor = mapped.version.cursor(source);
        let end = at + cursor.left() as usize;
        number_vertex(mapped, memory, source, cursor, &mut numbers[at..end]);
        at = end;
    }
}
