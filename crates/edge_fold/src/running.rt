//! Runs of single edges, and of edges in a row, one after another.
ghost use Rattle.std.specs.Prelude.{◌≡◌, ◌+◌, ◌*◌, ◌^◌, ◌≤◌, ◌++◌, true, Some, map, length, take, drop};
ghost use Rattle.graph_model.specs.Graph.{degree};
ghost use Rattle.past_model.specs.Past.{graph_of};
ghost use Rattle.bpf_model.specs.Run.{number_for};
ghost use Rattle.map_model.specs.EdgeMap.{input_record, reduction_of_numbers};
ghost use Rattle.map_model.specs.declared.limits.TheConstants.{EDGE_BYTES, COLUMN_BYTES};
ghost use Rattle.verifier.specs.Walks.{longest};
ghost use Rattle.verifier.specs.Writing.{KeepsRecords};
ghost use Rattle.edge_fold.specs.Numbers.{record_bytes, BeginAlike, span_numbers};
ghost use Rattle.bpf_runs.specs.Held.{HoldsTable};
ghost use Rattle.edge_fold.specs.Inputs.{inputs_of, end_bytes, edge_bytes};

use crate::edge::Edge;
use crate::ends::write_ends;
use crate::mapped::Mapped;
use crate::reducing::{combine, nothing};
use crate::span::Span;
use bpf_runs::{RECORD_ROOM, run_in_memory};
use map_model::{COLUMN_BYTES, EDGE_BYTES, Reduction};

/// Writes the record of an edge at the beginning of a memory.
#[inline(always)]
fn write_edge(memory: &mut bpf_runs::Memory, edge: Edge, argument: &[u8])
    requires { length argument.now + EDGE_BYTES ≤ RECORD_ROOM }
    ensures record { take (length argument.now + EDGE_BYTES) memory.new.bytes ≡ record_bytes edge argument.now }
    ensures rest { drop RECORD_ROOM memory.new.bytes ≡ drop RECORD_ROOM memory.old.bytes }
{
    let bytes = &mut memory.bytes[..argument.len() + EDGE_BYTES];
    edge.write_record(bytes, argument);
}

/// Writes the record of an edge where a memory begins with the one of an edge from the same source.
#[inline(always)]
fn write_next(memory: &mut bpf_runs::Memory, edge: Edge, argument: &[u8])
    requires room { length argument.now + EDGE_BYTES ≤ RECORD_ROOM }
    requires begun { BeginAlike edge argument.now memory.old.bytes }
    ensures record { take (length argument.now + EDGE_BYTES) memory.new.bytes ≡ record_bytes edge argument.now }
    ensures rest { drop RECORD_ROOM memory.new.bytes ≡ drop RECORD_ROOM memory.old.bytes }
{
    let bytes = &mut memory.bytes[..argument.len() + EDGE_BYTES];
    edge.write_target(bytes);
}

/// Writes what columns have for the ends of an edge into a memory, from a place on.
// Runs without columns have a loop without this code, which would take registers from it.
#[inline(never)]
fn write_columns(memory: &mut bpf_runs::Memory, from: usize, columns: &[&[u64]], edge: Edge)
    requires { from + COLUMN_BYTES * length columns.now ≤ RECORD_ROOM }
    ensures record { take (from + COLUMN_BYTES * length columns.now) memory.new.bytes
        ≡ take from memory.old.bytes ++ end_bytes (map (λ column. column.now) columns.now) edge.source edge.target }
    ensures rest { drop RECORD_ROOM memory.new.bytes ≡ drop RECORD_ROOM memory.old.bytes }
{
    let bytes = &mut memory.bytes[from..from + COLUMN_BYTES * columns.len()];
    write_ends(bytes, columns, edge);
}

/// Writes the record of an edge, up to its argument's end, at the beginning of a memory: what differs alone, where it begins with the
/// one of an edge from the same source.
#[inline(always)]
fn write_front(memory: &mut bpf_runs::Memory, edge: Edge, argument: &[u8], is_begun: bool)
    requires room { length argument.now + EDGE_BYTES ≤ RECORD_ROOM }
    requires begun { is_begun ≡ true → BeginAlike edge argument.now memory.old.bytes }
    ensures record { take (length argument.now + EDGE_BYTES) memory.new.bytes ≡ record_bytes edge argument.now }
    ensures rest { drop RECORD_ROOM memory.new.bytes ≡ drop RECORD_ROOM memory.old.bytes }
{
    if is_begun {
        write_next(memory, edge, argument);
    } else {
        write_edge(memory, edge, argument);
    }
}

/// Writes the record of an edge, with all that its run is lent, at the beginning of a memory, which may begin with the one of an edge
/// from the same source.
#[inline(always)]
pub(crate) fn prepare(
    mapped: &Mapped<'_>,
    memory: &mut bpf_runs::Memory,
    edge: Edge,
    is_begun: bool,
)
    requires begun { is_begun ≡ true → BeginAlike edge mapped.now.argument.now memory.old.bytes }
    ensures record { take mapped.now.program.now.record_length memory.new.bytes
        ≡ edge_bytes edge (inputs_of mapped.now) }
    ensures rest { drop RECORD_ROOM memory.new.bytes ≡ drop RECORD_ROOM memory.old.bytes }
{
    let _length = mapped.program.image().record_length();
    write_front(memory, edge, mapped.argument, is_begun);
    if mapped.columns.is_empty() {
        return;
    }
    let from = mapped.argument.len() + EDGE_BYTES;
    write_columns(memory, from, mapped.columns, edge);
}

/// The exit number of an edge of a version, run on a record of its own in the memory that is lent, which has the program's
/// table. What else the memory held before does not matter, unless `is_begun` says that it begins with the record of an edge
/// from the same source: then only what differs is written.
#[inline(always)]
pub(crate) fn run_edge(
    mapped: &Mapped<'_>,
    memory: &mut bpf_runs::Memory,
    edge: Edge,
    is_begun: bool,
) -> u64
    requires degree { edge.degree ≡ degree (graph_of mapped.now.version.now) edge.source }
    requires begun { is_begun ≡ true → BeginAlike edge mapped.now.argument.now memory.old.bytes }
    requires table { HoldsTable mapped.now.program.now.table memory.old.bytes }
    ensures number { let m = mapped.now in let p = m.program.now in let g = graph_of m.version.now in
        let bytes = input_record g edge.source edge.target edge.place (inputs_of m) in
        number_for p (longest p) g bytes ≡ Some result }
    // A program that keeps its records leaves this one in the memory.
    ensures kept { let a = mapped.now.argument.now in KeepsRecords mapped.now.program.now →
        take (length a + EDGE_BYTES) memory.new.bytes ≡ record_bytes edge a }
    ensures table { HoldsTable mapped.now.program.now.table memory.new.bytes }
{
    prepare(mapped, memory, edge, is_begun);
    let (number, _) = run_in_memory(mapped.program, memory, mapped.version);
    number
}

/// What the numbers of edges in a row reduce to. Each of them has one. The record is written once, and for each further edge
/// what differs, where the program never writes to memory.
// The loop of a run is part of this loop, so it is called once for many edges.
#[inline(never)]
pub(crate) fn fold_span(
    mapped: &Mapped<'_>,
    memory: &mut bpf_runs::Memory,
    reduction: Reduction,
    span: Span<'_>,
) -> u64
    requires degree { span.degree ≡ degree (graph_of mapped.now.version.now) span.source }
    requires few { span.place + length span.targets.now ≤ 2 ^ 32 }
    requires table { HoldsTable mapped.now.program.now.table memory.old.bytes }
    ensures value { let m = mapped.now in result
        ≡ reduction_of_numbers reduction (span_numbers m.program.now (graph_of m.version.now)
        (inputs_of m) span.entry) }
    ensures count { let m = mapped.now in
        length (span_numbers m.program.now (graph_of m.version.now) (inputs_of m) span.entry)
        ≡ length span.entry.targets.now }
    ensures table { HoldsTable mapped.now.program.now.table memory.new.bytes }
{
    let mapped = *mapped;
    let keeps = !mapped.program.writes();
    let mut is_begun = false;
    let mut so_far = nothing(reduction);
    'targets: for at in 0..span.targets.len() {
        let edge = Edge {
            source: span.source,
            target: span.targets[at],
            place: span.place + at as u32,
            degree: span.degree,
        };
        let number = run_edge(&mapped, memory, edge, is_begun);
        is_begun = keeps;
        so_far = combine(reduction, so_far, number);
    }
    so_far
}

/// The exit number of an edge of a version, run in the memory that is lent, which has the program's table.
pub(crate) fn number_alone(mapped: &Mapped<'_>, memory: &mut bpf_runs::Memory, edge: Edge) -> u64
    requires degree { edge.degree ≡ degree (graph_of mapped.now.version.now) edge.source }
    requires table { HoldsTable mapped.now.program.now.table memory.old.bytes }
    ensures number { let m = mapped.now in let p = m.program.now in let g = graph_of m.version.now in
        let bytes = input_record g edge.source edge.target edge.place (inputs_of m) in
        number_for p (longest p) g bytes ≡ Some result }
    ensures table { HoldsTable mapped.now.program.now.table memory.new.bytes }
{
    let targets = [edge.target];
    let span = Span {
        source: edge.source,
        degree: edge.degree,
        place: edge.place,
        targets: &targets,
    };
    fold_span(mapped, memory, Reduction::Max, span)
}
