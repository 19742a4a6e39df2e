//! Runs of edges whose work is counted, for calls with a budget.
ghost use Rattle.std.specs.Prelude.{◌≡◌, ◌+◌, ◌*◌, ◌^◌, ◌≤◌, true, Some, length, take};
ghost use Rattle.graph_model.specs.Graph.{degree};
ghost use Rattle.past_model.specs.declared.limits.TheConstants.{MOST_VERTICES};
ghost use Rattle.past_model.specs.Past.{graph_of};
ghost use Rattle.bpf_model.specs.Run.{number_for};
ghost use Rattle.map_model.specs.EdgeMap.{input_record, reduction_of_numbers};
ghost use Rattle.map_model.specs.declared.limits.TheConstants.{EDGE_BYTES};
ghost use Rattle.verifier.specs.Walks.{longest};
ghost use Rattle.verifier.specs.Writing.{KeepsRecords};
ghost use Rattle.edge_fold.specs.Numbers.{record_bytes, BeginAlike, span_numbers};
ghost use Rattle.edge_fold.specs.declared.budget.TheConstants.{EDGE_COST};
ghost use Rattle.bpf_runs.specs.Held.{HoldsTable};
ghost use Rattle.edge_fold.specs.Inputs.{inputs_of};

use crate::budget::{cost_alone, cost_in_block};
use crate::edge::Edge;
use crate::mapped::Mapped;
use crate::numbering::number_singly;
use crate::reducing::{combine, nothing};
use crate::running::{fold_span, prepare};
use crate::span::Span;
use bpf_runs::{Ended, run_counted};
use map_model::Reduction;
use verifier::Verified;

/// Whether the work of a program's runs is counted. Without local calls no run passes over more than the program's units.
fn is_counted(program: &Verified) -> bool {
    program.bound() as usize > program.actions().len()
}

/// What `run_edge` does, with the work that the run took.
#[inline(always)]
pub(crate) fn run_edge_counted(
    mapped: &Mapped<'_>,
    memory: &mut bpf_runs::Memory,
    edge: Edge,
    is_begun: bool,
) -> Ended
    requires degree { edge.degree ≡ degree (graph_of mapped.now.version.now) edge.source }
    requires begun { is_begun ≡ true → BeginAlike edge mapped.now.argument.now memory.old.bytes }
    requires table { HoldsTable mapped.now.program.now.table memory.old.bytes }
    ensures number { let m = mapped.now in let p = m.program.now in let g = graph_of m.version.now in
        let bytes = input_record g edge.source edge.target edge.place (inputs_of m) in
        number_for p (longest p) g bytes ≡ Some result.number }
    // A program that keeps its records leaves this one in the memory.
    ensures kept { let a = mapped.now.argument.now in KeepsRecords mapped.now.program.now →
        take (length a + EDGE_BYTES) memory.new.bytes ≡ record_bytes edge a }
    ensures table { HoldsTable mapped.now.program.now.table memory.new.bytes }
{
    prepare(mapped, memory, edge, is_begun);
    run_counted(mapped.program, memory, mapped.version)
}

/// What the numbers of edges in a row reduce to, and what they cost.
#[derive(Clone, Copy)]
pub(crate) struct Folded {
    pub value: u64,
    pub cost: u64,
}

/// What the numbers of edges in a row reduce to, and what they cost. Each of them has a number. The record is written once, and
/// for each further edge what differs, where the program never writes to memory.
// The loop of a run is part of this loop, so it is called once for many edges.
#[inline(never)]
fn fold_counted(
    mapped: &Mapped<'_>,
    memory: &mut bpf_runs::Memory,
    reduction: Reduction,
    span: Span<'_>,
) -> Folded
    requires degree { span.degree ≡ degree (graph_of mapped.now.version.now) span.source }
    requires few { span.place + length span.targets.now ≤ 2 ^ 32 }
    requires short { length span.targets.now ≤ MOST_VERTICES }
    requires table { HoldsTable mapped.now.program.now.table memory.old.bytes }
    ensures value { let m = mapped.now in result.value
        ≡ reduction_of_numbers reduction (span_numbers m.program.now (graph_of m.version.now)
        (inputs_of m) span.entry) }
    ensures count { let m = mapped.now in
        length (span_numbers m.program.now (graph_of m.version.now) (inputs_of m) span.entry)
        ≡ length span.entry.targets.now }
    ensures cost { result.cost ≤ (longest mapped.now.program.now + EDGE_COST) * length span.entry.targets.now }
    ensures least { EDGE_COST * length span.entry.targets.now ≤ result.cost }
    ensures table { HoldsTable mapped.now.program.now.table memory.new.bytes }
{
    let mapped = *mapped;
    let keeps = !mapped.program.writes();
    let mut is_begun = false;
    let mut value = nothing(reduction);
    let mut passed = 0u64;
    'targets: for at in 0..span.targets.len() {
        let edge = Edge {
            source: span.source,
            target: span.targets[at],
            place: span.place + at as u32,
            degree: span.degree,
        };
        let ended = run_edge_counted(&mapped, memory, edge, is_begun);
        is_begun = keeps;
        value = combine(reduction, value, ended.number);
        passed = passed.wrapping_add(u64::from(ended.passed));
    }
    let cost = cost_alone(mapped.program, span.targets.len(), passed);
    Folded { value, cost }
}

/// What the numbers of edges in a row reduce to, and what they cost. Each of them has a number.
pub(crate) fn fold_part(
    mapped: &Mapped<'_>,
    memory: &mut bpf_runs::Memory,
    reduction: Reduction,
    span: Span<'_>,
) -> Folded
    requires degree { span.degree ≡ degree (graph_of mapped.now.version.now) span.source }
    requires few { span.place + length span.targets.now ≤ 2 ^ 32 }
    requires short { length span.targets.now ≤ MOST_VERTICES }
    requires table { HoldsTable mapped.now.program.now.table memory.old.bytes }
    ensures value { let m = mapped.now in result.value
        ≡ reduction_of_numbers reduction (span_numbers m.program.now (graph_of m.version.now)
        (inputs_of m) span.entry) }
    ensures count { let m = mapped.now in
        length (span_numbers m.program.now (graph_of m.version.now) (inputs_of m) span.entry)
        ≡ length span.entry.targets.now }
    ensures cost { result.cost ≤ (longest mapped.now.program.now + EDGE_COST) * length span.entry.targets.now }
    ensures least { EDGE_COST * length span.entry.targets.now ≤ result.cost }
    ensures table { HoldsTable mapped.now.program.now.table memory.new.bytes }
{
    if is_counted(mapped.program) {
        return fold_counted(mapped, memory, reduction, span);
    }
    let cost = cost_in_block(mapped.program, span.targets.len());
    let value = fold_span(mapped, memory, reduction, span);
    Folded { value, cost }
}

/// Writes the numbers of edges in a row, edge by edge, and answers what they cost. The record is written once, and for each further
/// edge what differs, where the program never writes to memory.
fn number_counted(
    mapped: &Mapped<'_>,
    memory: &mut bpf_runs::Memory,
    span: Span<'_>,
    numbers: &mut [u64],
) -> u64
    requires degree { span.degree ≡ degree (graph_of mapped.now.version.now) span.source }
    requires few { span.place + length span.targets.now ≤ MOST_VERTICES }
    requires long { length numbers.old ≡ length span.targets.now }
    requires table { HoldsTable mapped.now.program.now.table memory.old.bytes }
    ensures numbers { let m = mapped.now in
        numbers.new ≡ span_numbers m.program.now (graph_of m.version.now) (inputs_of m) span.entry }
    ensures cost { result ≤ (longest mapped.now.program.now + EDGE_COST) * length span.entry.targets.now }
    ensures least { EDGE_COST * length span.entry.targets.now ≤ result }
    ensures table { HoldsTable mapped.now.program.now.table memory.new.bytes }
{
    let keeps = !mapped.program.writes();
    let mut is_begun = false;
    let mut passed = 0u64;
    'targets: for at in 0..span.targets.len() {
        let edge = Edge {
            source: span.source,
            target: span.targets[at],
            place: span.place + at as u32,
            degree: span.degree,
        };
        let ended = run_edge_counted(mapped, memory, edge, is_begun);
        numbers[at] = ended.number;
        passed = passed.wrapping_add(u64::from(ended.passed));
        is_begun = keeps;
    }
    cost_alone(mapped.program, span.targets.len(), passed)
}

/// Writes the numbers of edges in a row, edge by edge, and answers what they cost.
pub(crate) fn number_row(
    mapped: &Mapped<'_>,
    memory: &mut bpf_runs::Memory,
    span: Span<'_>,
    numbers: &mut [u64],
) -> u64
    requires degree { span.degree ≡ degree (graph_of mapped.now.version.now) span.source }
    requires few { span.place + length span.targets.now ≤ MOST_VERTICES }
    requires long { length numbers.old ≡ length span.targets.now }
    requires table { HoldsTable mapped.now.program.now.table memory.old.bytes }
    ensures numbers { let m = mapped.now in
        numbers.new ≡ span_numbers m.program.now (graph_of m.version.now) (inputs_of m) span.entry }
    ensures cost { result ≤ (longest mapped.now.program.now + EDGE_COST) * length span.entry.targets.now }
    ensures least { EDGE_COST * length span.entry.targets.now ≤ result }
    ensures table { HoldsTable mapped.now.program.now.table memory.new.bytes }
{
    if is_counted(mapped.program) {
        return number_counted(mapped, memory, span, numbers);
    }
    let cost = cost_in_block(mapped.program, span.targets.len());
    number_singly(mapped, memory, span, numbers);
    cost
}

/// The run of an edge on a record of its own, with what it costs.
pub(crate) fn number_and_cost(
    mapped: &Mapped<'_>,
    memory: &mut bpf_runs::Memory,
    edge: Edge,
) -> Folded
    requires degree { edge.degree ≡ degree (graph_of mapped.now.version.now) edge.source }
    requires table { HoldsTable mapped.now.program.now.table memory.old.bytes }
    ensures number { let m = mapped.now in let p = m.program.now in let g = graph_of m.version.now in
        let bytes = input_record g edge.source edge.target edge.place (inputs_of m) in
        number_for p (longest p) g bytes ≡ Some result.value }
    ensures cost { result.cost ≤ longest mapped.now.program.now + EDGE_COST }
    ensures least { EDGE_COST ≤ result.cost }
    ensures table { HoldsTable mapped.now.program.now.table memory.new.bytes }
{
    let ended = run_edge_counted(mapped, memory, edge, false);
    let cost = cost_alone(mapped.program, 1, u64::from(ended.passed));
    Folded {
        value: ended.number,
        cost,
    }
}
