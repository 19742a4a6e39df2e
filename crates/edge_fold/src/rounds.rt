//! Rounds of a push over edges in a row: those whose numbers are kept, a block, or some edge by edge.
ghost use Rattle.std.specs.Prelude.{◌≡◌, ◌+◌, ◌-◌, ◌*◌, ◌^◌, ◌<◌, ◌≤◌, ◌∷◌, [], ℕ, false, length, take, slice_index};
ghost use Rattle.past_model.specs.declared.limits.TheConstants.{MOST_VERTICES};
ghost use Rattle.graph_model.specs.Graph.{degree as degree_of};
ghost use Rattle.past_model.specs.Past.{graph_of};
ghost use Rattle.map_model.specs.EdgeMap.{reduction_of_numbers};
ghost use Rattle.map_model.specs.Pushes.{pushed};
ghost use Rattle.verifier.specs.Walks.{longest};
ghost use Rattle.bpf_blocks.specs.declared.columns.TheConstants.{LANES};
ghost use Rattle.bpf_runs.specs.Held.{HoldsTable};
ghost use Rattle.edge_fold.specs.declared.budget.TheConstants.{EDGE_COST};
ghost use Rattle.edge_fold.specs.declared.fold.TheConstants.{LEAST_IN_BLOCK};
ghost use Rattle.edge_fold.specs.Inputs.{inputs_of};
ghost use Rattle.edge_fold.specs.Kept.{AreNumbered, IsFor};
ghost use Rattle.edge_fold.specs.Numbers.{first_numbers, span_numbers};

use crate::blocks::{Blocks, fill, first_targets, sweep};
use crate::budget::{cost_alone, cost_in_block, edges_within, pay};
use crate::counted::{Folded, run_edge_counted};
use crate::edge::Edge;
use crate::fold::LEAST_IN_BLOCK;
use crate::kept::Kept;
use crate::mapped::Mapped;
use crate::memory::Memory;
use crate::reducing::{combine, nothing};
use crate::some::Part;
use crate::span::Span;
use bpf_blocks::LANES;
use map_model::{Reduction, push_numbers};

/// What some numbers reduce to.
fn reduced(reduction: Reduction, numbers: &[u64]) -> u64
    ensures { result ≡ reduction_of_numbers reduction numbers.now }
{
    let mut so_far = nothing(reduction);
    'numbers: for at in 0..numbers.len() {
        so_far = combine(reduction, so_far, numbers[at]);
    }
    so_far
}

/// Reduces a number into the value of its target.
#[inline(always)]
fn push_one(reduction: Reduction, target: u32, number: u64, values: &mut [u64])
    requires { target < length values.old }
    ensures values { values.new ≡ pushed reduction (target ∷ []) (number ∷ []) values.old }
    ensures long { length values.new ≡ length values.old }
{
    push_numbers(reduction, &[target], &[number], values);
}

/// Pushes the numbers of the first edges in a row that are kept, and answers what these reduce to, and how many they are.
fn push_kept(
    mapped: &Mapped<'_>,
    kept: &mut Kept,
    reduction: Reduction,
    span: Span<'_>,
    values: &mut [u64],
) -> Part
    requires degree { span.degree ≡ degree_of (graph_of mapped.now.version.now) span.source }
    requires few { span.place + length span.targets.now ≤ MOST_VERTICES }
    requires inside { (i : ℕ) → i < length span.targets.now → slice_index span.targets.now i < length values.old }
    requires kept { let m = mapped.now in AreNumbered m.program.now (graph_of m.version.now) (inputs_of m) kept.old }
    ensures values { let m = mapped.now in values.new ≡ pushed reduction (take result.count span.entry.targets.now)
        (first_numbers m.program.now (graph_of m.version.now) (inputs_of m) span.entry result.count) values.old }
    ensures long { length values.new ≡ length values.old }
    ensures value { let m = mapped.now in result.value ≡ reduction_of_numbers reduction
        (first_numbers m.program.now (graph_of m.version.now) (inputs_of m) span.entry result.count) }
    ensures count { let m = mapped.now in
        length (first_numbers m.program.now (graph_of m.version.now) (inputs_of m) span.entry result.count)
        ≡ result.count }
    ensures few { result.count ≤ length span.entry.targets.now }
    ensures kept { let m = mapped.now in AreNumbered m.program.now (graph_of m.version.now) (inputs_of m) kept.new }
{
    let mut so_far = nothing(reduction);
    let mut at = 0usize;
    'targets: while at < span.targets.len() {
        let edge = Edge {
            source: span.source,
            target: span.targets[at],
            place: span.place + at as u32,
            degree: span.degree,
        };
        let Some(number) = kept.number_of(edge) else {
            break;
        };
        push_one(reduction, edge.target, number, values);
        so_far = combine(reduction, so_far, number);
        at += 1;
    }
    Part {
        value: so_far,
        count: at,
    }
}

/// Pushes the numbers of a block.
fn push_lanes(
    reduction: Reduction,
    lanes: &[u64; LANES],
    targets: &[u32],
    values: &mut [u64],
) -> u64
    requires most { length targets.now ≤ LANES }
    requires inside { (i : ℕ) → i < length targets.now → slice_index targets.now i < length values.old }
    ensures values { values.new ≡ pushed reduction targets.now (take (length targets.now) lanes.now) values.old }
    ensures long { length values.new ≡ length values.old }
    ensures value { result ≡ reduction_of_numbers reduction (take (length targets.now) lanes.now) }
    ensures lanes { length lanes.now ≡ LANES }
{
    let numbers = &lanes[..targets.len()];
    push_numbers(reduction, targets, numbers, values);
    reduced(reduction, numbers)
}

/// Pushes the numbers of the first edges in a row that make a block, if there are edges enough for one and it can be run at once. Else
/// it pushes none.
fn push_block(
    mapped: &Mapped<'_>,
    blocks: &mut Blocks,
    reduction: Reduction,
    span: Span<'_>,
    values: &mut [u64],
) -> Part
    requires degree { span.degree ≡ degree_of (graph_of mapped.now.version.now) span.source }
    requires few { span.place + length span.targets.now ≤ MOST_VERTICES }
    requires inside { (i : ℕ) → i < length span.targets.now → slice_index span.targets.now i < length values.old }
    ensures values { let m = mapped.now in values.new ≡ pushed reduction (take result.count span.entry.targets.now)
        (first_numbers m.program.now (graph_of m.version.now) (inputs_of m) span.entry result.count) values.old }
    ensures long { length values.new ≡ length values.old }
    ensures value { let m = mapped.now in result.value ≡ reduction_of_numbers reduction
        (first_numbers m.program.now (graph_of m.version.now) (inputs_of m) span.entry result.count) }
    ensures count { let m = mapped.now in
        length (first_numbers m.program.now (graph_of m.version.now) (inputs_of m) span.entry result.count)
        ≡ result.count }
    ensures few { result.count ≤ length span.entry.targets.now }
    ensures given_up { result.count ≡ 0 → LEAST_IN_BLOCK ≤ length span.entry.targets.now → blocks.new.is_useful ≡ false }
{
    let count = LANES.min(span.targets.len());
    if count >= LEAST_IN_BLOCK && blocks.is_useful {
        fill(&mut blocks.edges, &span, 0, count);
        if sweep(
            mapped,
            &mut blocks.edges,
            &mut blocks.columns,
            &mut blocks.numbers,
        ) {
            let targets = first_targets(span.targets, count);
            let value = push_lanes(reduction, &blocks.numbers, targets, values);
            return Part { value, count };
        }
        blocks.is_useful = false;
    }
    Part {
        value: nothing(reduction),
        count: 0,
    }
}

/// Pushes the numbers of edges in a row, edge by edge, and answers what they reduce to, and what they cost. The record is written once,
/// and for each further edge what differs, where the program never writes to memory.
// The loop of a run is part of this loop, so it is called once for many edges.
#[inline(never)]
fn push_each(
    mapped: &Mapped<'_>,
    memory: &mut bpf_runs::Memory,
    reduction: Reduction,
    span: Span<'_>,
    values: &mut [u64],
) -> Folded
    requires degree { span.degree ≡ degree_of (graph_of mapped.now.version.now) span.source }
    requires few { span.place + length span.targets.now ≤ MOST_VERTICES }
    requires inside { (i : ℕ) → i < length span.targets.now → slice_index span.targets.now i < length values.old }
    requires table { HoldsTable mapped.now.program.now.table memory.old.bytes }
    ensures values { let m = mapped.now in values.new ≡ pushed reduction span.entry.targets.now
        (span_numbers m.program.now (graph_of m.version.now) (inputs_of m) span.entry) values.old }
    ensures long { length values.new ≡ length values.old }
    ensures value { let m = mapped.now in result.value
        ≡ reduction_of_numbers reduction (span_numbers m.program.now (graph_of m.version.now)
        (inputs_of m) span.entry) }
    ensures count { let m = mapped.now in
        length (span_numbers m.program.now (graph_of m.version.now) (inputs_of m) span.entry)
        ≡ length span.entry.targets.now }
    ensures cost { result.cost ≤ (longest mapped.now.program.now + EDGE_COST) * length span.entry.targets.now }
    ensures least { EDGE_COST * length span.entry.targets.now ≤ result.cost }
    ensures table { HoldsTable mapped.now.program.now.table memory.new.bytes }
{
    let mapped = *mapped;
    let keeps = !mapped.program.writes();
    let mut is_begun = false;
    let mut value = nothing(reduction);
    let mut passed = 0u64;
    'targets: for at in 0..span.targets.len() {
        let edge = Edge {
            source: span.source,
            target: span.targets[at],
            place: span.place + at as u32,
            degree: span.degree,
        };
        let ended = run_edge_counted(&mapped, memory, edge, is_begun);
        is_begun = keeps;
        push_one(reduction, edge.target, ended.number, values);
        value = combine(reduction, value, ended.number);
        passed = passed.wrapping_add(u64::from(ended.passed));
    }
    let cost = cost_alone(mapped.program, span.targets.len(), passed);
    Folded { value, cost }
}

/// Pushes the numbers of the first edges in a row, edge by edge: one at least, and as many as surely fit the budget.
fn push_singly(
    mapped: &Mapped<'_>,
    memory: &mut Memory,
    reduction: Reduction,
    span: Span<'_>,
    values: &mut [u64],
) -> Part
    requires degree { span.degree ≡ degree_of (graph_of mapped.now.version.now) span.source }
    requires few { span.place + length span.targets.now ≤ MOST_VERTICES }
    requires some { 0 < length span.targets.now }
    requires inside { (i : ℕ) → i < length span.targets.now → slice_index span.targets.now i < length values.old }
    requires memory { IsFor mapped.now.program.now memory.old }
    ensures values { let m = mapped.now in values.new ≡ pushed reduction (take result.count span.entry.targets.now)
        (first_numbers m.program.now (graph_of m.version.now) (inputs_of m) span.entry result.count) values.old }
    ensures long { length values.new ≡ length values.old }
    ensures value { let m = mapped.now in result.value ≡ reduction_of_numbers reduction
        (first_numbers m.program.now (graph_of m.version.now) (inputs_of m) span.entry result.count) }
    ensures count { let m = mapped.now in
        length (first_numbers m.program.now (graph_of m.version.now) (inputs_of m) span.entry result.count)
        ≡ result.count }
    ensures some { 0 < result.count }
    ensures few { result.count ≤ length span.entry.targets.now }
    ensures cost { memory.old.budget ≤ memory.new.budget + (longest mapped.now.program.now + EDGE_COST) * result.count }
    ensures falls { memory.new.budget ≤ memory.old.budget - EDGE_COST * result.count }
    ensures memory { IsFor mapped.now.program.now memory.new }
    ensures kept { memory.new.kept ≡ memory.old.kept }
{
    let count = edges_within(memory.budget, mapped.program, span.targets.len());
    let part = Span {
        source: span.source,
        degree: span.degree,
        place: span.place,
        targets: first_targets(span.targets, count),
    };
    let folded = push_each(mapped, &mut memory.run, reduction, part, values);
    pay(&mut memory.budget, folded.cost);
    Part {
        value: folded.value,
        count,
    }
}

/// Pushes the numbers of the first edges in a row, one edge at least: those that are kept, or those of a block, if that can be run at
/// once and is worth it, or else some edge by edge.
pub(crate) fn push_round(
    mapped: &Mapped<'_>,
    memory: &mut Memory,
    reduction: Reduction,
    span: Span<'_>,
    values: &mut [u64],
) -> Part
    requires degree { span.degree ≡ degree_of (graph_of mapped.now.version.now) span.source }
    requires few { span.place + length span.targets.now ≤ MOST_VERTICES }
    requires some { 0 < length span.targets.now }
    requires inside { (i : ℕ) → i < length span.targets.now → slice_index span.targets.now i < length values.old }
    requires memory { IsFor mapped.now.program.now memory.old }
    requires kept { let m = mapped.now in
        AreNumbered m.program.now (graph_of m.version.now) (inputs_of m) memory.old.kept }
    ensures values { let m = mapped.now in values.new ≡ pushed reduction (take result.count span.entry.targets.now)
        (first_numbers m.program.now (graph_of m.version.now) (inputs_of m) span.entry result.count) values.old }
    ensures long { length values.new ≡ length values.old }
    ensures value { let m = mapped.now in result.value ≡ reduction_of_numbers reduction
        (first_numbers m.program.now (graph_of m.version.now) (inputs_of m) span.entry result.count) }
    ensures count { let m = mapped.now in
        length (first_numbers m.program.now (graph_of m.version.now) (inputs_of m) span.entry result.count)
        ≡ result.count }
    ensures some { 0 < result.count }
    ensures few { result.count ≤ length span.entry.targets.now }
    ensures cost { memory.old.budget ≤ memory.new.budget + (longest mapped.now.program.now + EDGE_COST) * result.count }
    ensures falls { memory.new.budget ≤ memory.old.budget - EDGE_COST * result.count }
    ensures memory { IsFor mapped.now.program.now memory.new }
    ensures kept { let m = mapped.now in
        AreNumbered m.program.now (graph_of m.version.now) (inputs_of m) memory.new.kept }
{
    let kept = push_kept(mapped, &mut memory.kept, reduction, span, values);
    if kept.count > 0 {
        pay(
            &mut memory.budget,
            cost_in_block(mapped.program, kept.count),
        );
        return kept;
    }
    let block = push_block(mapped, &mut memory.blocks, reduction, span, values);
    if block.count > 0 {
        pay(
            &mut memory.budget,
            cost_in_block(mapped.program, block.count),
        );
        return block;
    }
    push_singly(mapped, memory, reduction, span, values)
}
