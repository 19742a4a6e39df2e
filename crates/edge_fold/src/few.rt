//! Vertices that have few neighbours, for the program that is run: the edges of some of them are run in one block.
ghost use Rattle.std.specs.Prelude.{◌≡◌, ◌+◌, ◌^◌, ◌<◌, ◌≤◌, ℕ, List, length, slice_index, IfSome};
ghost use Rattle.past_model.specs.Past.{graph_of};
ghost use Rattle.graph_model.specs.Graph.{Graph, degree};
ghost use Rattle.bpf_image.specs.Program.{Program};
ghost use Rattle.map_model.specs.EdgeMap.{reduction_of_numbers};
ghost use Rattle.bpf_blocks.specs.declared.columns.TheConstants.{LANES};
ghost use Rattle.edge_fold.specs.Kept.{AreNumbered, AreSame, IsFor};
ghost use Rattle.edge_fold.specs.Numbers.{span_numbers};
ghost use Rattle.edge_fold.specs.Inputs.{inputs_of};
ghost use Rattle.map_model.specs.EdgeMap.{Inputs};

use crate::edge::Edge;
use crate::fold::LEAST_IN_BLOCK;
use crate::kept::Kept;
use crate::mapped::Mapped;
use crate::memory::Memory;
use crate::reducing::{combine, nothing};
use crate::span::Span;
use bpf_blocks::{Edges, LANES};
use map_model::Reduction;
use verifier::Verified;
use version::Version;

/// A program of fewer actions runs edge by edge over such vertices: to look ahead takes as long as some actions.
const LEAST_ACTIONS: usize = 8;

/// Of more than half a block hardly two vertices share one.
const MOST_TOGETHER: usize = LANES / 2;

/// From so many neighbours on, a vertex has a block of its own. A block takes some 25 instructions for each action beside those of its
/// lanes, and to share one takes some 25 for each edge.
pub(crate) fn least_alone(program: &Verified) -> u32 {
    let actions = program.actions().len();
    if actions < LEAST_ACTIONS {
        return 0;
    }
    actions.min(MOST_TOGETHER + 1) as u32
}

/// Whether a vertex with so many neighbours has few, but some.
pub(crate) fn are_few(neighbour_count: u32, least_alone: u32) -> bool {
    0 < neighbour_count && neighbour_count < least_alone
}

/// Puts the edges of a vertex into a block, from a lane on.
#[inline(always)]
fn put_edges(edges: &mut Edges, first: usize, source: u32, targets: &[u32])
    requires { first + length targets.now ≤ LANES }
    ensures sources { (k : ℕ) → k < length targets.now → slice_index edges.new.sources (first + k) ≡ source }
    ensures targets { (k : ℕ) → k < length targets.now
        → slice_index edges.new.targets (first + k) ≡ slice_index targets.now k }
    ensures places { (k : ℕ) → k < length targets.now → slice_index edges.new.places (first + k) ≡ k }
    ensures degrees { (k : ℕ) → k < length targets.now
        → slice_index edges.new.degrees (first + k) ≡ length targets.now }
    ensures before { (k : ℕ) → k < first → AreSame edges.old edges.new k }
{
    'targets: for place in 0..targets.len() {
        let lane = first + place;
        edges.sources[lane] = source;
        edges.targets[lane] = targets[place];
        edges.places[lane] = place as u32;
        edges.degrees[lane] = targets.len() as u32;
    }
}

/// Makes a block of the edges of the next vertices that have few. None of them has its number yet. Returns how many vertices
/// were looked at.
fn gather(version: &Version, kept: &mut Kept, frontier: &[u32], least_alone: u32) -> usize
    ensures few { kept.new.edges.count ≤ LANES }
    ensures numbered { (p : Program) (g : Graph) (inputs : Inputs) → AreNumbered p g inputs kept.new }
{
    let mut count = 0usize;
    let mut looked = 0usize;
    'vertices: for vertex in frontier {
        let mut cursor = version.cursor(*vertex);
        if are_few(cursor.left(), least_alone) {
            let targets = cursor.next_slice().unwrap_or(&[]);
            if targets.len() > LANES - count {
                break;
            }
            put_edges(&mut kept.edges, count, *vertex, targets);
            count += targets.len();
        }
        looked = looked.saturating_add(1);
    }
    kept.edges.count = count;
    kept.forget();
    looked
}

/// Runs the edges of the next vertices that have few in one block, if they are enough for one and that can be done at once, and
/// keeps their numbers. Returns how many vertices it has looked at: those after them are worth another try.
pub(crate) fn keep_next(
    mapped: &Mapped<'_>,
    memory: &mut Memory,
    frontier: &[u32],
    least_alone: u32,
) -> usize
    requires memory { IsFor mapped.now.program.now memory.old }
    ensures kept { let m = mapped.now in AreNumbered m.program.now
        (graph_of m.version.now) (inputs_of m) memory.new.kept }
    ensures memory { IsFor mapped.now.program.now memory.new }
{
    if !memory.blocks.is_useful || frontier.len() < 2 {
        memory.kept.forget();
        return frontier.len();
    }
    let looked = gather(mapped.version, &mut memory.kept, frontier, least_alone);
    if memory.kept.edges.count >= LEAST_IN_BLOCK {
        let columns = &mut memory.blocks.columns;
        memory.blocks.is_useful = memory.kept.run(mapped, columns);
    }
    looked
}

/// What the numbers of edges in a row reduce to, if they are kept. Each of them has one.
#[inline(always)]
pub(crate) fn fold_kept(
    mapped: &Mapped<'_>,
    kept: &mut Kept,
    reduction: Reduction,
    span: Span<'_>,
) -> Option<u64>
    requires degree { span.degree ≡ degree (graph_of mapped.now.version.now) span.source }
    requires few { span.place + length span.targets.now ≤ 2 ^ 32 }
    requires kept { let m = mapped.now in AreNumbered m.program.now (graph_of m.version.now) (inputs_of m) kept.old }
    ensures value { let m = mapped.now in IfSome result (λ value. value ≡ reduction_of_numbers reduction
        (span_numbers m.program.now (graph_of m.version.now) (inputs_of m) span.entry)) }
    ensures count { let m = mapped.now in IfSome result
        (λ _. length (span_numbers m.program.now (graph_of m.version.now) (inputs_of m) span.entry)
        ≡ length span.entry.targets.now) }
    ensures kept { let m = mapped.now in AreNumbered m.program.now (graph_of m.version.now) (inputs_of m) kept.new }
{
    if kept.count == 0 {
        return None;
    }
    let mut so_far = nothing(reduction);
    'targets: for at in 0..span.targets.len() {
        let edge = Edge {
            source: span.source,
            target: span.targets[at],
            place: span.place + at as u32,
            degree: span.degree,
        };
        let Some(number) = kept.number_of(edge) else {
            return None;
        };
        so_far = combine(reduction, so_far, number);
    }
    Some(so_far)
}
