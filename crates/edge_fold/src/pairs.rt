//! The numbers of pairs of vertices, which need not be edges.
ghost use Rattle.std.specs.Prelude.{◌≡◌, ◌+◌, ◌-◌, ◌*◌, ◌^◌, ◌%◌, ◌<◌, ◌≤◌, ◌⊎◌, ◌++◌, Some, length, drop, take, nat_lt, slice_index, slice_range};
ghost use Rattle.graph_model.specs.Graph.{neighbours};
ghost use Rattle.graph_model.specs.Graph.{degree as degree_of};
ghost use Rattle.past_model.specs.Past.{graph_of};
ghost use Rattle.bpf_model.specs.Run.{number_for};
ghost use Rattle.map_model.specs.EdgeMap.{input_record};
ghost use Rattle.map_model.specs.Parts.{place_of as place_in, pair_numbers};
ghost use Rattle.verifier.specs.Walks.{longest};
ghost use Rattle.edge_fold.specs.declared.budget.TheConstants.{EDGE_COST};
ghost use Rattle.edge_fold.specs.Kept.{IsFor};
ghost use Rattle.edge_fold.specs.Inputs.{inputs_of};

use crate::budget::pay;
use crate::counted::number_and_cost;
use crate::edge::Edge;
use crate::mapped::Mapped;
use crate::memory::Memory;
use map_model::Progress;
use version::Version;

/// Pairs of vertices: a source and a target at each place. They need not be edges, nor vertices of the graph.
#[derive(Clone, Copy)]
pub struct Pairs<'a> {
    pub sources: &'a [u32],
    pub targets: &'a [u32],
    ghost alike: { length targets.now ≡ length sources.now },
}

/// Whether the neighbour at a place is below a vertex.
fn is_below(version: &Version, source: u32, place: u32, target: u32) -> bool
    requires { place < degree_of (graph_of version.now) source }
    ensures { result ≡ nat_lt (slice_index (neighbours (graph_of version.now) source) place) target }
{
    let Some(word) = version.neighbour(u64::from(source), u64::from(place)) else {
        unreachable!()
    };
    word < target
}

/// The place of a vertex among another's neighbours, by halves; where it is none of them, how many these are.
fn place_of(version: &Version, source: u32, target: u32) -> u32
    ensures { result ≡ place_in (graph_of version.now) source target }
{
    let degree = version.degree(u64::from(source));
    if !version.has_edge(u64::from(source), u64::from(target)) {
        return degree;
    }
    let mut low = 0u32;
    let mut high = degree;
    'halves: while low < high {
        let middle = low + (high - low) / 2;
        if is_below(version, source, middle, target) {
            low = middle + 1;
        } else {
            high = middle;
        }
    }
    low
}

/// Runs a pair of vertices, pays for it, and answers its number.
fn number_pair(mapped: &Mapped<'_>, memory: &mut Memory, source: u32, target: u32) -> u64
    requires memory { IsFor mapped.now.program.now memory.old }
    ensures number { let m = mapped.now in let p = m.program.now in let g = graph_of m.version.now in
        number_for p (longest p) g (input_record g source target (place_in g source target) (inputs_of m))
        ≡ Some result }
    ensures cost { memory.old.budget ≤ memory.new.budget + (longest mapped.now.program.now + EDGE_COST) }
    ensures falls { memory.new.budget ≤ memory.old.budget - EDGE_COST }
    ensures memory { IsFor mapped.now.program.now memory.new }
{
    let edge = Edge {
        source,
        target,
        place: place_of(mapped.version, source, target),
        degree: mapped.version.degree(u64::from(source)),
    };
    let run = number_and_cost(mapped, &mut memory.run, edge);
    pay(&mut memory.budget, run.cost);
    run.value
}

/// Writes a number for each of the next pairs, as far as the budget goes: one at least, if any is left. A pair's record has the
/// source and the target as they are given, the source's degree, and the target's place among the source's neighbours, or that
/// degree where it is none of them. So a pair that is an edge has the number of that edge. `vertex` of the progress is the next
/// pair's place; `place` is 0, and `total` stays. It takes no memory.
pub fn number_pairs(
    memory: &mut Memory,
    mapped: &Mapped<'_>,
    pairs: &Pairs<'_>,
    progress: &mut Progress,
    numbers: &mut [u64],
)
    requires few { length pairs.now.sources.now < 2 ^ 32 }
    requires long { length numbers.old ≡ length pairs.now.sources.now }
    requires place { progress.old.vertex ≤ length pairs.now.sources.now }
    requires memory { IsFor mapped.now.program.now memory.old }
    // Each pair from the place on that was done has its number, and the others stay.
    ensures numbers { let m = mapped.now in let p = m.program.now in let a = progress.old.vertex in
        let b = progress.new.vertex in
        take b numbers.new ≡ take a numbers.old ++ pair_numbers p (longest p) (graph_of m.version.now) (inputs_of m)
        (slice_range pairs.now.sources.now a b) (slice_range pairs.now.targets.now a b) }
    ensures rest { drop progress.new.vertex numbers.new ≡ drop progress.new.vertex numbers.old }
    ensures edges { progress.new.edges ≡ (progress.old.edges + (progress.new.vertex - progress.old.vertex)) % 2 ^ 64 }
    ensures total { progress.new.total ≡ progress.old.total }
    ensures place { progress.new.place ≡ progress.old.place }
    ensures inside { progress.new.vertex ≤ length pairs.now.sources.now }
    ensures back { progress.old.vertex ≤ progress.new.vertex }
    ensures on { progress.old.vertex < length pairs.now.sources.now → progress.old.vertex < progress.new.vertex }
    // It stops at the end, or where the budget is used up.
    ensures stops { (progress.new.vertex ≡ length pairs.now.sources.now) ⊎ (progress.new.budget ≡ 0) }
    ensures cost { let k = longest mapped.now.program.now + EDGE_COST in
        progress.old.budget + k * progress.old.vertex ≤ progress.new.budget + k * progress.new.vertex }
    ensures falls { progress.new.budget ≤ progress.old.budget + EDGE_COST * progress.old.vertex - EDGE_COST *
        progress.new.vertex }
    ensures memory { IsFor mapped.now.program.now memory.new }
{
    let mut goes_on = true;
    'pairs: while goes_on && (progress.vertex as usize) < pairs.sources.len() {
        let at = progress.vertex as usize;
        memory.budget = progress.budget;
        numbers[at] = number_pair(mapped, memory, pairs.sources[at], pairs.targets[at]);
        progress.edges = progress.edges.wrapping_add(1);
        progress.budget = memory.budget;
        progress.vertex += 1;
        goes_on = progress.budget > 0;
    }
}
