//! The test of an answer of cores.
ghost use Rattle.std.specs.Prelude.{◌≡◌, ◌==◌, ◌&&◌, true, false, not, slice_index};
ghost use Rattle.answers.specs.Cores.{AreCores, HasItsCore, is_after, is_at_least};

use crate::components::entry_at;
use graph_model::GraphView;

/// The core numbers of a graph, and a place for each vertex. Taken out one after another, lower numbers first and those of one number
/// by their places, each then has no more edges to others than its number.
#[derive(Clone, Copy)]
pub struct Cores<'a> {
    /// The core number of each vertex.
    pub numbers: &'a [u32],
    /// The place of each vertex in the order, of which only that of two vertices with the same number matters.
    pub places: &'a [u32],
}

/// Whether a vertex is another one, whose core number is no less.
fn is_as_high(cores: &Cores<'_>, vertex: u32, other: u32) -> bool
    ensures { let c = cores.now in
        result ≡ (is_at_least (slice_index c.numbers.now vertex) (slice_index c.numbers.now other)
        && not (other == vertex)) }
{
    entry_at(cores.numbers, other) >= entry_at(cores.numbers, vertex) && other != vertex
}

/// Whether a vertex is another one, which comes after the first.
fn comes_after(cores: &Cores<'_>, vertex: u32, other: u32) -> bool
    ensures { let c = cores.now in result ≡ (is_after c.numbers.now c.places.now vertex other
        && not (other == vertex)) }
{
    let (own, its) = (
        entry_at(cores.numbers, vertex),
        entry_at(cores.numbers, other),
    );
    let is_after = own < its
        || its == own && entry_at(cores.places, other) >= entry_at(cores.places, vertex);
    is_after && other != vertex
}

/// Whether a vertex has enough edges to others whose core numbers are no less, and no more to others that come after it.
fn has_its_core<G: GraphView>(graph: &G, cores: &Cores<'_>, vertex: u32) -> bool
    ensures yes { let c = cores.now in result ≡ true
        → HasItsCore (G.graph graph.now) c.numbers.now c.places.now vertex }
    ensures no { let c = cores.now in result ≡ false → HasItsCore (G.graph graph.now) c.numbers.now c.places.now vertex
        → ⊥ }
{
    let (mut enough, mut few) = (0_u32, 0_u32);
    for place in 0..graph.degree(u64::from(vertex)) {
        let target = graph
            .neighbour(u64::from(vertex), u64::from(place))
            .unwrap_or(vertex);
        enough += u32::from(is_as_high(cores, vertex, target));
        few += u32::from(comes_after(cores, vertex, target));
    }
    let number = entry_at(cores.numbers, vertex);
    number <= enough && few <= number
}

/// Whether an answer of cores of a graph is right, by one pass over all edges. Then a vertex belongs to a set whose vertices have so many
/// edges to others of it as its number says, and to none where they have more: `laws::numbers_are_cores`.
pub fn are_cores<G: GraphView>(graph: &G, cores: &Cores<'_>) -> bool
    ensures yes { let c = cores.now in result ≡ true → AreCores (G.graph graph.now) c.numbers.now c.places.now }
    ensures no { let c = cores.now in result ≡ false → AreCores (G.graph graph.now) c.numbers.now c.places.now → ⊥ }
{
    let count = graph.vertex_count();
    if cores.numbers.len() != count as usize || cores.places.len() != count as usize {
        return false;
    }
    for vertex in 0..count {
        if !has_its_core(graph, cores, vertex) {
            return false;
        }
    }
    true
}
