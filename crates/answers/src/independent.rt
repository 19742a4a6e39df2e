//! The test of an independent set.
ghost use Rattle.std.specs.Prelude.{◌≡◌, true, false};
ghost use Rattle.answers.specs.Independent.{IsApart, IsBeside, IsIndependentSet, is_in};

use graph_model::GraphView;

/// Whether a vertex is in a set: its mark is not 0. None past the marks is.
fn is_marked(marks: &[u8], vertex: u32) -> bool
    ensures { result ≡ is_in marks.now vertex }
{
    let place = vertex as usize;
    place < marks.len() && marks[place] != 0
}

/// Whether the edges of a vertex lead to no other one of the set, if it is in the set.
fn is_apart<G: GraphView>(graph: &G, marks: &[u8], vertex: u32) -> bool
    ensures yes { result ≡ true → IsApart (G.graph graph.now) marks.now vertex }
    ensures no { result ≡ false → IsApart (G.graph graph.now) marks.now vertex → ⊥ }
{
    if !is_marked(marks, vertex) {
        return true;
    }
    for place in 0..graph.degree(u64::from(vertex)) {
        if let Some(target) = graph.neighbour(u64::from(vertex), u64::from(place)) {
            if target != vertex && is_marked(marks, target) {
                return false;
            }
        }
    }
    true
}

/// Whether an edge of a vertex leads to one of the set, unless it is in the set.
fn is_beside<G: GraphView>(graph: &G, marks: &[u8], vertex: u32) -> bool
    ensures yes { result ≡ true → IsBeside (G.graph graph.now) marks.now vertex }
    ensures no { result ≡ false → IsBeside (G.graph graph.now) marks.now vertex → ⊥ }
{
    if is_marked(marks, vertex) {
        return true;
    }
    for place in 0..graph.degree(u64::from(vertex)) {
        if let Some(target) = graph.neighbour(u64::from(vertex), u64::from(place)) {
            if is_marked(marks, target) {
                return true;
            }
        }
    }
    false
}

/// Whether no edge leads from a marked vertex to another one, and each vertex without a mark has an edge to a marked one, by one pass over
/// all edges. A mark is any number but 0. Then the set is independent and no vertex can be added, whatever the direction of edges:
/// `laws::sets_are_independent`. A set fails if a vertex outside is joined to it only by edges that lead from the set.
pub fn is_independent_set<G: GraphView>(graph: &G, marks: &[u8]) -> bool
    ensures yes { result ≡ true → IsIndependentSet (G.graph graph.now) marks.now }
    ensures no { result ≡ false → IsIndependentSet (G.graph graph.now) marks.now → ⊥ }
{
    let count = graph.vertex_count();
    if marks.len() != count as usize {
        return false;
    }
    for vertex in 0..count {
        if !is_apart(graph, marks, vertex) || !is_beside(graph, marks, vertex) {
            return false;
        }
    }
    true
}
