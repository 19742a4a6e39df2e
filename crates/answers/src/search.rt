//! The test of a search's answer.
ghost use Rattle.std.specs.Prelude.{◌≡◌, ◌+◌, ◌<◌, ◌≤◌, true, false, slice_index_or};
ghost use Rattle.answers.specs.Search.{IsSearch, IsReached, LeadsNoFurther, entry_of, not_found};

use graph_model::GraphView;

/// The level of a vertex that a search did not find.
pub const NOT_FOUND: u32 = u32::MAX;

/// The answer of a search from a vertex: a level for each vertex, `NOT_FOUND` for those that it did not find, and the vertex before it on
/// a shortest way.
#[derive(Clone, Copy)]
pub struct Search<'a> {
    /// Where it began.
    pub root: u32,
    /// The level of each vertex.
    pub levels: &'a [u32],
    /// The parent of each vertex. What the root has, and a vertex that was not found, does not matter.
    pub parents: &'a [u32],
}

/// What an array has for a vertex; `NOT_FOUND` past its end.
fn entry_at(entries: &[u32], vertex: u32) -> u32
    ensures { result ≡ entry_of entries.now vertex }
{
    let place = vertex as usize;
    if place < entries.len() {
        entries[place]
    } else {
        NOT_FOUND
    }
}

/// Whether a vertex has a level, which is at most one further than another.
fn is_near(levels: &[u32], level: u32, vertex: u32) -> bool
    ensures yes { result ≡ true → (entry_of levels.now vertex < not_found) × (entry_of levels.now vertex ≤ level + 1) }
    ensures no { result ≡ false → (entry_of levels.now vertex < not_found) × (entry_of levels.now vertex ≤ level + 1)
        → ⊥ }
{
    let own = entry_at(levels, vertex);
    own != NOT_FOUND && u64::from(own) <= u64::from(level) + 1
}

/// Whether the edges of a vertex lead to vertices that were found, one level further at most, if it was found.
fn leads_no_further<G: GraphView>(graph: &G, levels: &[u32], vertex: u32) -> bool
    ensures yes { result ≡ true → LeadsNoFurther (G.graph graph.now) levels.now vertex }
    ensures no { result ≡ false → LeadsNoFurther (G.graph graph.now) levels.now vertex → ⊥ }
{
    let level = entry_at(levels, vertex);
    if level == NOT_FOUND {
        return true;
    }
    for place in 0..graph.degree(u64::from(vertex)) {
        if let Some(target) = graph.neighbour(u64::from(vertex), u64::from(place)) {
            if !is_near(levels, level, target) {
                return false;
            }
        }
    }
    true
}

/// Whether a vertex is the root, or an edge leads to it from its parent one level nearer, if it was found.
fn is_reached<G: GraphView>(graph: &G, search: &Search<'_>, vertex: u32) -> bool
    ensures yes { let s = search.now in
        result ≡ true → IsReached (G.graph graph.now) s.root s.levels.now s.parents.now vertex }
    ensures no { let s = search.now in
        result ≡ false → IsReached (G.graph graph.now) s.root s.levels.now s.parents.now vertex → ⊥ }
{
    let level = entry_at(search.levels, vertex);
    if level == NOT_FOUND || vertex == search.root {
        return true;
    }
    let parent = entry_at(search.parents, vertex);
    let nearer = entry_at(search.levels, parent);
    graph.has_edge(u64::from(parent), u64::from(vertex))
        && u64::from(level) == u64::from(nearer) + 1
}

/// Whether an answer of a search over a graph is right, by one pass over the edges of the vertices that were found. Then the levels are
/// distances from the root: `laws::levels_are_distances`.
pub fn is_search<G: GraphView>(graph: &G, search: &Search<'_>) -> bool
    ensures yes { let s = search.now in result ≡ true → IsSearch (G.graph graph.now) s.root s.levels.now s.parents.now }
    ensures no { let s = search.now in
        result ≡ false → IsSearch (G.graph graph.now) s.root s.levels.now s.parents.now → ⊥ }
{
    let count = graph.vertex_count();
    if search.levels.len() != count as usize || search.parents.len() != count as usize {
        return false;
    }
    if entry_at(search.levels, search.root) != 0 {
        return false;
    }
    for vertex in 0..count {
        if !leads_no_further(graph, search.levels, vertex) || !is_reached(graph, search, vertex) {
            return false;
        }
    }
    true
}
