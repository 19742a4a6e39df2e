//! The test of an answer of components.
ghost use Rattle.std.specs.Prelude.{◌≡◌, ◌+◌, ◌<◌, ◌≤◌, true, false, slice_index};
ghost use Rattle.answers.specs.Components.{AreComponents, KeepsItsLabel, ReachesItsLabel, Touch};

use graph_model::GraphView;

/// The components of a graph, whatever the direction of its edges: for each vertex a label, the least vertex of its component, and how it
/// is joined to that.
#[derive(Clone, Copy)]
pub struct Components<'a> {
    /// The least vertex of each vertex's component.
    pub labels: &'a [u32],
    /// For each vertex that is not its own label another one, to which an edge joins it, one step nearer to the label.
    pub parents: &'a [u32],
    /// How many steps each vertex is away from its label.
    pub steps: &'a [u32],
}

/// What an array has for a vertex; 0 past its end.
pub(crate) fn entry_at(entries: &[u32], vertex: u32) -> u32
    ensures { result ≡ slice_index entries.now vertex }
{
    let place = vertex as usize;
    if place < entries.len() {
        entries[place]
    } else {
        0
    }
}

/// Whether the edges of a vertex lead to vertices with its own label.
fn keeps_its_label<G: GraphView>(graph: &G, labels: &[u32], vertex: u32) -> bool
    ensures yes { result ≡ true → KeepsItsLabel (G.graph graph.now) labels.now vertex }
    ensures no { result ≡ false → KeepsItsLabel (G.graph graph.now) labels.now vertex → ⊥ }
{
    let label = entry_at(labels, vertex);
    for place in 0..graph.degree(u64::from(vertex)) {
        if let Some(target) = graph.neighbour(u64::from(vertex), u64::from(place)) {
            if entry_at(labels, target) != label {
                return false;
            }
        }
    }
    true
}

/// Whether an edge joins two vertices.
fn touch<G: GraphView>(graph: &G, one: u32, other: u32) -> bool
    ensures yes { result ≡ true → Touch (G.graph graph.now) one other }
    ensures no { result ≡ false → Touch (G.graph graph.now) one other → ⊥ }
{
    let (one, other) = (u64::from(one), u64::from(other));
    graph.has_edge(one, other) || graph.has_edge(other, one)
}

/// Whether a vertex is its own label, or an edge joins it to its parent, which is one step nearer.
fn reaches_its_label<G: GraphView>(graph: &G, components: &Components<'_>, vertex: u32) -> bool
    ensures yes { let c = components.now in
        result ≡ true → ReachesItsLabel (G.graph graph.now) c.labels.now c.parents.now c.steps.now vertex }
    ensures no { let c = components.now in
        result ≡ false → ReachesItsLabel (G.graph graph.now) c.labels.now c.parents.now c.steps.now vertex → ⊥ }
{
    if entry_at(components.labels, vertex) == vertex {
        return true;
    }
    let parent = entry_at(components.parents, vertex);
    let steps = entry_at(components.steps, vertex);
    let nearer = entry_at(components.steps, parent);
    u64::from(steps) == u64::from(nearer) + 1 && touch(graph, parent, vertex)
}

/// Whether an answer of components of a graph is right, by one pass over all edges. Then two vertices have the same label exactly if
/// edges join them: `laws::labels_are_components`.
pub fn are_components<G: GraphView>(graph: &G, components: &Components<'_>) -> bool
    ensures yes { let c = components.now in
        result ≡ true → AreComponents (G.graph graph.now) c.labels.now c.parents.now c.steps.now }
    ensures no { let c = components.now in
        result ≡ false → AreComponents (G.graph graph.now) c.labels.now c.parents.now c.steps.now → ⊥ }
{
    let count = graph.vertex_count();
    if components.labels.len() != count as usize
        || components.parents.len() != count as usize
        || components.steps.len() != count as usize
    {
        return false;
    }
    for vertex in 0..count {
        if !keeps_its_label(graph, components.labels, vertex)
            || entry_at(components.labels, vertex) > vertex
            || !reaches_its_label(graph, components, vertex)
        {
            return false;
        }
    }
    true
}
