//! The laws of the definitions. Each function does nothing: its contract is the law.
ghost use Rattle.graph_model.specs.Laws.{NeighboursAscend, NeighboursAreTargets, EdgesAreNeighbours};

/// A vertex's neighbours are strictly ascending.
pub fn neighbours_ascend()
    ensures { NeighboursAscend }
{}

/// A vertex's neighbours are exactly the targets of its edges.
pub fn neighbours_are_targets()
    ensures { NeighboursAreTargets }
{}

/// There is an edge from one number to another exactly if the second is a neighbour of the first.
pub fn edges_are_neighbours()
    ensures { EdgesAreNeighbours }
{}
