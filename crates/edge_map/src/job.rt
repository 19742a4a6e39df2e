//! Runs over a frontier with all that they are lent.
ghost use Rattle.std.specs.Prelude.{◌≡◌, ◌≤◌, length, IfSome};
ghost use Rattle.std.proofs.Props.{props};
ghost use Rattle.past_model.specs.declared.limits.TheConstants.{MOST_VERTICES};
ghost use Rattle.past_model.specs.Past.{graph_of};

use edge_fold::{Mapped, Request, Row};

/// What is wanted of runs over a frontier.
#[derive(Clone, Copy, Debug, PartialEq, Eq)]
pub enum Wanted {
    /// The rows of vertices with a neighbour: what the numbers of a vertex's edges reduce to.
    Rows,
    /// The same of each vertex, as a number.
    Values,
    /// A number for each vertex of the graph, into which the numbers of the edges to it are reduced.
    Pushed,
    /// A number for each vertex: that of the pair of it with itself.
    Own,
}

/// Runs over a frontier, and what is wanted of them.
#[derive(Clone, Copy)]
pub struct Job<'a> {
    /// What they are runs of.
    pub mapped: Mapped<'a>,
    /// The vertices, and how numbers are reduced.
    pub request: Request<'a>,
    pub wanted: Wanted,
    /// What a push begins with: a number for each vertex of the graph, or else what no number reduces to.
    pub before: Option<&'a [u64]>,
    ghost few: { length request.frontier.now ≤ MOST_VERTICES },
    ghost long: { IfSome before (λ numbers. length numbers.now
        ≡ (graph_of mapped.version.now).vertex_count) } by { Prim.hlevel props },
}

/// What a job gives.
#[derive(Drop)]
pub struct JobOutcome {
    /// How many runs there were: one an edge, or a vertex.
    pub count: u64,
    /// What all their numbers reduce to.
    pub total: u64,
    /// The numbers that are wanted, if any are.
    pub numbers: Vec<u64>,
    /// The rows that are wanted, if any are.
    pub rows: Vec<Row>,
}
