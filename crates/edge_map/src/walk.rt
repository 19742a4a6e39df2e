//! The edges of a version, one after another.
ghost use Rattle.std.specs.Prelude.{◌≡◌, ◌<◌, ◌∷◌, [], MatchOption, IfSome};
ghost use Rattle.past_model.specs.declared.limits.TheConstants.{MOST_VERTICES};
ghost use Rattle.graph_model.specs.Graph.{degree};
ghost use Rattle.past_model.specs.Past.{graph_of};
ghost use Rattle.edge_map.specs.Listing.{all_edges};
ghost use Rattle.edge_map.specs.Ahead.{IsNextSource};

use crate::targets::Targets;
use edge_fold::Edge;
use std::marker::Model;
use version::Version;

/// The first vertex after one that has a neighbour, and how many it has.
fn next_source(version: &Version, source: u32) -> Option<(u32, u32)>
    requires { source < MOST_VERTICES }
    ensures { IsNextSource (graph_of version.now) source result }
{
    'vertices: for vertex in source + 1..version.vertex_count() {
        let degree = version.degree(u64::from(vertex));
        if degree > 0 {
            return Some((vertex, degree));
        }
    }
    None
}

/// The edges of a version that are still ahead: sources ascending, and targets ascending for each.
#[derive(Drop)]
pub(crate) struct Walk<'a> {
    version: &'a Version,
    source: u32,
    place: u32,
    degree: u32,
    // The source's neighbours from the place on.
    targets: Targets<'a>,
}

impl<'a> Model for Walk<'a> {
    ghost use Rattle.past_model.specs.Past.{graph_of};
    ghost use Rattle.edge_map.specs.Ahead.{Ahead, edges_at, IsAt};

    ghost Value = { Ahead };

    ghost view = { λ w. record {
      past = w.version.now;
      edges = edges_at (graph_of w.version.now) w.source w.place;
    } };

    ghost invariant = { λ w. IsAt (graph_of w.version.now) w.source w.place w.degree w.targets };
}

impl<'a> Walk<'a> {
    /// All edges of a version.
    pub(crate) fn over(version: &'a Version) -> Walk<'a>
        ensures { result ≡ record { past = version.now; edges = all_edges (graph_of version.now) } }
    {
        let _some = version.vertex_count();
        Walk {
            version,
            source: 0,
            place: 0,
            degree: version.degree(0),
            targets: Targets::of(version.cursor(0)),
        }
    }

    /// The next edge.
    pub(crate) fn next(&mut self) -> Option<Edge>
        ensures past { self.new.past ≡ self.old.past }
        ensures edges { MatchOption result
            ((self.old.edges ≡ []) × (self.new.edges ≡ []))
            (λ edge. self.old.edges ≡ edge ∷ self.new.edges) }
        ensures degree { IfSome result (λ edge. edge.degree ≡ degree (graph_of self.old.past) edge.source) }
    {
        if let Some(target) = self.targets.next() {
            let place = self.place;
            self.place += 1;
            return Some(Edge {
                source: self.source,
                target,
                place,
                degree: self.degree,
            });
        }
        let (source, degree) = next_source(self.version, self.source)?;
        self.source = source;
        self.place = 0;
        self.degree = degree;
        self.targets = Targets::of(self.version.cursor(source));
        let target = self.targets.next()?;
        self.place = 1;
        Some(Edge {
            source,
            target,
            place: 0,
            degree,
        })
    }

    /// The version whose edges they are.
    pub(crate) fn version(&self) -> &'a Version
        ensures { result.now ≡ self.now.past }
    {
        self.version
    }

    /// Some targets that follow in one row. What they are is only for saving time.
    pub(crate) fn later(&self) -> &'a [u32] {
        self.targets.later()
    }
}
