//! The edges that a list still has to print.

ghost use Rattle.std.specs.Prelude.{◌≡◌};
ghost use Rattle.std.specs.Arc.{arc_value};
ghost use Rattle.past_model.specs.Past.{graph_of};
ghost use Rattle.map_model.specs.EdgeMap.{listed_edges};
ghost use Rattle.edge_map.specs.Maps.{FitsRecord};
ghost use Rattle.verifier.specs.Walks.{longest};

use edge_map::{EdgeList, list_edges};
use std::marker::Model;
use std::sync::Arc;
use store::Pin;
use verifier::Verified;

/// All edges of a version, sources ascending and targets ascending for each, each with the number that a program exits
/// with for it. It holds the version and the program, whatever becomes of the session, and has run nothing yet.
/// Contracts see it as these edges.
#[derive(Drop)]
pub struct Listing {
    pin: Pin,
    program: Arc<Verified>,
    argument: Vec<u8>,
}

impl Model for Listing {
    ghost use Rattle.std.specs.Prelude.{List};
    ghost use Rattle.std.specs.Arc.{arc_value};
    ghost use Rattle.past_model.specs.Past.{graph_of};
    ghost use Rattle.map_model.specs.declared.listed_edge.ListedEdge.{ListedEdge};
    ghost use Rattle.map_model.specs.EdgeMap.{listed_edges};
    ghost use Rattle.edge_map.specs.Maps.{FitsRecord};
    ghost use Rattle.verifier.specs.Walks.{longest};

    ghost Value = { List ListedEdge };

    ghost view = { λ l. let p = arc_value l.program in
        listed_edges p (longest p) (graph_of l.pin.past) l.argument.items };

    ghost invariant = { λ l. FitsRecord (arc_value l.program) l.argument.items };
}

impl Listing {
    /// The list of a pin's edges with the numbers of a program, for an argument that fits its record.
    pub(crate) fn new(pin: Pin, program: Arc<Verified>, argument: Vec<u8>) -> Listing
        requires { FitsRecord (arc_value program) argument.items }
        ensures { result ≡ (let p = arc_value program in
            listed_edges p (longest p) (graph_of pin.past) argument.items) }
    {
        Listing {
            pin,
            program,
            argument,
        }
    }

    /// The edges from the first on, to be listed block by block.
    pub fn edges(&self) -> EdgeList<'_>
        ensures { result ≡ self.now }
    {
        let Ok(edges) = list_edges(&self.pin, &self.program, &self.argument) else {
            unreachable!()
        };
        edges
    }
}
