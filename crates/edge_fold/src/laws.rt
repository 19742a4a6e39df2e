//! Laws of maps. Each function does nothing: its contract is the law.
ghost use Rattle.std.specs.Prelude.{◌≡◌, ◌+◌, ◌<◌, ℕ, length, slice_index};
ghost use Rattle.bpf_model.specs.Helpers.{IsView};
ghost use Rattle.past_model.specs.Past.{graph_of};
ghost use Rattle.map_model.specs.declared.limits.TheConstants.{EDGE_BYTES};
ghost use Rattle.edge_fold.specs.Inputs.{inputs_of};
ghost use Rattle.edge_fold.specs.Laws.{EveryEdgeHasItsNumber, EveryEdgeIsListed};

use crate::mapped::Mapped;
use graph_model::GraphView;
use verifier::Verified;
use version::Version;

/// Each element is a byte. It does nothing: only its contract is used.
fn are_bytes(bytes: &[u8])
    ensures { (i : ℕ) → slice_index bytes.now i < 256 }
{}

/// A graph has fewer than 2^32 vertices. It does nothing: only its contract is used.
fn is_view<G: GraphView>(graph: &G)
    ensures { IsView (G.graph graph.now) }
{
    let _count = graph.vertex_count();
}

/// No run is left out of a map. Over any frontier an accepted program has as many numbers as the frontier's vertices have
/// neighbours.
pub fn every_edge_has_its_number(mapped: &Mapped<'_>)
    ensures { let m = mapped.now in EveryEdgeHasItsNumber m.program.now (graph_of m.version.now) (inputs_of m) }
{
    are_bytes(mapped.argument);
    is_view(mapped.version);
    let _image = mapped.program.image();
}

/// The list of all edges of a version has as many entries as the version has edges.
pub fn every_edge_is_listed(program: &Verified, version: &Version, argument: &[u8])
    requires { length argument.now + EDGE_BYTES ≡ program.now.record_length }
    ensures { EveryEdgeIsListed program.now (graph_of version.now) argument.now }
{
    are_bytes(argument);
    is_view(version);
    let _image = program.image();
}
