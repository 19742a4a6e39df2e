//! A graph for programs to ask.
use bpf_machine::GraphView;

/// A graph without an edge.
#[derive(Drop)]
pub struct Edgeless {
    pub vertices: u32,
}

impl GraphView for Edgeless {
    ghost use Rattle.graph_model.specs.Graph.{empty_graph};

    ghost graph = { λ g. empty_graph g.vertices };

    fn vertex_count(&self) -> u32 {
        self.vertices
    }

    fn degree(&self, _vertex: u64) -> u32 {
        0
    }

    fn has_edge(&self, _source: u64, _target: u64) -> bool {
        false
    }

    fn neighbour(&self, _vertex: u64, _place: u64) -> Option<u32> {
        None
    }

    fn gather(&self, _vertex: u64, _first: u64, out: &mut [u8]) -> u32 {
        for byte in out.iter_mut() {
            *byte = 255;
        }
        0
    }
}
