//! A version as what a program may ask.
use crate::version::Version;
use graph_model::GraphView;

impl GraphView for Version {
    ghost use Rattle.past_model.specs.Past.{graph_of};

    ghost graph = { λ v. graph_of v };

    fn vertex_count(&self) -> u32 {
        self.vertex_count()
    }

    fn degree(&self, vertex: u64) -> u32 {
        self.degree(vertex)
    }

    fn has_edge(&self, source: u64, target: u64) -> bool {
        self.has_edge(source, target)
    }

    fn neighbour(&self, vertex: u64, place: u64) -> Option<u32> {
        self.neighbour(vertex, place)
    }

    fn gather(&self, vertex: u64, first: u64, out: &mut [u8]) -> u32 {
        self.gather(vertex, first, out)
    }
}
