//! The numbers of a block of edges, kept for those that are asked for later.
ghost use Rattle.std.specs.Prelude.{◌≡◌, ◌+◌, ◌<◌, ◌≤◌, true, Some, ℕ, List, length};
ghost use Rattle.past_model.specs.Past.{graph_of};
ghost use Rattle.graph_model.specs.Graph.{Graph, degree};
ghost use Rattle.bpf_image.specs.Program.{Program};
ghost use Rattle.bpf_model.specs.Run.{number_for};
ghost use Rattle.bpf_blocks.specs.declared.columns.TheConstants.{LANES};
ghost use Rattle.map_model.specs.EdgeMap.{input_record};
ghost use Rattle.verifier.specs.Walks.{longest};
ghost use Rattle.edge_fold.specs.Kept.{AreNumbered, IsEdgeAt};
ghost use Rattle.edge_fold.specs.Inputs.{inputs_of};
ghost use Rattle.map_model.specs.EdgeMap.{Inputs};

use crate::blocks::{number_of_lane, sweep};
use crate::edge::Edge;
use crate::mapped::Mapped;
use bpf_blocks::{Columns, Edges, LANES};

/// A block of edges, and the numbers of those that have been run.
#[derive(Drop)]
pub(crate) struct Kept {
    pub edges: Edges,
    pub numbers: [u64; LANES],
    /// How many of the block's edges have their numbers here.
    pub count: usize,
    /// The edge that is looked for next. It only saves time.
    pub at: usize,
}

/// Whether a lane of a block has this edge.
#[inline(always)]
fn is_edge_at(edges: &Edges, lane: usize, edge: Edge) -> bool
    requires { lane < LANES }
    ensures { result ≡ true → IsEdgeAt edges.now lane edge }
{
    edges.targets[lane] == edge.target
        && edges.sources[lane] == edge.source
        && edges.places[lane] == edge.place
        && edges.degrees[lane] == edge.degree
}

impl Kept {
    /// No numbers.
    pub fn new() -> Kept
        ensures { (p : Program) (g : Graph) (inputs : Inputs) → AreNumbered p g inputs result }
    {
        Kept {
            edges: Edges::empty(),
            numbers: [0; LANES],
            count: 0,
            at: 0,
        }
    }

    /// Forgets all numbers.
    #[inline(always)]
    pub fn forget(&mut self)
        ensures numbered { (p : Program) (g : Graph) (inputs : Inputs) → AreNumbered p g inputs self.new }
        ensures edges { self.new.edges ≡ self.old.edges }
    {
        self.count = 0;
        self.at = 0;
    }

    /// Runs the block's edges at once, if that can be done, and keeps their numbers. The answer is whether it could.
    pub fn run(&mut self, mapped: &Mapped<'_>, columns: &mut Columns) -> bool
        requires { self.old.edges.count ≤ LANES }
        ensures { let m = mapped.now in AreNumbered m.program.now (graph_of m.version.now) (inputs_of m) self.new }
    {
        self.count = 0;
        self.at = 0;
        if !sweep(mapped, &mut self.edges, columns, &mut self.numbers) {
            return false;
        }
        self.count = self.edges.count;
        true
    }

    /// The number of an edge, if it is the one that is looked for next.
    #[inline(always)]
    pub fn number_of(&mut self, edge: Edge) -> Option<u64>
        ensures same { (p : Program) (g : Graph) (inputs : Inputs) → AreNumbered p g inputs self.old
            → AreNumbered p g inputs self.new }
        ensures number { (p : Program) (g : Graph) (inputs : Inputs) (n : ℕ) → AreNumbered p g inputs self.old
            → result ≡ Some n → edge.degree ≡ degree g edge.source
            → number_for p (longest p) g (input_record g edge.source edge.target edge.place inputs) ≡ Some n }
    {
        let lane = self.at;
        if lane >= self.count || lane >= LANES || !is_edge_at(&self.edges, lane, edge) {
            return None;
        }
        self.at = lane + 1;
        Some(number_of_lane(&self.numbers, lane))
    }
}
