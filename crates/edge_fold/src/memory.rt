//! What runs over edges work on.
use crate::blocks::Blocks;
use crate::kept::Kept;
use verifier::Verified;

/// What runs over edges work on. It is made once for many calls with a program.
#[derive(Drop)]
pub struct Memory {
    pub(crate) run: bpf_runs::Memory,
    pub(crate) blocks: Blocks,
    /// The numbers of a block of edges, for those that are asked for next. A map forgets them when it begins.
    pub(crate) kept: Kept,
    /// How much work the call under way may still do.
    pub(crate) budget: u64,
}

impl Memory {
    ghost use Rattle.std.specs.Prelude.{ℕ, List};
    ghost use Rattle.bpf_image.specs.Program.{Program};
    ghost use Rattle.graph_model.specs.Graph.{Graph};
    ghost use Rattle.edge_fold.specs.Kept.{AreKept, IsFor};
    ghost use Rattle.map_model.specs.EdgeMap.{Inputs};

    /// A memory for runs of a program: it has the program's table, and keeps no number. Edges are run in blocks only if that
    /// saves time.
    pub fn for_program(program: &Verified) -> Memory
        ensures table { IsFor program.now result }
        ensures kept { (p : Program) (g : Graph) (inputs : Inputs) → AreKept p g inputs result }
    {
        let mut memory = Memory {
            run: bpf_runs::Memory::new(),
            blocks: Blocks::for_program(program),
            kept: Kept::new(),
            budget: 0,
        };
        memory.run.put_table(program);
        memory
    }
}
