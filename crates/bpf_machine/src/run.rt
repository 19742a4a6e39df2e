//! A run from its start to its end.
ghost use Rattle.std.specs.Prelude.{◌≡◌, ◌<◌, pos, length, IfSome, IsNone};
ghost use Rattle.graph_model.specs.Graph.{Graph};
ghost use Rattle.bpf_image.specs.Program.{Program, units};
ghost use Rattle.bpf_model.specs.State.{State};
ghost use Rattle.bpf_model.specs.Step.{Traps, step, step_at};
ghost use Rattle.bpf_model.specs.Run.{IsOutcome};
ghost use Rattle.bpf_machine.specs.Seen.{state_of, answer, Keeps};

use crate::effect::perform;
use crate::machine::Machine;
use crate::turn::Turn;
use bpf_image::Image;
use bpf_isa::decode_at;
use bpf_model::{Outcome, TrapKind};
use graph_model::GraphView;

/// The unit at a pc, if it is one of the code's.
fn unit_at(pc: i64, count: usize) -> Option<usize>
    ensures inside { IfSome result (λ place. (pc ≡ pos place) × (place < count)) }
    ensures outside { IsNone result
        → (p : Program) (g : Graph) (s : State) → units p ≡ count → step_at p g pc s ≡ Traps TrapKind.OutsideCode s.pc }
{
    match usize::try_from(pc) {
        Ok(place) if place < count => Some(place),
        _ => None,
    }
}

/// Performs the instruction at the pc, if there is one.
fn take_turn<G: GraphView>(
    machine: &mut Machine,
    bytes: &mut [u8],
    image: &Image,
    graph: &G,
) -> Turn
    requires { length bytes.old ≡ image.now.record_length }
    ensures step { step image.now (G.graph graph.now) (state_of machine.old bytes.old image.now.table)
        ≡ answer result (state_of machine.new bytes.new image.now.table) }
    ensures kept { Keeps result bytes.old bytes.new }
{
    let code = image.code();
    let Some(place) = unit_at(machine.pc, code.len() / 8) else {
        return Turn::Trapped(TrapKind::OutsideCode);
    };
    match decode_at(code, place) {
        Ok((instruction, _)) => perform(machine, bytes, image.table(), graph, instruction),
        Err(_) => Turn::Trapped(TrapKind::BadInstruction),
    }
}

/// Runs a program on the record that it is lent and on a graph, until it exits, is stopped, or has
/// done as many instructions as it has fuel. Fuel is tested before each instruction. Every access is
/// tested, so any code may be run. It takes no memory.
pub fn run_checked<G: GraphView>(image: &Image, bytes: &mut [u8], graph: &G, fuel: u64) -> Outcome
    requires { length bytes.old ≡ image.now.record_length }
    ensures { IsOutcome image.now (G.graph graph.now) bytes.old fuel result bytes.new }
{
    let mut machine = Machine::new(image.lengths());
    for steps in 0..fuel {
        match take_turn(&mut machine, bytes, image, graph) {
            Turn::Went => {}
            Turn::Exited(value) => {
                return Outcome::Exit {
                    value,
                    steps: steps + 1,
                };
            }
            Turn::Trapped(kind) => {
                return Outcome::Trap {
                    kind,
                    pc: machine.pc,
                };
            }
        }
    }
    Outcome::OutOfFuel
}
