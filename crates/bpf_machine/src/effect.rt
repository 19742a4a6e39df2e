//! What one instruction does.
ghost use Rattle.std.specs.Prelude.{◌≡◌, ◌≤◌, ◌≤ℤ◌, pos, length};
ghost use Rattle.bpf_isa.specs.declared.limits.TheConstants.{MOST_UNITS};
ghost use Rattle.bpf_image.specs.declared.limits.TheConstants.{MOST_RECORD_LENGTH, MOST_TABLE_LENGTH};
ghost use Rattle.bpf_model.specs.State.{lent};
ghost use Rattle.bpf_model.specs.Step.{effect};
ghost use Rattle.bpf_machine.specs.Seen.{state_of, answer, Keeps};

use crate::access::{Access, load_plain, load_signed, store_immediate, store_register};
use crate::alu::{move_signed, negate_register, operate, swap_register};
use crate::branch::{Condition, branch, jump_over};
use crate::calls::{call, exit};
use crate::helpers::call_helper;
use crate::machine::Machine;
use crate::turn::Turn;
use bpf_isa::Instruction;
use graph_model::GraphView;

/// What an instruction does to the machine and the record, on a graph. A pc inside the code is below 4,096, so the
/// next one fits.
pub(crate) fn perform<G: GraphView>(
    machine: &mut Machine,
    bytes: &mut [u8],
    table: &[u8],
    graph: &G,
    instruction: Instruction,
) -> Turn
    requires from { pos 0 ≤ℤ machine.old.pc }
    requires limit { machine.old.pc ≤ℤ pos MOST_UNITS }
    requires record { length bytes.old ≤ MOST_RECORD_LENGTH }
    requires table { length table.now ≤ MOST_TABLE_LENGTH }
    ensures step { effect (lent bytes.old table.now) (G.graph graph.now) instruction
        (state_of machine.old bytes.old table.now)
        ≡ answer result (state_of machine.new bytes.new table.now) }
    ensures kept { Keeps result bytes.old bytes.new }
{
    match instruction {
        Instruction::Alu {
            width,
            operation,
            destination,
            operand,
        } => operate(machine, width, operation, destination, operand),
        Instruction::MoveSigned {
            extension,
            destination,
            source,
        } => move_signed(machine, extension, destination, source),
        Instruction::Negate { width, destination } => negate_register(machine, width, destination),
        Instruction::Swap {
            order,
            bits,
            destination,
        } => swap_register(machine, order, bits, destination),
        Instruction::Jump { distance } => jump_over(machine, distance),
        Instruction::Branch {
            width,
            comparison,
            left,
            right,
            distance,
        } => {
            let condition = Condition {
                width,
                comparison,
                left,
                right,
            };
            branch(machine, condition, distance)
        }
        Instruction::CallHelper { number } => call_helper(machine, bytes, table, graph, number),
        Instruction::CallLocal { distance } => call(machine, distance),
        Instruction::Exit => exit(machine),
        Instruction::Load {
            size,
            destination,
            base,
            offset,
        } => {
            let access = Access { size, base, offset };
            load_plain(machine, bytes, table, access, destination)
        }
        Instruction::LoadSigned {
            size,
            destination,
            base,
            offset,
        } => {
            let access = Access { size, base, offset };
            load_signed(machine, bytes, table, access, destination)
        }
        Instruction::Store {
            size,
            base,
            offset,
            immediate,
        } => {
            let access = Access { size, base, offset };
            store_immediate(machine, bytes, table, access, immediate)
        }
        Instruction::StoreRegister {
            size,
            base,
            offset,
            source,
        } => {
            let access = Access { size, base, offset };
            store_register(machine, bytes, table, access, source)
        }
        Instruction::Wide { destination, value } => machine.put(2, destination, value),
    }
}
