//! Arithmetic instructions.
ghost use Rattle.std.specs.Prelude.{◌≡◌, ℕ, ◌≤ℤ◌, pos, List};
ghost use Rattle.bpf_isa.specs.Encoding.{number_of};
ghost use Rattle.bpf_isa.specs.declared.instruction.Instruction.TheVariants.{Alu, MoveSigned, Negate, Swap};
ghost use Rattle.bpf_isa.specs.declared.limits.TheConstants.{MOST_UNITS};
ghost use Rattle.bpf_image.specs.declared.lengths.Lengths.{Lengths};
ghost use Rattle.graph_model.specs.Graph.{Graph};
ghost use Rattle.bpf_model.specs.Step.{left_of, effect};
ghost use Rattle.bpf_machine.specs.Seen.{values_of, state_of, answer};

use crate::machine::Machine;
use crate::turn::Turn;
use bpf_arithmetic::{calculate, extend_sign, negate, swap};
use bpf_isa::{ByteOrder, Extension, Operand, Operation, Register, SwapBits, Width};
use bpf_model::TrapKind;

/// The first number of an operation. A move takes none, so its destination need not be set.
fn first_number(machine: &Machine, operation: Operation, destination: Register) -> Option<u64>
    ensures { result ≡ left_of operation (values_of machine.now.registers (number_of destination)) }
{
    match operation {
        Operation::Move => Some(0),
        _ => machine.register(destination),
    }
}

/// An arithmetic instruction (RFC 9669, section 4.1).
pub(crate) fn operate(
    machine: &mut Machine,
    width: Width,
    operation: Operation,
    destination: Register,
    operand: Operand,
) -> Turn
    requires { machine.old.pc ≤ℤ pos MOST_UNITS }
    ensures { (lengths : Lengths) (g : Graph) (bytes table : List ℕ)
        → effect lengths g
        (Alu width operation destination operand)
        (state_of machine.old bytes table)
        ≡ answer result (state_of machine.new bytes table) }
{
    let Some(left) = first_number(machine, operation, destination) else {
        return Turn::Trapped(TrapKind::UnsetRegister);
    };
    let Some(right) = machine.operand(operand) else {
        return Turn::Trapped(TrapKind::UnsetRegister);
    };
    let value = calculate(width, operation, left, right);
    machine.put(1, destination, value)
}

/// A move that extends a sign (RFC 9669, section 4.1).
pub(crate) fn move_signed(
    machine: &mut Machine,
    extension: Extension,
    destination: Register,
    source: Register,
) -> Turn
    requires { machine.old.pc ≤ℤ pos MOST_UNITS }
    ensures { (lengths : Lengths) (g : Graph) (bytes table : List ℕ)
        → effect lengths g
        (MoveSigned extension destination source)
        (state_of machine.old bytes table)
        ≡ answer result (state_of machine.new bytes table) }
{
    match machine.register(source) {
        None => Turn::Trapped(TrapKind::UnsetRegister),
        Some(value) => machine.put(1, destination, extend_sign(extension, value)),
    }
}

/// A negation (RFC 9669, section 4.1).
pub(crate) fn negate_register(machine: &mut Machine, width: Width, destination: Register) -> Turn
    requires { machine.old.pc ≤ℤ pos MOST_UNITS }
    ensures { (lengths : Lengths) (g : Graph) (bytes table : List ℕ)
        → effect lengths g (Negate width destination) (state_of machine.old bytes table)
        ≡ answer result (state_of machine.new bytes table) }
{
    match machine.register(destination) {
        None => Turn::Trapped(TrapKind::UnsetRegister),
        Some(value) => machine.put(1, destination, negate(width, value)),
    }
}

/// A byte swap (RFC 9669, section 4.2).
pub(crate) fn swap_register(
    machine: &mut Machine,
    order: ByteOrder,
    bits: SwapBits,
    destination: Register,
) -> Turn
    requires { machine.old.pc ≤ℤ pos MOST_UNITS }
    ensures { (lengths : Lengths) (g : Graph) (bytes table : List ℕ)
        → effect lengths g (Swap order bits destination) (state_of machine.old bytes table)
        ≡ answer result (state_of machine.new bytes table) }
{
    match machine.register(destination) {
        None => Turn::Trapped(TrapKind::UnsetRegister),
        Some(value) => machine.put(1, destination, swap(order, bits, value)),
    }
}
