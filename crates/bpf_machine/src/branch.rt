//! Jumps and branches.
ghost use Rattle.std.specs.Prelude.{◌≡◌, ℕ, ◌≤ℤ◌, pos, List};
ghost use Rattle.bpf_isa.specs.declared.instruction.Instruction.TheVariants.{Jump, Branch};
ghost use Rattle.bpf_isa.specs.declared.limits.TheConstants.{MOST_UNITS};
ghost use Rattle.bpf_image.specs.declared.lengths.Lengths.{Lengths};
ghost use Rattle.graph_model.specs.Graph.{Graph};
ghost use Rattle.bpf_model.specs.Step.{effect};
ghost use Rattle.bpf_machine.specs.Seen.{state_of, answer};

use crate::machine::Machine;
use crate::turn::Turn;
use bpf_arithmetic::holds;
use bpf_isa::{Comparison, Distance, Operand, Register, Width};
use bpf_model::TrapKind;

/// A jump (RFC 9669, section 4.3).
pub(crate) fn jump_over(machine: &mut Machine, distance: Distance) -> Turn
    requires from { pos 0 ≤ℤ machine.old.pc }
    requires limit { machine.old.pc ≤ℤ pos MOST_UNITS }
    ensures { (lengths : Lengths) (g : Graph) (bytes table : List ℕ)
        → effect lengths g (Jump distance) (state_of machine.old bytes table)
        ≡ answer result (state_of machine.new bytes table) }
{
    match distance {
        Distance::Near(units) => machine.jump(i32::from(units)),
        Distance::Far(units) => machine.jump(units),
    }
}

/// What a conditional jump compares, and how.
#[derive(Clone, Copy)]
pub(crate) struct Condition {
    pub width: Width,
    pub comparison: Comparison,
    pub left: Register,
    pub right: Operand,
}

/// A conditional jump (RFC 9669, section 4.3).
pub(crate) fn branch(machine: &mut Machine, condition: Condition, distance: i16) -> Turn
    requires from { pos 0 ≤ℤ machine.old.pc }
    requires limit { machine.old.pc ≤ℤ pos MOST_UNITS }
    ensures { (lengths : Lengths) (g : Graph) (bytes table : List ℕ)
        → effect lengths g
        (Branch condition.width condition.comparison condition.left condition.right distance)
        (state_of machine.old bytes table)
        ≡ answer result (state_of machine.new bytes table) }
{
    let Some(first) = machine.register(condition.left) else {
        return Turn::Trapped(TrapKind::UnsetRegister);
    };
    let Some(second) = machine.operand(condition.right) else {
        return Turn::Trapped(TrapKind::UnsetRegister);
    };
    if holds(condition.width, condition.comparison, first, second) {
        machine.jump(i32::from(distance))
    } else {
        machine.jump(0)
    }
}
