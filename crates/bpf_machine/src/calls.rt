//! Calls of the program's own functions, and their exits (RFC 9669, section 4.3.2).
ghost use Rattle.std.specs.Prelude.{◌≡◌, ℕ, ◌<◌, ◌≤ℤ◌, pos, List};
ghost use Rattle.bpf_isa.specs.declared.instruction.Instruction.TheVariants.{CallLocal, Exit};
ghost use Rattle.bpf_isa.specs.declared.limits.TheConstants.{MOST_UNITS};
ghost use Rattle.bpf_image.specs.declared.lengths.Lengths.{Lengths};
ghost use Rattle.graph_model.specs.Graph.{Graph};
ghost use Rattle.bpf_model.specs.State.{with_value, only};
ghost use Rattle.bpf_model.specs.Calls.{saved_state};
ghost use Rattle.bpf_model.specs.Step.{effect};
ghost use Rattle.bpf_machine.specs.Seen.{values_of, saved_of, state_of, answer};

use crate::callers::{Kept, MOST_CALLERS};
use crate::machine::Machine;
use crate::stack::top_of;
use crate::turn::Turn;
use bpf_isa::Register;
use bpf_model::TrapKind;

/// The registers of a function that begins: R1 to R5 of its caller, and the top of its frame.
fn passed_registers(registers: &[Option<u64>; 11], top: u64) -> [Option<u64>; 11]
    ensures { values_of result ≡ with_value (only (values_of registers.now) 1 5) 10 top }
{
    [
        None,
        registers[1],
        registers[2],
        registers[3],
        registers[4],
        registers[5],
        None,
        None,
        None,
        None,
        Some(top),
    ]
}

/// The registers of a caller that goes on: those that were kept, the result and the top of its frame.
fn returned_registers(caller: &Kept, value: u64, top: u64) -> [Option<u64>; 11]
    ensures { values_of result ≡ with_value (with_value (saved_of caller.now).registers 0 value) 10 top }
{
    let kept = &caller.registers;
    [
        Some(value),
        None,
        None,
        None,
        None,
        None,
        kept[0],
        kept[1],
        kept[2],
        kept[3],
        Some(top),
    ]
}

/// What is kept of the function that runs while another runs that it calls.
fn kept_of(machine: &Machine) -> Kept
    requires from { pos 0 ≤ℤ machine.now.pc }
    requires limit { machine.now.pc ≤ℤ pos MOST_UNITS }
    ensures { (bytes table : List ℕ) → saved_of result ≡ saved_state (state_of machine.now bytes table) }
{
    let registers = &machine.registers;
    Kept {
        registers: [registers[6], registers[7], registers[8], registers[9]],
        return_pc: machine.pc + 1,
    }
}

/// A call of a function, so many units from the next instruction.
pub(crate) fn call(machine: &mut Machine, distance: i32) -> Turn
    requires from { pos 0 ≤ℤ machine.old.pc }
    requires limit { machine.old.pc ≤ℤ pos MOST_UNITS }
    ensures { (lengths : Lengths) (g : Graph) (bytes table : List ℕ)
        → effect lengths g (CallLocal distance) (state_of machine.old bytes table)
        ≡ answer result (state_of machine.new bytes table) }
{
    if machine.callers.count >= MOST_CALLERS {
        return Turn::Trapped(TrapKind::NinthFrame);
    }
    let caller = kept_of(machine);
    machine.callers.push(caller);
    let frame = machine.callers.count;
    machine.registers = passed_registers(&machine.registers, top_of(frame));
    machine.stack.open_frame(frame);
    machine.jump(distance)
}

/// The exit of a function, which ends the run where no caller waits.
pub(crate) fn exit(machine: &mut Machine) -> Turn
    ensures { (lengths : Lengths) (g : Graph) (bytes table : List ℕ)
        → effect lengths g Exit (state_of machine.old bytes table)
        ≡ answer result (state_of machine.new bytes table) }
{
    let Some(value) = machine.register(Register::R0) else {
        return Turn::Trapped(TrapKind::UnsetResult);
    };
    let Some(caller) = machine.callers.pop() else {
        return Turn::Exited(value);
    };
    let top = top_of(machine.callers.count);
    machine.registers = returned_registers(&caller, value, top);
    machine.pc = caller.return_pc;
    Turn::Went
}
