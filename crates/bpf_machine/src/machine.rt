//! A run between two instructions.
ghost use Rattle.std.specs.Prelude.{◌≡◌, ℕ, ◌≤◌, ◌≤ℤ◌, pos, List};
ghost use Rattle.bpf_isa.specs.Encoding.{number_of};
ghost use Rattle.bpf_isa.specs.declared.limits.TheConstants.{MOST_UNITS};
ghost use Rattle.bpf_image.specs.Program.{Program};
ghost use Rattle.bpf_image.specs.declared.limits.TheConstants.{MOST_RECORD_LENGTH};
ghost use Rattle.bpf_model.specs.State.{start_registers, table_address};
ghost use Rattle.bpf_machine.specs.Seen.{values_of};

use crate::callers::Callers;
use crate::stack::{Stack, top_of};
use crate::turn::Turn;
use bpf_image::Lengths;
use bpf_isa::{Operand, Register};
use bpf_model::{RECORD_BASE, TABLE_BASE, TrapKind};

/// A run between two instructions, without the record that it is lent.
#[derive(Drop)]
pub struct Machine {
    /// Which unit of the code comes next.
    pub pc: i64,
    /// The registers, each set or not.
    pub registers: [Option<u64>; 11],
    /// The frames of all functions that are live.
    pub stack: Stack,
    /// What is kept for the callers of the function that runs.
    pub callers: Callers,
}

/// Where the table begins, of a program that has one.
fn table_start(lengths: Lengths) -> Option<u64>
    ensures { result ≡ table_address lengths.table_length }
{
    if lengths.table_length == 0 {
        None
    } else {
        Some(TABLE_BASE)
    }
}

/// The registers as a run begins on a record and a table of so many bytes.
fn first_registers(lengths: Lengths) -> [Option<u64>; 11]
    ensures { values_of result ≡ start_registers lengths }
{
    let mut registers = [None; 11];
    registers[1] = Some(RECORD_BASE);
    registers[2] = Some(u64::from(lengths.record_length));
    registers[3] = table_start(lengths);
    registers[10] = Some(top_of(0));
    registers
}

impl Machine {
    ghost use Rattle.bpf_model.specs.State.{start, lent, live_frames, most_frames};
    ghost use Rattle.bpf_model.specs.Step.{operand_of, next_with_result, jump};
    ghost use Rattle.bpf_machine.specs.Seen.{state_of, answer};

    /// The machine as a run begins on a record and a table of so many bytes.
    pub(crate) fn new(lengths: Lengths) -> Machine
        requires { lengths.record_length ≤ MOST_RECORD_LENGTH }
        ensures pc { result.pc ≡ pos 0 }
        ensures start { (p : Program) (bytes : List ℕ)
            → lent bytes p.table ≡ lengths → start p bytes ≡ state_of result bytes p.table }
    {
        let registers = first_registers(lengths);
        let stack = Stack::new();
        let callers = Callers::new();
        Machine {
            pc: 0,
            registers,
            stack,
            callers,
        }
    }

    /// How many frames are live: the current one, and one for each caller.
    pub(crate) fn live_frames(&self) -> usize
        ensures live { (bytes table : List ℕ) → result ≡ live_frames (state_of self.now bytes table) }
        ensures few { result ≤ most_frames }
    {
        self.callers.count + 1
    }

    /// What a register holds, if it is set.
    pub(crate) fn register(&self, register: Register) -> Option<u64>
        ensures { result ≡ values_of self.now.registers (number_of register) }
    {
        self.registers[register.number() as usize]
    }

    /// The number that an operand stands for.
    pub(crate) fn operand(&self, operand: Operand) -> Option<u64>
        ensures { (bytes table : List ℕ) → result ≡ operand_of (state_of self.now bytes table) operand }
    {
        match operand {
            Operand::Immediate(number) => Some(i64::from(number).cast_unsigned()),
            Operand::Source(register) => self.register(register),
        }
    }

    /// Gives a register a number and goes on with the next instruction, so many units ahead.
    pub(crate) fn put(&mut self, units: u8, destination: Register, value: u64) -> Turn
        requires { self.old.pc ≤ℤ pos MOST_UNITS }
        ensures { (bytes table : List ℕ)
            → next_with_result (state_of self.old bytes table) units destination value
            ≡ answer result (state_of self.new bytes table) }
    {
        let number = destination.number();
        if number == 10 {
            return Turn::Trapped(TrapKind::FrameRegister);
        }
        self.registers[number as usize] = Some(value);
        self.pc += i64::from(units);
        Turn::Went
    }

    /// Goes on at a distance from the next instruction, wherever that is.
    pub(crate) fn jump(&mut self, distance: i32) -> Turn
        requires from { pos 0 ≤ℤ self.old.pc }
        requires limit { self.old.pc ≤ℤ pos MOST_UNITS }
        ensures { (bytes table : List ℕ) → jump (state_of self.old bytes table) distance
            ≡ answer result (state_of self.new bytes table) }
    {
        self.pc = self.pc + 1 + i64::from(distance);
        Turn::Went
    }
}
