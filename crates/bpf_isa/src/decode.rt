//! From units to an instruction.
ghost use Rattle.std.specs.Prelude.{◌≡◌, ℕ, ◌+◌, ◌*◌, ◌≤◌, ◌↔◌, length, IfOk};
ghost use Rattle.bpf_isa.specs.Encoding.{IsCodeAt};
ghost use Rattle.bpf_isa.specs.DecodeErrors.{operation_choosing, IsDecodeError};
ghost use Rattle.bpf_isa.specs.Reading.{
  fields_in,
  row_at,
  row_unused,
  all_zero,
  offset_test,
  instruction_of,
  is_second_unit,
  wide_instruction,
  read_row,
  no_fields,
  second_at,
  is_cut,
  decoding,
};

use crate::code_unit::{CodeUnit, unit_at};
use crate::decode_error::DecodeError;
use crate::instruction::{Distance, Instruction, Operand, Operation};
use crate::making::{
    alu, branch, call_local, jump, load, load_signed, move_signed, store, store_register, swap,
    wide,
};
use crate::register::Register;
use crate::row::Row;
use crate::row_table::row_of;

/// The opcode of the one instruction that takes two units.
const WIDE: u8 = 0x18;

/// The second unit of an instruction that has one unit only.
const NO_UNIT: CodeUnit = CodeUnit {
    opcode: 0,
    destination: 0,
    source: 0,
    offset: 0,
    immediate: 0,
};

#[derive(Clone, Copy)]
struct Registers {
    destination: Register,
    source: Register,
}

/// Whether the offset field is zero where the operation does not use it.
fn is_offset_allowed(operation: Operation, offset: u16) -> bool
    ensures { result ≡ offset_test (operation_choosing operation) offset }
{
    match operation {
        Operation::Divide
        | Operation::DivideSigned
        | Operation::Modulo
        | Operation::ModuloSigned
        | Operation::Move => true,
        Operation::Add
        | Operation::Subtract
        | Operation::Multiply
        | Operation::Or
        | Operation::And
        | Operation::ShiftLeft
        | Operation::ShiftRight
        | Operation::Xor
        | Operation::ShiftRightSigned => offset == 0,
    }
}

/// Whether each field that the row does not use is zero.
fn is_unused_zero(row: Row, unit: &CodeUnit) -> bool
    ensures { result ≡ all_zero (row_unused row) (fields_in unit.now) }
{
    let no_destination = unit.destination == 0;
    let no_source = unit.source == 0;
    let no_offset = unit.offset == 0;
    let no_immediate = unit.immediate == 0;
    match row {
        Row::ImmediateAlu { operation, .. } => is_offset_allowed(operation, unit.offset)
            && no_source,
        Row::RegisterAlu { operation, .. } => {
            is_offset_allowed(operation, unit.offset) && no_immediate
        }
        Row::MoveSigned { .. } => no_immediate,
        Row::Negate { .. } => no_source && no_offset && no_immediate,
        Row::Swap { .. } => no_source && no_offset,
        Row::NearJump => no_destination && no_source && no_immediate,
        Row::FarJump => no_destination && no_source && no_offset,
        Row::ImmediateBranch { .. } => no_source,
        Row::RegisterBranch { .. } => no_immediate,
        Row::CallHelper | Row::CallLocal => no_destination && no_offset,
        Row::Exit => no_destination && no_source && no_offset && no_immediate,
        Row::Load { .. } | Row::LoadSigned { .. } => no_immediate,
        Row::Store { .. } => no_source,
        Row::StoreRegister { .. } => no_immediate,
        Row::Wide => no_offset,
    }
}

/// The row's instruction, from its registers, its unit and the immediate of its second unit.
fn instruction_from(row: Row, registers: Registers, unit: &CodeUnit, upper: u32) -> Instruction
    ensures { result
        ≡ instruction_of row registers.destination registers.source (fields_in unit.now) upper }
{
    let Registers {
        destination,
        source,
    } = registers;
    let offset = unit.offset.cast_signed();
    let immediate = unit.immediate.cast_signed();
    let number = Operand::Immediate(immediate);
    let register = Operand::Source(source);
    match row {
        Row::ImmediateAlu { width, operation } => alu(width, operation, destination, number),
        Row::RegisterAlu { width, operation } => alu(width, operation, destination, register),
        Row::MoveSigned { extension } => move_signed(extension, destination, source),
        Row::Negate { width } => Instruction::Negate { width, destination },
        Row::Swap { order, bits } => swap(order, bits, destination),
        Row::NearJump => jump(Distance::Near(offset)),
        Row::FarJump => jump(Distance::Far(immediate)),
        Row::ImmediateBranch { width, comparison } => {
            branch(width, comparison, destination, number, offset)
        }
        Row::RegisterBranch { width, comparison } => {
            branch(width, comparison, destination, register, offset)
        }
        Row::CallHelper => Instruction::CallHelper { number: immediate },
        Row::CallLocal => call_local(immediate),
        Row::Exit => Instruction::Exit,
        Row::Load { size } => load(size, destination, source, offset),
        Row::LoadSigned { size } => load_signed(size, destination, source, offset),
        Row::Store { size } => store(size, destination, offset, immediate),
        Row::StoreRegister { size } => store_register(size, destination, offset, source),
        Row::Wide => wide(destination, unit.immediate, upper),
    }
}

/// Whether a unit has nothing but its immediate.
fn is_second(unit: &CodeUnit) -> bool
    ensures { result ≡ is_second_unit (fields_in unit.now) }
{
    unit.opcode == 0 && unit.destination == 0 && unit.source == 0 && unit.offset == 0
}

#[tactic(auto, unfolding(crate::specs::Reading::read_row))]
fn instruction_in(first: &CodeUnit, second: &CodeUnit) -> Result<(Instruction, usize), DecodeError>
    ensures { let fields = fields_in first.now in
        result ≡ read_row (row_at fields) fields (fields_in second.now) }
{
    let Some(row) = row_of(first) else {
        return Err(DecodeError::UnknownOpcode);
    };
    if !is_unused_zero(row, first) {
        return Err(DecodeError::UnusedField);
    }
    let Some(destination) = Register::from_number(first.destination) else {
        return Err(DecodeError::BadRegister);
    };
    let Some(source) = Register::from_number(first.source) else {
        return Err(DecodeError::BadRegister);
    };
    if !is_second(second) {
        return Err(DecodeError::BadWide);
    }
    let registers = Registers {
        destination,
        source,
    };
    let instruction = instruction_from(row, registers, first, second.immediate);
    Ok((instruction, instruction.units()))
}

#[tactic(auto, unfolding(crate::specs::Reading::decoding))]
fn decode(code: &[u8], pc: usize) -> Result<(Instruction, usize), DecodeError>
    ensures { result ≡ decoding code.now pc }
{
    let units = code.len() / 8;
    if pc >= units {
        return Err(DecodeError::Truncated);
    }
    let first = unit_at(code, pc);
    if first.opcode != WIDE {
        return instruction_in(&first, &NO_UNIT);
    }
    if pc + 1 >= units {
        return Err(DecodeError::Truncated);
    }
    let second = unit_at(code, pc + 1);
    instruction_in(&first, &second)
}

/// The instruction at unit `pc` of the code (RFC 9669, section 3), and how many units of 8 bytes
/// it takes. Instructions are those of the conformance groups base64 and divmul64, and a field
/// that an instruction does not use has to be zero.
///
/// Of the errors that apply the first one is given, in the order of `DecodeError`'s variants: a
/// cut by the code's end, an opcode of no row, a field that is not zero, a register above 10, a
/// second unit with more than an immediate. A `pc` past the code is a cut.
pub fn decode_at(code: &[u8], pc: usize) -> Result<(Instruction, usize), DecodeError>
    // What is decoded stands there, inside the code.
    ensures found { IfOk result (λ r. IsCodeAt code.now pc r.0 r.1) }
    ensures inside { IfOk result (λ r. 8 * (pc + r.1) ≤ length code.now) }

    // What stands there is decoded.
    ensures only { (i : Instruction) (units : ℕ) → IsCodeAt code.now pc i units → result ≡ Ok (i, units) }

    // Which error it is.
    ensures error { (e : DecodeError) → (result ≡ Err e) ↔ IsDecodeError code.now pc e }

    // The answer as a function of the bytes.
    ensures exact { result ≡ decoding code.now pc }
{
    decode(code, pc)
}
