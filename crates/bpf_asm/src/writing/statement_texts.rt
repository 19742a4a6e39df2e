//! The text of an instruction.
ghost use Rattle.std.specs.Prelude.{◌≡◌, ◌++◌, codes, string_bytes, OnOk};
ghost use Rattle.std.specs.Fmt.{decimal, signed_decimal};
ghost use Rattle.bpf_asm.specs.Writing.{
  label_text,
  memory_text,
  offset_text,
  operand_text,
  operand_texts,
  operands_text,
  register_text,
  statement_text,
  target_of,
  target_text,
  word_text,
};
ghost use Rattle.bpf_asm.specs.Listing.{label_line};

use crate::writing::placed::{Placed, Target};
use crate::writing::word_texts::{
    mark_of_signed_size, mark_of_size, mark_of_swap, mark_of_width, name_of_register,
    word_of_comparison, word_of_extension, word_of_jump, word_of_operation, word_of_order,
};
use bpf_isa::{Instruction, Operand, Register};
use itoa::Buffer;
use std::alloc::AllocError;

/// Writes a part at the end of a text.
pub(crate) fn put(text: &mut String, part: &str) -> Result<(), AllocError>
    ensures { OnOk result (string_bytes text.new ≡ string_bytes text.old ++ part.now) }
{
    text.push_str(part)
}

/// Writes two parts.
fn put_both(text: &mut String, first: &str, second: &str) -> Result<(), AllocError>
    ensures { OnOk result (string_bytes text.new ≡ string_bytes text.old ++ (first.now ++ second.now)) }
{
    put(text, first)?;
    put(text, second)
}

/// Writes a number in decimal digits.
fn put_number(text: &mut String, number: u64) -> Result<(), AllocError>
    ensures { OnOk result (string_bytes text.new ≡ string_bytes text.old ++ decimal number) }
{
    let mut buffer = Buffer::new();
    put(text, buffer.format(number))
}

/// Writes a number in decimal digits, with a sign where it is negative.
fn put_signed(text: &mut String, number: i32) -> Result<(), AllocError>
    ensures { OnOk result (string_bytes text.new ≡ string_bytes text.old ++ signed_decimal number) }
{
    let mut buffer = Buffer::new();
    put(text, buffer.format(number))
}

/// Writes a label.
fn put_label(text: &mut String, unit: usize) -> Result<(), AllocError>
    ensures { OnOk result (string_bytes text.new ≡ string_bytes text.old ++ label_text unit) }
{
    put(text, "L")?;
    put_number(text, unit as u64)
}

/// Writes a label on a line of its own.
pub(crate) fn put_label_line(text: &mut String, unit: usize) -> Result<(), AllocError>
    ensures { OnOk result (string_bytes text.new ≡ string_bytes text.old ++ label_line unit) }
{
    put_label(text, unit)?;
    put(text, ":\n")
}

/// Writes where an instruction goes on.
fn put_target(text: &mut String, target: Target) -> Result<(), AllocError>
    ensures { OnOk result (string_bytes text.new ≡ string_bytes text.old ++ target_text target) }
{
    match target {
        Target::At(unit) => put_label(text, unit),
        Target::Before | Target::Nowhere => put(text, ""),
    }
}

fn put_operand(text: &mut String, operand: Operand) -> Result<(), AllocError>
    ensures { OnOk result (string_bytes text.new ≡ string_bytes text.old ++ operand_text operand) }
{
    match operand {
        Operand::Immediate(number) => put_signed(text, number),
        Operand::Source(register) => put(text, name_of_register(register)),
    }
}

/// Writes a number with its sign.
fn put_offset(text: &mut String, offset: i16) -> Result<(), AllocError>
    ensures { OnOk result (string_bytes text.new ≡ string_bytes text.old ++ offset_text offset) }
{
    if offset < 0 {
        put(text, "-")?;
    } else {
        put(text, "+")?;
    }
    put_number(text, u64::from(offset.unsigned_abs()))
}

fn put_memory(text: &mut String, base: Register, offset: i16) -> Result<(), AllocError>
    ensures { OnOk result (string_bytes text.new ≡ string_bytes text.old ++ memory_text base offset) }
{
    put_both(text, "[", name_of_register(base))?;
    put_offset(text, offset)?;
    put(text, "]")
}

/// Writes the word of an instruction.
fn put_word(text: &mut String, instruction: Instruction) -> Result<(), AllocError>
    ensures { OnOk result (string_bytes text.new ≡ string_bytes text.old ++ word_text instruction) }
{
    match instruction {
        Instruction::Alu {
            width,
            operation,
            ..
        } => put_both(text, word_of_operation(operation), mark_of_width(width)),
        Instruction::MoveSigned { extension, .. } => put(text, word_of_extension(extension)),
        Instruction::Negate { width, .. } => put_both(text, "neg", mark_of_width(width)),
        Instruction::Swap { order, bits, .. } => {
            put_both(text, word_of_order(order), mark_of_swap(bits))
        }
        Instruction::Jump { distance } => put(text, word_of_jump(distance)),
        Instruction::Branch {
            width,
            comparison,
            ..
        } => put_both(text, word_of_comparison(comparison), mark_of_width(width)),
        Instruction::CallHelper { .. } => put(text, "call"),
        Instruction::CallLocal { .. } => put(text, "calllocal"),
        Instruction::Exit => put(text, "exit"),
        Instruction::Load { size, .. } => put_both(text, "ldx", mark_of_size(size)),
        Instruction::LoadSigned { size, .. } => put_both(text, "ldx", mark_of_signed_size(size)),
        Instruction::Store { size, .. } => put_both(text, "st", mark_of_size(size)),
        Instruction::StoreRegister { size, .. } => put_both(text, "stx", mark_of_size(size)),
        Instruction::Wide { .. } => put(text, "lddw"),
    }
}

/// Writes a register as the first operand.
fn put_first(text: &mut String, register: Register) -> Result<(), AllocError>
    ensures { OnOk result (string_bytes text.new ≡ string_bytes text.old ++ (codes " " ++ register_text register)) }
{
    put_both(text, " ", name_of_register(register))
}

/// Writes a register as an operand after the first.
fn put_next(text: &mut String, register: Register) -> Result<(), AllocError>
    ensures { OnOk result (string_bytes text.new ≡ string_bytes text.old ++ (codes ", " ++ register_text register)) }
{
    put_both(text, ", ", name_of_register(register))
}

/// Writes a register and an operand.
fn put_pair(text: &mut String, register: Register, operand: Operand) -> Result<(), AllocError>
    ensures { OnOk result (string_bytes text.new
        ≡ string_bytes text.old ++ (codes " " ++ (register_text register ++ (codes ", " ++ operand_text operand)))) }
{
    put_first(text, register)?;
    put(text, ", ")?;
    put_operand(text, operand)
}

/// Writes a register and a memory operand.
fn put_loaded(
    text: &mut String,
    register: Register,
    base: Register,
    offset: i16,
) -> Result<(), AllocError>
    ensures { OnOk result (string_bytes text.new
        ≡ string_bytes text.old ++ (codes " " ++ (register_text register ++ (codes ", " ++ memory_text base offset)))) }
{
    put_first(text, register)?;
    put(text, ", ")?;
    put_memory(text, base, offset)
}

/// Writes a memory operand as the first.
fn put_place(text: &mut String, base: Register, offset: i16) -> Result<(), AllocError>
    ensures { OnOk result (string_bytes text.new ≡ string_bytes text.old ++ (codes " " ++ memory_text base offset)) }
{
    put(text, " ")?;
    put_memory(text, base, offset)
}

/// Writes the operands of an instruction that goes to this target.
fn put_operands(
    text: &mut String,
    instruction: Instruction,
    target: Target,
) -> Result<(), AllocError>
    ensures { OnOk result (string_bytes text.new ≡ string_bytes text.old
        ++ operands_text (operand_texts instruction target)) }
{
    match instruction {
        Instruction::Alu {
            destination,
            operand,
            ..
        } => put_pair(text, destination, operand),
        Instruction::MoveSigned {
            destination,
            source,
            ..
        } => put_pair(text, destination, Operand::Source(source)),
        Instruction::Negate { destination, .. } | Instruction::Swap { destination, .. } => {
            put_first(text, destination)
        }
        Instruction::Jump { .. } | Instruction::CallLocal { .. } => {
            put(text, " ")?;
            put_target(text, target)
        }
        Instruction::Branch { left, right, .. } => {
            put_pair(text, left, right)?;
            put(text, ", ")?;
            put_target(text, target)
        }
        Instruction::CallHelper { number } => {
            put(text, " ")?;
            put_signed(text, number)
        }
        Instruction::Exit => Ok(()),
        Instruction::Load {
            destination,
            base,
            offset,
            ..
        } => put_loaded(text, destination, base, offset),
        Instruction::LoadSigned {
            destination,
            base,
            offset,
            ..
        } => put_loaded(text, destination, base, offset),
        Instruction::Store {
            base,
            offset,
            immediate,
            ..
        } => {
            put_place(text, base, offset)?;
            put(text, ", ")?;
            put_signed(text, immediate)
        }
        Instruction::StoreRegister {
            base,
            offset,
            source,
            ..
        } => {
            put_place(text, base, offset)?;
            put_next(text, source)
        }
        Instruction::Wide { destination, value } => {
            put_first(text, destination)?;
            put(text, ", ")?;
            put_number(text, value)
        }
    }
}

/// Writes the statement of an instruction at the end of a text, as `disassemble` has it. A jump names the label of the
/// unit to which it goes, also where no instruction starts there.
pub fn put_statement(text: &mut String, placed: Placed) -> Result<(), AllocError>
    ensures { OnOk result (string_bytes text.new ≡ string_bytes text.old
        ++ statement_text placed.pc placed.instruction) }
{
    put_word(text, placed.instruction)?;
    put_operands(text, placed.instruction, placed.target())
}
