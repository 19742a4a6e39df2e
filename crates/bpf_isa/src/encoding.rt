//! From an instruction to its units.
ghost use Rattle.std.specs.Prelude.{◌≡◌, ◌≤◌, ◌*◌, ◌-◌, ◌++◌, length, drop, replicate};
ghost use Rattle.std.specs.Int.{cast_unsigned};
ghost use Rattle.bpf_isa.specs.Encoding.{
  unit_bytes,
  alu_class,
  jump_class,
  operation_code,
  operation_offset,
  comparison_code,
  size_bits,
  signed_size_bits,
  extension_width,
  extension_bits,
  swap_opcode,
  swap_bits,
  jump_opcode,
  jump_offset,
  jump_immediate,
  source_bit,
  operand_source,
  operand_immediate,
  fields_of,
  second_unit,
  spelling,
  units_of,
};
ghost use Rattle.bpf_isa.specs.Reading.{fields_in};

use crate::code_unit::CodeUnit;
use crate::instruction::{
    ByteOrder, Comparison, Distance, Extension, Instruction, Operand, Operation, SignedSize, Size,
    SwapBits, Width,
};
use byteorder::{ByteOrder as _, LittleEndian};

fn class_of_alu(width: Width) -> u8
    ensures { result ≡ alu_class width }
{
    match width {
        Width::Bits32 => 4,
        Width::Bits64 => 7,
    }
}

fn class_of_jump(width: Width) -> u8
    ensures { result ≡ jump_class width }
{
    match width {
        Width::Bits32 => 6,
        Width::Bits64 => 5,
    }
}

fn code_of_operation(operation: Operation) -> u8
    ensures exact { result ≡ operation_code operation }
    ensures limit { result ≤ 12 }
{
    match operation {
        Operation::Add => 0,
        Operation::Subtract => 1,
        Operation::Multiply => 2,
        Operation::Divide | Operation::DivideSigned => 3,
        Operation::Or => 4,
        Operation::And => 5,
        Operation::ShiftLeft => 6,
        Operation::ShiftRight => 7,
        Operation::Modulo | Operation::ModuloSigned => 9,
        Operation::Xor => 10,
        Operation::Move => 11,
        Operation::ShiftRightSigned => 12,
    }
}

fn offset_of_operation(operation: Operation) -> u16
    ensures { result ≡ operation_offset operation }
{
    match operation {
        Operation::DivideSigned | Operation::ModuloSigned => 1,
        _ => 0,
    }
}

fn code_of_comparison(comparison: Comparison) -> u8
    ensures exact { result ≡ comparison_code comparison }
    ensures limit { result ≤ 13 }
{
    match comparison {
        Comparison::Equal => 1,
        Comparison::Greater => 2,
        Comparison::GreaterOrEqual => 3,
        Comparison::SharesBit => 4,
        Comparison::NotEqual => 5,
        Comparison::GreaterSigned => 6,
        Comparison::GreaterOrEqualSigned => 7,
        Comparison::Less => 10,
        Comparison::LessOrEqual => 11,
        Comparison::LessSigned => 12,
        Comparison::LessOrEqualSigned => 13,
    }
}

fn bits_of_size(size: Size) -> u8
    ensures exact { result ≡ size_bits size }
    ensures limit { result ≤ 24 }
{
    match size {
        Size::Word => 0,
        Size::Half => 8,
        Size::Byte => 16,
        Size::Double => 24,
    }
}

fn bits_of_signed_size(size: SignedSize) -> u8
    ensures exact { result ≡ signed_size_bits size }
    ensures limit { result ≤ 16 }
{
    match size {
        SignedSize::SignedWord => 0,
        SignedSize::SignedHalf => 8,
        SignedSize::SignedByte => 16,
    }
}

fn bits_of_extension(extension: Extension) -> u16
    ensures { result ≡ extension_bits extension }
{
    match extension {
        Extension::From8To32 | Extension::From8To64 => 8,
        Extension::From16To32 | Extension::From16To64 => 16,
        Extension::From32To64 => 32,
    }
}

fn opcode_of_swap(order: ByteOrder) -> u8
    ensures { result ≡ swap_opcode order }
{
    match order {
        ByteOrder::Little => 0xd4,
        ByteOrder::Big => 0xdc,
        ByteOrder::Reversed => 0xd7,
    }
}

fn bits_of_swap(bits: SwapBits) -> u32
    ensures { result ≡ swap_bits bits }
{
    match bits {
        SwapBits::Low16 => 16,
        SwapBits::Low32 => 32,
        SwapBits::Low64 => 64,
    }
}

fn bit_of_operand(operand: Operand) -> u8
    ensures exact { result ≡ source_bit operand }
    ensures limit { result ≤ 8 }
{
    match operand {
        Operand::Immediate(_) => 0,
        Operand::Source(_) => 8,
    }
}

fn source_of_operand(operand: Operand) -> u8
    ensures exact { result ≡ operand_source operand }
    ensures limit { result ≤ 10 }
{
    match operand {
        Operand::Immediate(_) => 0,
        Operand::Source(register) => register.number(),
    }
}

fn immediate_of_operand(operand: Operand) -> u32
    ensures { result ≡ operand_immediate operand }
{
    match operand {
        Operand::Immediate(number) => number.cast_unsigned(),
        Operand::Source(_) => 0,
    }
}

fn opcode_of_jump(distance: Distance) -> u8
    ensures { result ≡ jump_opcode distance }
{
    match distance {
        Distance::Near(_) => 0x05,
        Distance::Far(_) => 0x06,
    }
}

fn offset_of_jump(distance: Distance) -> u16
    ensures { result ≡ jump_offset distance }
{
    match distance {
        Distance::Near(distance) => distance.cast_unsigned(),
        Distance::Far(_) => 0,
    }
}

fn immediate_of_jump(distance: Distance) -> u32
    ensures { result ≡ jump_immediate distance }
{
    match distance {
        Distance::Near(_) => 0,
        Distance::Far(distance) => distance.cast_unsigned(),
    }
}

fn opcode_of(instruction: Instruction) -> u8
    ensures { result ≡ (fields_of instruction).opcode }
{
    match instruction {
        Instruction::Alu {
            width,
            operation,
            operand,
            ..
        } => { 16 * code_of_operation(operation) + bit_of_operand(operand) + class_of_alu(width) }
        Instruction::MoveSigned { extension, .. } => { 0xb8 + class_of_alu(extension.width()) }
        Instruction::Negate { width, .. } => 0x80 + class_of_alu(width),
        Instruction::Swap { order, .. } => opcode_of_swap(order),
        Instruction::Jump { distance } => opcode_of_jump(distance),
        Instruction::Branch {
            width,
            comparison,
            right,
            ..
        } => { 16 * code_of_comparison(comparison) + bit_of_operand(right) + class_of_jump(width) }
        Instruction::CallHelper { .. } | Instruction::CallLocal { .. } => 0x85,
        Instruction::Exit => 0x95,
        Instruction::Load { size, .. } => 0x61 + bits_of_size(size),
        Instruction::LoadSigned { size, .. } => 0x81 + bits_of_signed_size(size),
        Instruction::Store { size, .. } => 0x62 + bits_of_size(size),
        Instruction::StoreRegister { size, .. } => 0x63 + bits_of_size(size),
        Instruction::Wide { .. } => 0x18,
    }
}

fn destination_of(instruction: Instruction) -> u8
    ensures exact { result ≡ (fields_of instruction).destination }
    ensures limit { result ≤ 10 }
{
    match instruction {
        Instruction::Alu { destination, .. }
        | Instruction::MoveSigned { destination, .. }
        | Instruction::Negate { destination, .. }
        | Instruction::Swap { destination, .. }
        | Instruction::Load { destination, .. }
        | Instruction::LoadSigned { destination, .. }
        | Instruction::Wide { destination, .. } => destination.number(),
        Instruction::Branch { left, .. } => left.number(),
        Instruction::Store { base, .. } | Instruction::StoreRegister { base, .. } => base.number(),
        Instruction::Jump { .. }
        | Instruction::CallHelper { .. }
        | Instruction::CallLocal { .. }
        | Instruction::Exit => 0,
    }
}

fn source_of(instruction: Instruction) -> u8
    ensures exact { result ≡ (fields_of instruction).source }
    ensures limit { result ≤ 10 }
{
    match instruction {
        Instruction::Alu { operand, .. } => source_of_operand(operand),
        Instruction::Branch { right, .. } => source_of_operand(right),
        Instruction::MoveSigned { source, .. } | Instruction::StoreRegister { source, .. } => {
            source.number()
        }
        Instruction::Load { base, .. } | Instruction::LoadSigned { base, .. } => base.number(),
        Instruction::CallLocal { .. } => 1,
        Instruction::Negate { .. }
        | Instruction::Swap { .. }
        | Instruction::Jump { .. }
        | Instruction::CallHelper { .. }
        | Instruction::Exit
        | Instruction::Store { .. }
        | Instruction::Wide { .. } => 0,
    }
}

fn offset_of(instruction: Instruction) -> u16
    ensures { result ≡ (fields_of instruction).offset }
{
    match instruction {
        Instruction::Alu { operation, .. } => offset_of_operation(operation),
        Instruction::MoveSigned { extension, .. } => bits_of_extension(extension),
        Instruction::Jump { distance } => offset_of_jump(distance),
        Instruction::Branch { distance, .. } => distance.cast_unsigned(),
        Instruction::Load { offset, .. } => offset.cast_unsigned(),
        Instruction::LoadSigned { offset, .. } => offset.cast_unsigned(),
        Instruction::Store { offset, .. } => offset.cast_unsigned(),
        Instruction::StoreRegister { offset, .. } => offset.cast_unsigned(),
        Instruction::Negate { .. }
        | Instruction::Swap { .. }
        | Instruction::CallHelper { .. }
        | Instruction::CallLocal { .. }
        | Instruction::Exit
        | Instruction::Wide { .. } => 0,
    }
}

fn immediate_of(instruction: Instruction) -> u32
    ensures { result ≡ (fields_of instruction).immediate }
{
    match instruction {
        Instruction::Alu { operand, .. } => immediate_of_operand(operand),
        Instruction::Branch { right, .. } => immediate_of_operand(right),
        Instruction::Swap { bits, .. } => bits_of_swap(bits),
        Instruction::Jump { distance } => immediate_of_jump(distance),
        Instruction::CallHelper { number } => number.cast_unsigned(),
        Instruction::CallLocal { distance } => distance.cast_unsigned(),
        Instruction::Store { immediate, .. } => immediate.cast_unsigned(),
        Instruction::Wide { value, .. } => (value & 0xffff_ffff) as u32,
        Instruction::MoveSigned { .. }
        | Instruction::Negate { .. }
        | Instruction::Exit
        | Instruction::Load { .. }
        | Instruction::LoadSigned { .. }
        | Instruction::StoreRegister { .. } => 0,
    }
}

fn unit_of(instruction: Instruction) -> CodeUnit
    ensures exact { fields_in result ≡ fields_of instruction }
    ensures destination { result.destination ≤ 10 }
    ensures source { result.source ≤ 10 }
{
    CodeUnit {
        opcode: opcode_of(instruction),
        destination: destination_of(instruction),
        source: source_of(instruction),
        offset: offset_of(instruction),
        immediate: immediate_of(instruction),
    }
}

/// Writes a unit over the first 8 bytes.
fn write_unit(bytes: &mut [u8], unit: CodeUnit)
    requires long { 8 ≤ length bytes.old }
    requires destination { unit.destination ≤ 10 }
    requires source { unit.source ≤ 10 }
    ensures { bytes.new ≡ unit_bytes (fields_in unit) ++ drop 8 bytes.old }
{
    bytes[0] = unit.opcode;
    bytes[1] = 16 * unit.source + unit.destination;
    LittleEndian::write_u16(&mut bytes[2..], unit.offset);
    LittleEndian::write_u32(&mut bytes[4..], unit.immediate);
}

/// The bytes of an instruction (RFC 9669, section 3), and how many they are, 8 or 16. The bytes
/// after them are zero.
pub fn encode(instruction: &Instruction) -> ([u8; 16], usize)
    ensures size { result.1 ≡ 8 * units_of instruction.now }
    ensures bytes { result.0 ≡ spelling instruction.now ++ replicate (16 - result.1) 0 }
{
    let mut bytes = [0; 16];
    write_unit(&mut bytes, unit_of(*instruction));
    let Instruction::Wide { value, .. } = instruction else {
        return (bytes, 8);
    };
    let second = CodeUnit {
        opcode: 0,
        destination: 0,
        source: 0,
        offset: 0,
        immediate: (*value >> 32) as u32,
    };
    write_unit(&mut bytes[8..], second);
    (bytes, 16)
}
