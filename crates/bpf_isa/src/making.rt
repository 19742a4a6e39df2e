//! Instructions from their parts.

ghost use Rattle.std.specs.Prelude.{◌≡◌, ◌+◌, ◌*◌, ◌^◌};

use crate::instruction::{
    ByteOrder, Comparison, Distance, Extension, Instruction, Operand, Operation, SignedSize, Size,
    SwapBits, Width,
};
use crate::register::Register;

pub(crate) fn alu(
    width: Width,
    operation: Operation,
    destination: Register,
    operand: Operand,
) -> Instruction
    ensures { result ≡ Instruction.Alu width operation destination operand }
{
    Instruction::Alu {
        width,
        operation,
        destination,
        operand,
    }
}

pub(crate) fn move_signed(
    extension: Extension,
    destination: Register,
    source: Register,
) -> Instruction
    ensures { result ≡ Instruction.MoveSigned extension destination source }
{
    Instruction::MoveSigned {
        extension,
        destination,
        source,
    }
}

pub(crate) fn swap(order: ByteOrder, bits: SwapBits, destination: Register) -> Instruction
    ensures { result ≡ Instruction.Swap order bits destination }
{
    Instruction::Swap {
        order,
        bits,
        destination,
    }
}

pub(crate) fn jump(distance: Distance) -> Instruction
    ensures { result ≡ Instruction.Jump distance }
{
    Instruction::Jump { distance }
}

pub(crate) fn branch(
    width: Width,
    comparison: Comparison,
    left: Register,
    right: Operand,
    distance: i16,
) -> Instruction
    ensures { result ≡ Instruction.Branch width comparison left right distance }
{
    Instruction::Branch {
        width,
        comparison,
        left,
        right,
        distance,
    }
}

pub(crate) fn call_local(distance: i32) -> Instruction
    ensures { result ≡ Instruction.CallLocal distance }
{
    Instruction::CallLocal { distance }
}

pub(crate) fn load(size: Size, destination: Register, base: Register, offset: i16) -> Instruction
    ensures { result ≡ Instruction.Load size destination base offset }
{
    Instruction::Load {
        size,
        destination,
        base,
        offset,
    }
}

pub(crate) fn load_signed(
    size: SignedSize,
    destination: Register,
    base: Register,
    offset: i16,
) -> Instruction
    ensures { result ≡ Instruction.LoadSigned size destination base offset }
{
    Instruction::LoadSigned {
        size,
        destination,
        base,
        offset,
    }
}

pub(crate) fn store(size: Size, base: Register, offset: i16, immediate: i32) -> Instruction
    ensures { result ≡ Instruction.Store size base offset immediate }
{
    Instruction::Store {
        size,
        base,
        offset,
        immediate,
    }
}

pub(crate) fn store_register(
    size: Size,
    base: Register,
    offset: i16,
    source: Register,
) -> Instruction
    ensures { result ≡ Instruction.StoreRegister size base offset source }
{
    Instruction::StoreRegister {
        size,
        base,
        offset,
        source,
    }
}

/// The value's low half is in the first unit.
pub(crate) fn wide(destination: Register, lower: u32, upper: u32) -> Instruction
    ensures { result ≡ Instruction.Wide destination (lower + 2 ^ 32 * upper) }
{
    Instruction::Wide {
        destination,
        value: u64::from(upper) << 32 | u64::from(lower),
    }
}
