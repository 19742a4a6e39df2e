//! The table of instructions, from codes to rows and back.
ghost use Rattle.std.specs.Prelude.{◌≡◌, option_map};
ghost use Rattle.bpf_isa.specs.declared.row.Row.TheVariants.{Store, StoreRegister};
ghost use Rattle.bpf_isa.specs.Reading.{
  fields_in,
  operation_at,
  comparison_at,
  size_at,
  signed_size_at,
  extension_at,
  swap_row,
  immediate_swap,
  register_swap,
  immediate_alu,
  move_row,
  register_alu,
  alu_row,
  call_row,
  immediate_jump,
  jump_row,
  load_row,
  wide_row,
  class_row,
  row_at,
};

use crate::code_unit::CodeUnit;
use crate::instruction::{
    ByteOrder, Comparison, Extension, Operation, SignedSize, Size, SwapBits, Width,
};
use crate::row::Row;

/// The operation of a code: the high four bits of an opcode, and for three codes the offset field.
fn operation_of(code: u8, offset: u16) -> Option<Operation>
    ensures { result ≡ operation_at code offset }
{
    match code {
        0 => Some(Operation::Add),
        1 => Some(Operation::Subtract),
        2 => Some(Operation::Multiply),
        3 if offset == 0 => Some(Operation::Divide),
        3 if offset == 1 => Some(Operation::DivideSigned),
        4 => Some(Operation::Or),
        5 => Some(Operation::And),
        6 => Some(Operation::ShiftLeft),
        7 => Some(Operation::ShiftRight),
        9 if offset == 0 => Some(Operation::Modulo),
        9 if offset == 1 => Some(Operation::ModuloSigned),
        10 => Some(Operation::Xor),
        11 if offset == 0 => Some(Operation::Move),
        12 => Some(Operation::ShiftRightSigned),
        _ => None,
    }
}

fn comparison_of(code: u8) -> Option<Comparison>
    ensures { result ≡ comparison_at code }
{
    match code {
        1 => Some(Comparison::Equal),
        2 => Some(Comparison::Greater),
        3 => Some(Comparison::GreaterOrEqual),
        4 => Some(Comparison::SharesBit),
        5 => Some(Comparison::NotEqual),
        6 => Some(Comparison::GreaterSigned),
        7 => Some(Comparison::GreaterOrEqualSigned),
        10 => Some(Comparison::Less),
        11 => Some(Comparison::LessOrEqual),
        12 => Some(Comparison::LessSigned),
        13 => Some(Comparison::LessOrEqualSigned),
        _ => None,
    }
}

/// The size that the high five bits of an opcode say, in the mode of plain loads and stores.
fn size_of_mode(high: u8) -> Option<Size>
    ensures { result ≡ size_at high }
{
    match high {
        12 => Some(Size::Word),
        13 => Some(Size::Half),
        14 => Some(Size::Byte),
        15 => Some(Size::Double),
        _ => None,
    }
}

fn signed_size_of_mode(high: u8) -> Option<SignedSize>
    ensures { result ≡ signed_size_at high }
{
    match high {
        16 => Some(SignedSize::SignedWord),
        17 => Some(SignedSize::SignedHalf),
        18 => Some(SignedSize::SignedByte),
        _ => None,
    }
}

fn extension_of(width: Width, offset: u16) -> Option<Extension>
    ensures { result ≡ extension_at width offset }
{
    match width {
        Width::Bits32 => match offset {
            8 => Some(Extension::From8To32),
            16 => Some(Extension::From16To32),
            _ => None,
        },
        Width::Bits64 => match offset {
            8 => Some(Extension::From8To64),
            16 => Some(Extension::From16To64),
            32 => Some(Extension::From32To64),
            _ => None,
        },
    }
}

fn swap_of(order: ByteOrder, immediate: u32) -> Option<Row>
    ensures { result ≡ swap_row order immediate }
{
    match immediate {
        16 => Some(Row::Swap {
            order,
            bits: SwapBits::Low16,
        }),
        32 => Some(Row::Swap {
            order,
            bits: SwapBits::Low32,
        }),
        64 => Some(Row::Swap {
            order,
            bits: SwapBits::Low64,
        }),
        _ => None,
    }
}

/// Rows of arithmetic without a source register.
fn immediate_alu_of(width: Width, code: u8, unit: &CodeUnit) -> Option<Row>
    ensures { result ≡ immediate_alu width code (fields_in unit.now) }
{
    match code {
        8 => Some(Row::Negate { width }),
        13 => match width {
            Width::Bits32 => swap_of(ByteOrder::Little, unit.immediate),
            Width::Bits64 => swap_of(ByteOrder::Reversed, unit.immediate),
        },
        _ => {
            let operation = operation_of(code, unit.offset)?;
            Some(Row::ImmediateAlu { width, operation })
        }
    }
}

/// Moves of a register, which the offset field of some makes extend a sign.
fn move_of(width: Width, offset: u16) -> Option<Row>
    ensures { result ≡ move_row width offset }
{
    if offset == 0 {
        return Some(Row::RegisterAlu {
            width,
            operation: Operation::Move,
        });
    }
    let extension = extension_of(width, offset)?;
    Some(Row::MoveSigned { extension })
}

/// Rows of arithmetic whose opcode has the source bit.
fn register_alu_of(width: Width, code: u8, unit: &CodeUnit) -> Option<Row>
    ensures { result ≡ register_alu width code (fields_in unit.now) }
{
    match code {
        11 => move_of(width, unit.offset),
        13 => match width {
            Width::Bits32 => swap_of(ByteOrder::Big, unit.immediate),
            Width::Bits64 => None,
        },
        _ => {
            let operation = operation_of(code, unit.offset)?;
            Some(Row::RegisterAlu { width, operation })
        }
    }
}

fn alu_of(width: Width, high: u8, unit: &CodeUnit) -> Option<Row>
    ensures { result ≡ alu_row width high (fields_in unit.now) }
{
    if high % 2 == 0 {
        immediate_alu_of(width, high / 2, unit)
    } else {
        register_alu_of(width, high / 2, unit)
    }
}

fn call_of(width: Width, source: u8) -> Option<Row>
    ensures { result ≡ call_row width source }
{
    match width {
        Width::Bits32 => None,
        Width::Bits64 => match source {
            0 => Some(Row::CallHelper),
            1 => Some(Row::CallLocal),
            _ => None,
        },
    }
}

/// Jumps, calls, the return and branches without a source register.
fn immediate_jump_of(width: Width, code: u8, source: u8) -> Option<Row>
    ensures { result ≡ immediate_jump width code source }
{
    match code {
        0 => match width {
            Width::Bits32 => Some(Row::FarJump),
            Width::Bits64 => Some(Row::NearJump),
        },
        8 => call_of(width, source),
        9 => match width {
            Width::Bits32 => None,
            Width::Bits64 => Some(Row::Exit),
        },
        _ => {
            let comparison = comparison_of(code)?;
            Some(Row::ImmediateBranch { width, comparison })
        }
    }
}

fn jump_of(width: Width, high: u8, unit: &CodeUnit) -> Option<Row>
    ensures { result ≡ jump_row width high (fields_in unit.now) }
{
    if high % 2 == 0 {
        return immediate_jump_of(width, high / 2, unit.source);
    }
    let comparison = comparison_of(high / 2)?;
    Some(Row::RegisterBranch { width, comparison })
}

fn load_of(high: u8) -> Option<Row>
    ensures { result ≡ load_row high }
{
    if high < 16 {
        let size = size_of_mode(high)?;
        return Some(Row::Load { size });
    }
    let size = signed_size_of_mode(high)?;
    Some(Row::LoadSigned { size })
}

fn store_of(high: u8) -> Option<Row>
    ensures { result ≡ option_map Store (size_at high) }
{
    let size = size_of_mode(high)?;
    Some(Row::Store { size })
}

fn register_store_of(high: u8) -> Option<Row>
    ensures { result ≡ option_map StoreRegister (size_at high) }
{
    let size = size_of_mode(high)?;
    Some(Row::StoreRegister { size })
}

fn wide_of(high: u8, source: u8) -> Option<Row>
    ensures { result ≡ wide_row high source }
{
    if high == 3 && source == 0 {
        Some(Row::Wide)
    } else {
        None
    }
}

/// The row that the fields choose: by the class, which is the low three bits of the opcode, and the
/// five bits above.
#[tactic(auto, unfolding(crate::specs::Reading::row_at))]
pub(crate) fn row_of(unit: &CodeUnit) -> Option<Row>
    ensures { result ≡ row_at (fields_in unit.now) }
{
    let high = unit.opcode / 8;
    match unit.opcode % 8 {
        0 => wide_of(high, unit.source),
        1 => load_of(high),
        2 => store_of(high),
        3 => register_store_of(high),
        4 => alu_of(Width::Bits32, high, unit),
        5 => jump_of(Width::Bits64, high, unit),
        6 => jump_of(Width::Bits32, high, unit),
        _ => alu_of(Width::Bits64, high, unit),
    }
}
