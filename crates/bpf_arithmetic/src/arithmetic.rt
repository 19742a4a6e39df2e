//! What the operations make of numbers.
ghost use Rattle.std.specs.Prelude.{◌≡◌, ◌%◌, ◌^◌};
ghost use Rattle.bpf_model.specs.Arithmetic.{alu_number, negate_number, move_signed_number, swap_number};

use crate::{long, short};
use bpf_isa::{ByteOrder, Extension, Operation, SwapBits, Width};

/// The low 32 bits of a number.
pub(crate) fn low_half(x: u64) -> u32
    ensures { result ≡ x % 2 ^ 32 }
{
    (x & 0xffff_ffff) as u32
}

/// What an arithmetic instruction makes of its destination and its operand. Of 32 bits, the upper half
/// of the result is zero.
pub fn calculate(width: Width, operation: Operation, x: u64, y: u64) -> u64
    ensures { result ≡ alu_number width operation x y }
{
    match width {
        Width::Bits32 => u64::from(short::compute(operation, low_half(x), low_half(y))),
        Width::Bits64 => long::compute(operation, x, y),
    }
}

/// The negative of a number, in a width.
pub fn negate(width: Width, x: u64) -> u64
    ensures { result ≡ negate_number width x }
{
    match width {
        Width::Bits32 => u64::from(low_half(x).wrapping_neg()),
        Width::Bits64 => x.wrapping_neg(),
    }
}

/// The low bits of a number, extended by their sign (RFC 9669, section 4.1).
pub fn extend_sign(extension: Extension, x: u64) -> u64
    ensures { result ≡ move_signed_number extension x }
{
    let byte = ((x & 0xff) as u8).cast_signed();
    let half = ((x & 0xffff) as u16).cast_signed();
    match extension {
        Extension::From8To32 => u64::from(i32::from(byte).cast_unsigned()),
        Extension::From16To32 => u64::from(i32::from(half).cast_unsigned()),
        Extension::From8To64 => i64::from(byte).cast_unsigned(),
        Extension::From16To64 => i64::from(half).cast_unsigned(),
        Extension::From32To64 => i64::from(low_half(x).cast_signed()).cast_unsigned(),
    }
}

/// The low bits of a number with their bytes reversed.
fn reverse_bytes(bits: SwapBits, x: u64) -> u64
    ensures { result ≡ swap_number ByteOrder.Reversed bits x }
{
    match bits {
        SwapBits::Low16 => u64::from(((x & 0xffff) as u16).swap_bytes()),
        SwapBits::Low32 => u64::from(low_half(x).swap_bytes()),
        SwapBits::Low64 => x.swap_bytes(),
    }
}

/// The low bits of a number in a byte order (RFC 9669, section 4.2). Registers are little-endian.
pub fn swap(order: ByteOrder, bits: SwapBits, x: u64) -> u64
    ensures { result ≡ swap_number order bits x }
{
    match order {
        ByteOrder::Little => keep_low(bits, x),
        ByteOrder::Big | ByteOrder::Reversed => reverse_bytes(bits, x),
    }
}

/// The low bits of a number.
fn keep_low(bits: SwapBits, x: u64) -> u64
    ensures { result ≡ swap_number ByteOrder.Little bits x }
{
    match bits {
        SwapBits::Low16 => x & 0xffff,
        SwapBits::Low32 => x & 0xffff_ffff,
        SwapBits::Low64 => x,
    }
}
