//! Arithmetic and comparison in 32 bits.
ghost use Rattle.std.specs.Prelude.{◌≡◌};
ghost use Rattle.bpf_isa.specs.declared.instruction.Width.TheVariants.{Bits32};
ghost use Rattle.bpf_model.specs.Arithmetic.{operation_number, comparison_holds};

use bpf_isa::{Comparison, Operation};

/// What an operation makes of two numbers of 32 bits (RFC 9669, section 4.1).
pub(crate) fn compute(operation: Operation, x: u32, y: u32) -> u32
    ensures { result ≡ operation_number Bits32 operation x y }
{
    match operation {
        Operation::Add => x.wrapping_add(y),
        Operation::Subtract => x.wrapping_sub(y),
        Operation::Multiply => x.wrapping_mul(y),
        Operation::Divide => x.checked_div(y).unwrap_or(0),
        Operation::DivideSigned => divide(x, y),
        Operation::Or => x | y,
        Operation::And => x & y,
        Operation::ShiftLeft => x << (y & 0x1f),
        Operation::ShiftRight => x >> (y & 0x1f),
        Operation::Modulo => x.checked_rem(y).unwrap_or(x),
        Operation::ModuloSigned => remainder(x, y),
        Operation::Xor => x ^ y,
        Operation::Move => y,
        Operation::ShiftRightSigned => (x.cast_signed() >> (y & 0x1f)).cast_unsigned(),
    }
}

/// The quotient of signed numbers of 32 bits, cut towards zero; by zero it is 0.
fn divide(x: u32, y: u32) -> u32
    ensures { result ≡ operation_number Bits32 Operation.DivideSigned x y }
{
    if y == 0 {
        return 0;
    }
    let quotient = x.cast_signed().wrapping_div(y.cast_signed());
    quotient.cast_unsigned()
}

/// The remainder of signed numbers of 32 bits, with the sign of the dividend; by zero it is that.
fn remainder(x: u32, y: u32) -> u32
    ensures { result ≡ operation_number Bits32 Operation.ModuloSigned x y }
{
    if y == 0 {
        return x;
    }
    let remainder = x.cast_signed().wrapping_rem(y.cast_signed());
    remainder.cast_unsigned()
}

/// Whether a comparison holds of two numbers of 32 bits.
pub(crate) fn compare(comparison: Comparison, x: u32, y: u32) -> bool
    ensures { result ≡ comparison_holds Bits32 comparison x y }
{
    match comparison {
        Comparison::Equal => x == y,
        Comparison::Greater => x > y,
        Comparison::GreaterOrEqual => x >= y,
        Comparison::SharesBit => x & y != 0,
        Comparison::NotEqual => x != y,
        Comparison::GreaterSigned => x.cast_signed() > y.cast_signed(),
        Comparison::GreaterOrEqualSigned => x.cast_signed() >= y.cast_signed(),
        Comparison::Less => x < y,
        Comparison::LessOrEqual => x <= y,
        Comparison::LessSigned => x.cast_signed() < y.cast_signed(),
        Comparison::LessOrEqualSigned => x.cast_signed() <= y.cast_signed(),
    }
}
