//! What arithmetic instructions make of values (RFC 9669, sections 4.1 and 4.2).
ghost use Rattle.std.specs.Prelude.{◌≡◌};
ghost use Rattle.bpf_isa.specs.declared.instruction.Width.TheVariants.{Bits64};
ghost use Rattle.bpf_isa.specs.declared.instruction.Operation.TheVariants.{Add, Subtract};
ghost use Rattle.abstract_values.specs.Values.{of_number, of_numbers, number, number_result, move_result, sum_result, difference_result, alu_result, negate_result, move_signed_result, swap_result};

use crate::pointer::{
    lower_record, lower_stack, lower_table, raise_record, raise_stack, raise_table,
};
use crate::range::Range;
use crate::range_rules::{all_numbers, compute_range, constant_range, input_range, is_one_number};
use crate::value::AbstractValue;
use bpf_image::Lengths;
use bpf_isa::{ByteOrder, Extension, Operation, SwapBits, Width};
use bpf_model::Cause;

/// The range of a value that must be a number.
pub(crate) fn number_of(value: AbstractValue) -> Result<Range, Cause>
    ensures { result ≡ of_number (λ r. r) value }
{
    match value {
        AbstractValue::Unset => Err(Cause::UnsetRegister),
        AbstractValue::Number { lo, hi } => Ok(Range { lo, hi }),
        AbstractValue::Record { .. } | AbstractValue::Stack { .. } | AbstractValue::Table { .. } =>
            { Err(Cause::PointerUse) }
    }
}

/// The ranges of two values that must be numbers. An unset one comes before a pointer.
pub(crate) fn numbers_of(left: AbstractValue, right: AbstractValue) -> Result<(Range, Range), Cause>
    ensures { result ≡ of_numbers (λ a b. (a, b)) left right }
{
    if matches!(left, AbstractValue::Unset) || matches!(right, AbstractValue::Unset) {
        return Err(Cause::UnsetRegister);
    }
    let left = number_of(left)?;
    let right = number_of(right)?;
    Ok((left, right))
}

pub(crate) fn value_of(range: Range) -> AbstractValue
    ensures { result ≡ number range }
{
    AbstractValue::Number {
        lo: range.lo,
        hi: range.hi,
    }
}

/// Arithmetic on two numbers.
fn compute(
    width: Width,
    operation: Operation,
    left: AbstractValue,
    right: AbstractValue,
) -> Result<AbstractValue, Cause>
    ensures { result ≡ of_numbers (number_result width operation) left right }
{
    let (left, right) = numbers_of(left, right)?;
    Ok(value_of(compute_range(width, operation, left, right)))
}

/// What a move copies.
fn copy(width: Width, value: AbstractValue) -> Result<AbstractValue, Cause>
    ensures { result ≡ move_result width value }
{
    match value {
        AbstractValue::Unset => Err(Cause::UnsetRegister),
        AbstractValue::Number { lo, hi } => Ok(value_of(input_range(width, Range { lo, hi }))),
        AbstractValue::Record { .. } | AbstractValue::Stack { .. } | AbstractValue::Table { .. } =>
            match width {
                Width::Bits32 => Err(Cause::PointerUse),
                Width::Bits64 => Ok(value),
            },
    }
}

/// A sum in 64 bits, where the left side may be a pointer.
fn add(lengths: Lengths, left: AbstractValue, right: AbstractValue) -> Result<AbstractValue, Cause>
    ensures { result ≡ sum_result lengths left right }
{
    if let AbstractValue::Number { lo: low, hi: high } = right {
        let range = Range { lo: low, hi: high };
        match left {
            AbstractValue::Record { lo, hi } => return raise_record(lengths, lo, hi, range),
            AbstractValue::Stack { frame, offset } => return raise_stack(frame, offset, range),
            AbstractValue::Table { lo, hi } => return raise_table(lengths, lo, hi, range),
            AbstractValue::Unset | AbstractValue::Number { .. } => {}
        }
    }
    compute(Width::Bits64, Operation::Add, left, right)
}

/// A difference in 64 bits, where the left side may be a pointer.
fn subtract(
    lengths: Lengths,
    left: AbstractValue,
    right: AbstractValue,
) -> Result<AbstractValue, Cause>
    ensures { result ≡ difference_result lengths left right }
{
    if let AbstractValue::Number { lo: low, hi: high } = right {
        let range = Range { lo: low, hi: high };
        match left {
            AbstractValue::Record { lo, hi } => return lower_record(lengths, lo, hi, range),
            AbstractValue::Stack { frame, offset } => return lower_stack(frame, offset, range),
            AbstractValue::Table { lo, hi } => return lower_table(lengths, lo, hi, range),
            AbstractValue::Unset | AbstractValue::Number { .. } => {}
        }
    }
    compute(Width::Bits64, Operation::Subtract, left, right)
}

/// What an arithmetic instruction makes of its destination and its operand, for a record and a table of
/// so many bytes. A move does not look at the destination.
pub fn alu(
    width: Width,
    operation: Operation,
    lengths: Lengths,
    destination: AbstractValue,
    operand: AbstractValue,
) -> Result<AbstractValue, Cause>
    ensures { result ≡ alu_result width operation lengths destination operand }
{
    match operation {
        Operation::Move => copy(width, operand),
        Operation::Add => match width {
            Width::Bits32 => compute(width, operation, destination, operand),
            Width::Bits64 => add(lengths, destination, operand),
        },
        Operation::Subtract => match width {
            Width::Bits32 => compute(width, operation, destination, operand),
            Width::Bits64 => subtract(lengths, destination, operand),
        },
        _ => compute(width, operation, destination, operand),
    }
}

/// What a sign-extending move makes of its source.
pub fn move_signed(extension: Extension, source: AbstractValue) -> Result<AbstractValue, Cause>
    ensures { result ≡ move_signed_result extension source }
{
    let width = extension.width();
    let range = input_range(width, number_of(source)?);
    if is_one_number(range) {
        return Ok(value_of(constant_range(bpf_arithmetic::extend_sign(extension, range.lo))));
    }
    Ok(value_of(all_numbers(width)))
}

/// What a negation makes of its destination.
pub fn negate(width: Width, destination: AbstractValue) -> Result<AbstractValue, Cause>
    ensures { result ≡ negate_result width destination }
{
    let range = input_range(width, number_of(destination)?);
    if is_one_number(range) {
        return Ok(value_of(constant_range(bpf_arithmetic::negate(width, range.lo))));
    }
    Ok(value_of(all_numbers(width)))
}

/// What a change of the byte order makes of its destination.
pub fn swap(
    order: ByteOrder,
    bits: SwapBits,
    destination: AbstractValue,
) -> Result<AbstractValue, Cause>
    ensures { result ≡ swap_result order bits destination }
{
    let range = number_of(destination)?;
    if is_one_number(range) {
        return Ok(value_of(constant_range(bpf_arithmetic::swap(order, bits, range.lo))));
    }
    Ok(value_of(all_numbers(Width::Bits64)))
}
