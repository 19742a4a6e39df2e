//! Pointers moved by numbers.
ghost use Rattle.std.specs.Prelude.{◌≡◌, pos, ◌+ℤ◌, ◌-ℤ◌};
ghost use Rattle.abstract_values.specs.Ranges.{is_constant};
ghost use Rattle.abstract_values.specs.Values.{IsShort, least_distance, greatest_distance, is_place, record_pointer, table_pointer, stack_pointer, stack_result};

use crate::limits::FRAME_BOTTOM;
use crate::range::Range;
use crate::range_rules::is_one_number;
use crate::value::AbstractValue;
use bpf_image::Lengths;
use bpf_model::Cause;

/// How far a number may move a pointer, at least and at most.
fn distances(range: Range) -> (i128, i128)
    ensures least { result.0 ≡ least_distance range }
    ensures greatest { result.1 ≡ greatest_distance range }
    ensures short { IsShort result.0 × IsShort result.1 }
{
    if is_one_number(range) {
        let distance = i128::from(range.lo.cast_signed());
        (distance, distance)
    } else {
        (i128::from(range.lo), i128::from(range.hi))
    }
}

/// Whether an offset is a place in a record or a table of a length, or its end.
fn is_place_within(length: u16, offset: i128) -> bool
    ensures { result ≡ is_place length offset }
{
    0 <= offset && offset <= i128::from(length)
}

/// A pointer into a record, which does not leave it.
fn point_into_record(lengths: Lengths, lo: i128, hi: i128) -> Result<AbstractValue, Cause>
    ensures { result ≡ record_pointer lengths lo hi }
{
    if is_place_within(lengths.record_length, lo) && is_place_within(lengths.record_length, hi) {
        Ok(AbstractValue::Record {
            lo: lo as u16,
            hi: hi as u16,
        })
    } else {
        Err(Cause::OutOfRange)
    }
}

/// A pointer into a table, which does not leave it.
fn point_into_table(lengths: Lengths, lo: i128, hi: i128) -> Result<AbstractValue, Cause>
    ensures { result ≡ table_pointer lengths lo hi }
{
    if is_place_within(lengths.table_length, lo) && is_place_within(lengths.table_length, hi) {
        Ok(AbstractValue::Table {
            lo: lo as u16,
            hi: hi as u16,
        })
    } else {
        Err(Cause::OutOfRange)
    }
}

/// A pointer into a stack frame, which does not leave it.
fn point_into_stack(frame: u8, offset: i128) -> Result<AbstractValue, Cause>
    ensures { result ≡ stack_pointer frame offset }
{
    if i128::from(FRAME_BOTTOM) <= offset && offset <= 0 {
        Ok(AbstractValue::Stack {
            frame,
            offset: offset as i16,
        })
    } else {
        Err(Cause::OutOfRange)
    }
}

/// A record pointer moved up by a number.
pub(crate) fn raise_record(
    lengths: Lengths,
    lo: u16,
    hi: u16,
    range: Range,
) -> Result<AbstractValue, Cause>
    ensures { result ≡ record_pointer lengths (pos lo +ℤ least_distance range)
        (pos hi +ℤ greatest_distance range) }
{
    let (least, greatest) = distances(range);
    point_into_record(lengths, i128::from(lo) + least, i128::from(hi) + greatest)
}

/// A record pointer moved down by a number.
pub(crate) fn lower_record(
    lengths: Lengths,
    lo: u16,
    hi: u16,
    range: Range,
) -> Result<AbstractValue, Cause>
    ensures { result ≡ record_pointer lengths (pos lo -ℤ greatest_distance range)
        (pos hi -ℤ least_distance range) }
{
    let (least, greatest) = distances(range);
    point_into_record(lengths, i128::from(lo) - greatest, i128::from(hi) - least)
}

/// A table pointer moved up by a number.
pub(crate) fn raise_table(
    lengths: Lengths,
    lo: u16,
    hi: u16,
    range: Range,
) -> Result<AbstractValue, Cause>
    ensures { result ≡ table_pointer lengths (pos lo +ℤ least_distance range)
        (pos hi +ℤ greatest_distance range) }
{
    let (least, greatest) = distances(range);
    point_into_table(lengths, i128::from(lo) + least, i128::from(hi) + greatest)
}

/// A table pointer moved down by a number.
pub(crate) fn lower_table(
    lengths: Lengths,
    lo: u16,
    hi: u16,
    range: Range,
) -> Result<AbstractValue, Cause>
    ensures { result ≡ table_pointer lengths (pos lo -ℤ greatest_distance range)
        (pos hi -ℤ least_distance range) }
{
    let (least, greatest) = distances(range);
    point_into_table(lengths, i128::from(lo) - greatest, i128::from(hi) - least)
}

/// A stack pointer moved up by a number, which must be a constant.
pub(crate) fn raise_stack(frame: u8, offset: i16, range: Range) -> Result<AbstractValue, Cause>
    ensures { result ≡ stack_result (is_constant range) frame (offset +ℤ least_distance range) }
{
    if !is_one_number(range) {
        return Err(Cause::PointerUse);
    }
    let (least, _) = distances(range);
    point_into_stack(frame, i128::from(offset) + least)
}

/// A stack pointer moved down by a number, which must be a constant.
pub(crate) fn lower_stack(frame: u8, offset: i16, range: Range) -> Result<AbstractValue, Cause>
    ensures { result ≡ stack_result (is_constant range) frame (offset -ℤ least_distance range) }
{
    if !is_one_number(range) {
        return Err(Cause::PointerUse);
    }
    let (least, _) = distances(range);
    point_into_stack(frame, i128::from(offset) - least)
}
