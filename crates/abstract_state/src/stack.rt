//! The bytes and slots of the frame.
ghost use Rattle.std.specs.Prelude.{◌≡◌, ℕ, ◌+◌, ◌*◌, ◌-◌, ◌/◌, ◌<◌, ◌≤◌, ◌≤ℤ◌, if◌then◌else◌, Some, None, IfErr, IfSome};
ghost use Rattle.abstract_values.specs.declared.limits.TheConstants.{FRAME_BOTTOM};
ghost use Rattle.abstract_state.specs.States.{AbstractState as Known, with_frame};
ghost use Rattle.abstract_state.specs.Memory.{is_slot, is_in_frame, frame_index, is_pointer, are_set, any_of_size, frame_read, set_from, unset_from, without_spills, frame_write, frame_fill, frame_load_result, frame_store_result, frame_gather_result, store_answer};

use crate::state::{FRAME_SLOTS, Frame};
use abstract_values::{AbstractValue, FRAME_BOTTOM};
use bpf_model::{Cause, FRAME_BYTES};

/// Whether so many bytes from byte `first` are all set.
fn are_bytes_set(flags: &[bool; FRAME_BYTES], first: usize, bytes: usize) -> bool
    requires inside { first + bytes ≤ FRAME_BYTES }
    ensures { result ≡ are_set flags.now first bytes }
{
    for i in 0..bytes {
        if !flags[first + i] {
            return false;
        }
    }
    true
}

/// Sets so many bytes from byte `first`.
fn set_bytes(flags: &mut [bool; FRAME_BYTES], first: usize, bytes: usize)
    requires inside { first + bytes ≤ FRAME_BYTES }
    ensures { flags.new ≡ set_from flags.old first bytes }
{
    for i in 0..bytes {
        flags[first + i] = true;
    }
}

/// Whether bytes are a whole slot.
fn is_whole_slot(first: usize, bytes: usize) -> bool
    ensures { result ≡ is_slot first bytes }
{
    bytes == 8 && first.is_multiple_of(8)
}

/// Any number of so many bytes.
pub(crate) fn any_number(bytes: usize) -> AbstractValue
    requires some { 1 ≤ bytes }
    requires few { bytes ≤ 8 }
    ensures { result ≡ any_of_size bytes }
{
    AbstractValue::Number {
        lo: 0,
        hi: u64::MAX >> (64 - 8 * bytes),
    }
}

/// What is read from bytes of a frame.
fn load_frame(frame: &Frame, first: usize, bytes: usize) -> Result<AbstractValue, Cause>
    requires inside { first + bytes ≤ FRAME_BYTES }
    requires some { 1 ≤ bytes }
    requires few { bytes ≤ 8 }
    ensures { result ≡ frame_read frame.now first bytes }
{
    if !are_bytes_set(&frame.bytes_set, first, bytes) {
        return Err(Cause::UnsetStackByte);
    }
    let spilled = frame.slots[first / 8];
    if is_whole_slot(first, bytes) && !matches!(spilled, AbstractValue::Unset) {
        return Ok(spilled);
    }
    Ok(any_number(bytes))
}

/// Ends what is known of so many slots from slot `first`.
fn unset_slots(slots: &mut [AbstractValue; FRAME_SLOTS], first: usize, count: usize)
    requires inside { first + count ≤ FRAME_SLOTS }
    ensures { slots.new ≡ unset_from slots.old first count }
{
    for i in 0..count {
        slots[first + i] = AbstractValue::Unset;
    }
}

/// Ends what is known of the slots that bytes touch.
fn end_spills(slots: &mut [AbstractValue; FRAME_SLOTS], first: usize, bytes: usize)
    requires inside { first + bytes ≤ FRAME_BYTES }
    requires some { 1 ≤ bytes }
    ensures { slots.new ≡ without_spills slots.old first bytes }
{
    let slot = first / 8;
    let last = (first + bytes - 1) / 8;
    unset_slots(slots, slot, last + 1 - slot);
}

/// Fills bytes of a frame with numbers of which nothing is kept.
fn fill_frame(frame: &mut Frame, first: usize, bytes: usize)
    requires inside { first + bytes ≤ FRAME_BYTES }
    requires some { 1 ≤ bytes }
    ensures { frame.new ≡ frame_fill frame.old first bytes }
{
    set_bytes(&mut frame.bytes_set, first, bytes);
    end_spills(&mut frame.slots, first, bytes);
}

/// Writes a value to bytes of a frame.
fn store_frame(frame: &mut Frame, first: usize, bytes: usize, value: AbstractValue)
    requires inside { first + bytes ≤ FRAME_BYTES }
    requires some { 1 ≤ bytes }
    ensures { frame.new ≡ frame_write frame.old first bytes value }
{
    set_bytes(&mut frame.bytes_set, first, bytes);
    if is_whole_slot(first, bytes) {
        frame.slots[first / 8] = value;
    } else {
        end_spills(&mut frame.slots, first, bytes);
    }
}

/// Whether bytes at a distance from the top of a frame lie in it.
fn is_inside_frame(place: i32, bytes: usize) -> bool
    requires { bytes ≤ FRAME_BYTES }
    ensures { result ≡ is_in_frame place bytes }
{
    let begins_inside = i32::from(FRAME_BOTTOM) <= place;
    let ends_inside = i64::from(place) + bytes as i64 <= 0;
    begins_inside && ends_inside
}

/// Which byte of a frame is at a distance from its top, from the lowest.
fn frame_byte(place: i32) -> usize
    requires { FRAME_BOTTOM ≤ℤ place }
    ensures { result ≡ frame_index place }
{
    (FRAME_BYTES as i64 + i64::from(place)) as usize
}

/// The first byte of a frame at a distance from its top, if so many bytes lie in the frame.
fn find_in_frame(place: i32, bytes: usize) -> Option<usize>
    requires { bytes ≤ FRAME_BYTES }
    ensures found { result ≡ (if is_in_frame place bytes then Some (frame_index place) else None) }
    ensures inside { IfSome result (λ first. first + bytes ≤ FRAME_BYTES) }
{
    if is_inside_frame(place, bytes) {
        Some(frame_byte(place))
    } else {
        None
    }
}

/// What a load from a live frame gives.
pub(crate) fn load_live(frame: &Frame, place: i32, bytes: usize) -> Result<AbstractValue, Cause>
    requires some { 1 ≤ bytes }
    requires few { bytes ≤ 8 }
    ensures { result ≡ frame_load_result (Some frame.now) place bytes }
{
    match find_in_frame(place, bytes) {
        None => Err(Cause::OutOfRange),
        Some(first) => load_frame(frame, first, bytes),
    }
}

/// Whether a value is a pointer.
pub(crate) fn is_address(value: AbstractValue) -> bool
    ensures { result ≡ is_pointer value }
{
    matches!(
        value,
        AbstractValue::Record { .. } | AbstractValue::Stack { .. } | AbstractValue::Table { .. }
    )
}

/// Stores a value in a live frame, if it may stand there.
pub(crate) fn store_live(
    frame: &mut Frame,
    place: i32,
    bytes: usize,
    value: AbstractValue,
) -> Result<(), Cause>
    requires some { 1 ≤ bytes }
    requires few { bytes ≤ 8 }
    ensures stored { (s : Known) (number : ℕ)
        → frame_store_result s number (Some frame.old) place bytes value
        ≡ store_answer result (with_frame s number frame.new) }
    ensures unchanged { IfErr result (λ cause. frame.new ≡ frame.old) }
{
    match find_in_frame(place, bytes) {
        None => {
            if is_address(value) {
                Err(Cause::PointerUse)
            } else {
                Err(Cause::OutOfRange)
            }
        }
        Some(first) => {
            if is_address(value) && !is_whole_slot(first, bytes) {
                return Err(Cause::PointerUse);
            }
            store_frame(frame, first, bytes, value);
            Ok(())
        }
    }
}

/// Fills bytes of a live frame, if they lie in it.
pub(crate) fn fill_live(frame: &mut Frame, place: i32, room: usize) -> Result<(), Cause>
    requires some { 1 ≤ room }
    requires few { room ≤ FRAME_BYTES }
    ensures filled { (s : Known) (number : ℕ)
        → frame_gather_result s number (Some frame.old) place room
        ≡ store_answer result (with_frame s number frame.new) }
    ensures unchanged { IfErr result (λ cause. frame.new ≡ frame.old) }
{
    match find_in_frame(place, room) {
        None => Err(Cause::OutOfRange),
        Some(first) => {
            fill_frame(frame, first, room);
            Ok(())
        }
    }
}
