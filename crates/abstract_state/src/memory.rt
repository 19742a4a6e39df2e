//! Loads and stores through what is known of their base (RFC 9669, section 5).
ghost use Rattle.std.specs.Prelude.{◌≡◌, ℕ, ◌≤◌, if◌then◌else◌, None, Ok, Err, IfErr, map, slice_index_or, slice_set};
ghost use Rattle.bpf_isa.specs.Sizes.{size_bytes};
ghost use Rattle.abstract_state.specs.States.{AbstractState as Known, frame_of, with_if_live};
ghost use Rattle.abstract_state.specs.Called.{frame_called, kept_by};
ghost use Rattle.abstract_state.specs.Memory.{is_within, load_result, load_signed_result, frame_load_result, frame_store_result, store_result, frame_gather_result, gather_result, table_write_cause, store_answer, any_of_size};

use crate::stack::{any_number, fill_live, is_address, load_live, store_live};
use crate::state::{AbstractState, MOST_CALLERS, Places};
use abstract_values::AbstractValue;
use bpf_image::Lengths;
use bpf_isa::{SignedSize, Size};
use bpf_model::{Cause, FRAME_BYTES};

/// Whether bytes at an offset from a range of places lie in a record or a table of a length.
fn is_inside(length: u16, lo: u16, hi: u16, offset: i16, bytes: usize) -> bool
    requires few { bytes ≤ FRAME_BYTES }
    ensures { result ≡ is_within length lo hi offset bytes }
{
    let offset = i64::from(offset);
    let first = i64::from(lo) + offset;
    let end = i64::from(hi) + bytes as i64 + offset;
    let begins_inside = 0 <= first;
    let ends_inside = end <= i64::from(length);
    begins_inside && ends_inside
}

/// What a load from a frame gives.
fn load_stack(
    state: &AbstractState,
    frame: u8,
    place: i32,
    bytes: usize,
) -> Result<AbstractValue, Cause>
    requires some { 1 ≤ bytes }
    requires few { bytes ≤ 8 }
    ensures { result ≡ frame_load_result (frame_of state.now frame) place bytes }
{
    match state.frame(frame) {
        None => Err(Cause::OutOfRange),
        Some(frame) => load_live(frame, place, bytes),
    }
}

/// What a load from a record or a table of this length gives.
fn load_outside_frame(
    length: u16,
    lo: u16,
    hi: u16,
    offset: i16,
    bytes: usize,
) -> Result<AbstractValue, Cause>
    requires some { 1 ≤ bytes }
    requires few { bytes ≤ 8 }
    ensures { result ≡ (if is_within length lo hi offset bytes then Ok (any_of_size bytes) else Err Cause.OutOfRange) }
{
    if is_inside(length, lo, hi, offset, bytes) {
        Ok(any_number(bytes))
    } else {
        Err(Cause::OutOfRange)
    }
}

/// Where a load or a store goes: through a value, at an offset from it.
#[derive(Clone, Copy, Debug, PartialEq, Eq)]
pub struct Address {
    /// What is known of the value.
    pub base: AbstractValue,
    /// How many bytes after the value, or before it, the accessed bytes begin.
    pub offset: i16,
}

/// What a load through a value gives, with a record and a table of so many bytes.
pub fn load(
    lengths: Lengths,
    state: &AbstractState,
    address: Address,
    size: Size,
) -> Result<AbstractValue, Cause>
    ensures { result ≡ load_result lengths state.now address.base address.offset (size_bytes size) }
{
    let Address { base, offset } = address;
    let bytes = usize::from(size.bytes());
    match base {
        AbstractValue::Unset => Err(Cause::UnsetRegister),
        AbstractValue::Number { .. } => Err(Cause::PointerUse),
        AbstractValue::Record { lo, hi } => {
            load_outside_frame(lengths.record_length, lo, hi, offset, bytes)
        }
        AbstractValue::Stack { frame, offset: top } => {
            let place = i32::from(top) + i32::from(offset);
            load_stack(state, frame, place, bytes)
        }
        AbstractValue::Table { lo, hi } => {
            load_outside_frame(lengths.table_length, lo, hi, offset, bytes)
        }
    }
}

/// What a sign-extending load through a value gives.
pub fn load_signed(
    lengths: Lengths,
    state: &AbstractState,
    address: Address,
    size: SignedSize,
) -> Result<AbstractValue, Cause>
    ensures { result ≡ load_signed_result lengths state.now address.base address.offset size }
{
    load(lengths, state, address, size.plain())?;
    Ok(AbstractValue::Number {
        lo: 0,
        hi: u64::MAX,
    })
}

/// Stores a value in the frame of a called function, if that is live and the value may stand there.
fn store_called(
    called: &mut Places,
    at: usize,
    place: i32,
    bytes: usize,
    value: AbstractValue,
) -> Result<(), Cause>
    requires some { 1 ≤ bytes }
    requires few { bytes ≤ 8 }
    ensures stored { (s : Known) (frame : ℕ)
        → frame_store_result s frame (frame_called (slice_index_or called.old at None)) place bytes value
        ≡ store_answer result (with_if_live s frame (frame_called (slice_index_or called.new at None))) }
    ensures frames { map frame_called called.new
        ≡ slice_set (map frame_called called.old) at (frame_called (slice_index_or called.new at None)) }
    ensures kept { map kept_by called.new ≡ map kept_by called.old }
    ensures unchanged { IfErr result (λ cause. map frame_called called.new ≡ map frame_called called.old) }
{
    if at >= MOST_CALLERS {
        return Err(Cause::OutOfRange);
    }
    let Some(mut taken) = called[at].take() else {
        return Err(Cause::OutOfRange);
    };
    let answer = store_live(&mut taken.frame, place, bytes, value);
    called[at] = Some(taken);
    answer
}

/// Stores a value in a frame, if that is live and the value may stand there.
fn store_stack(
    state: &mut AbstractState,
    frame: u8,
    place: i32,
    bytes: usize,
    value: AbstractValue,
) -> Result<(), Cause>
    requires some { 1 ≤ bytes }
    requires few { bytes ≤ 8 }
    ensures stored { frame_store_result state.old frame (frame_of state.old frame) place bytes value
        ≡ store_answer result state.new }
    ensures unchanged { IfErr result (λ cause. state.new ≡ state.old) }
{
    if frame == 0 {
        return store_live(&mut state.own.frame, place, bytes, value);
    }
    let Some(mut called) = state.called.take() else {
        return Err(Cause::OutOfRange);
    };
    let answer = store_called(
        &mut called.places,
        usize::from(frame) - 1,
        place,
        bytes,
        value,
    );
    state.called = Some(called);
    answer
}

/// Fills bytes of the frame of a called function, if that is live and they lie in it.
fn fill_called(called: &mut Places, at: usize, place: i32, room: usize) -> Result<(), Cause>
    requires some { 1 ≤ room }
    requires few { room ≤ FRAME_BYTES }
    ensures filled { (s : Known) (frame : ℕ)
        → frame_gather_result s frame (frame_called (slice_index_or called.old at None)) place room
        ≡ store_answer result (with_if_live s frame (frame_called (slice_index_or called.new at None))) }
    ensures frames { map frame_called called.new
        ≡ slice_set (map frame_called called.old) at (frame_called (slice_index_or called.new at None)) }
    ensures kept { map kept_by called.new ≡ map kept_by called.old }
    ensures unchanged { IfErr result (λ cause. map frame_called called.new ≡ map frame_called called.old) }
{
    if at >= MOST_CALLERS {
        return Err(Cause::OutOfRange);
    }
    let Some(mut taken) = called[at].take() else {
        return Err(Cause::OutOfRange);
    };
    let answer = fill_live(&mut taken.frame, place, room);
    called[at] = Some(taken);
    answer
}

/// Fills bytes of a frame, if that is live and they lie in it.
fn fill_stack(state: &mut AbstractState, frame: u8, place: i32, room: usize) -> Result<(), Cause>
    requires some { 1 ≤ room }
    requires few { room ≤ FRAME_BYTES }
    ensures filled { frame_gather_result state.old frame (frame_of state.old frame) place room
        ≡ store_answer result state.new }
    ensures unchanged { IfErr result (λ cause. state.new ≡ state.old) }
{
    if frame == 0 {
        return fill_live(&mut state.own.frame, place, room);
    }
    let Some(mut called) = state.called.take() else {
        return Err(Cause::OutOfRange);
    };
    let answer = fill_called(&mut called.places, usize::from(frame) - 1, place, room);
    state.called = Some(called);
    answer
}

/// The broken rule where bytes would be written through a pointer into the table.
fn cause_of_table_write(lengths: Lengths, lo: u16, hi: u16, offset: i16, bytes: usize) -> Cause
    requires few { bytes ≤ FRAME_BYTES }
    ensures { result ≡ table_write_cause lengths lo hi offset bytes }
{
    if is_inside(lengths.table_length, lo, hi, offset, bytes) {
        Cause::ReadOnly
    } else {
        Cause::OutOfRange
    }
}

/// What is known after a store of a value through another; it changes nothing where it is refused. The
/// stored value must be set.
pub fn store(
    lengths: Lengths,
    state: &mut AbstractState,
    address: Address,
    size: Size,
    value: AbstractValue,
) -> Result<(), Cause>
    ensures stored { store_result lengths state.old address.base address.offset (size_bytes size) value
        ≡ store_answer result state.new }
    ensures unchanged { IfErr result (λ cause. state.new ≡ state.old) }
{
    let Address { base, offset } = address;
    let bytes = usize::from(size.bytes());
    match base {
        AbstractValue::Unset => Err(Cause::UnsetRegister),
        AbstractValue::Number { .. } => Err(Cause::PointerUse),
        AbstractValue::Record { lo, hi } => {
            if is_address(value) {
                return Err(Cause::PointerUse);
            }
            if is_inside(lengths.record_length, lo, hi, offset, bytes) {
                Ok(())
            } else {
                Err(Cause::OutOfRange)
            }
        }
        AbstractValue::Stack { frame, offset: top } => {
            let place = i32::from(top) + i32::from(offset);
            store_stack(state, frame, place, bytes, value)
        }
        AbstractValue::Table { lo, hi } => {
            if is_address(value) {
                return Err(Cause::PointerUse);
            }
            Err(cause_of_table_write(lengths, lo, hi, offset, bytes))
        }
    }
}

/// What is known after the helper gather has filled so many bytes from a pointer on; it changes nothing
/// where it is refused. Of a slot that it touches nothing is known.
pub fn gather(
    lengths: Lengths,
    state: &mut AbstractState,
    pointer: AbstractValue,
    room: usize,
) -> Result<(), Cause>
    requires some { 1 ≤ room }
    requires few { room ≤ FRAME_BYTES }
    ensures filled { gather_result lengths state.old pointer room ≡ store_answer result state.new }
    ensures unchanged { IfErr result (λ cause. state.new ≡ state.old) }
{
    match pointer {
        AbstractValue::Unset => Err(Cause::UnsetRegister),
        AbstractValue::Number { .. } => Err(Cause::HelperArgument),
        AbstractValue::Record { lo, hi } => {
            if is_inside(lengths.record_length, lo, hi, 0, room) {
                Ok(())
            } else {
                Err(Cause::OutOfRange)
            }
        }
        AbstractValue::Stack { frame, offset: top } => fill_stack(
            state,
            frame,
            i32::from(top),
            room,
        ),
        AbstractValue::Table { lo, hi } => Err(cause_of_table_write(lengths, lo, hi, 0, room)),
    }
}
