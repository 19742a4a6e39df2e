//! What is known at a place, as text.
ghost use Rattle.std.specs.Prelude.{◌≡◌, ◌<◌, ◌++◌, OnOk, string_bytes};
ghost use Rattle.std.specs.Fmt.{decimal};
ghost use Rattle.bpf_isa.specs.Encoding.{number_of};
ghost use Rattle.bpf_asm.specs.Writing.{offset_text};
ghost use Rattle.explanation.specs.Pieces.{pieces_to};
ghost use Rattle.explanation.specs.Values.{
  range_text,
  number_text,
  value_text,
  register_piece,
  registers_text,
  is_known as is_known_value,
  is_set as is_set_at,
  begins_row as begins_row_at,
  ends_row as ends_row_at,
  byte_piece,
  slot_piece,
  frame_text,
  frame_piece,
  frames_text,
  state_text,
  register_line,
};

use abstract_state::{AbstractState, Frame};
use abstract_values::AbstractValue;
use bpf_isa::Register;
use bpf_model::{FRAME_BYTES, MOST_FRAMES};
use itoa::Buffer;
use std::alloc::AllocError;

/// Writes a part at the end of a text.
pub(crate) fn put(text: &mut String, part: &str) -> Result<(), AllocError>
    ensures { OnOk result (string_bytes text.new ≡ string_bytes text.old ++ part.now) }
{
    text.push_str(part)
}

/// Writes a number in decimal digits.
pub(crate) fn put_number(text: &mut String, number: u64) -> Result<(), AllocError>
    ensures { OnOk result (string_bytes text.new ≡ string_bytes text.old ++ decimal number) }
{
    let mut buffer = Buffer::new();
    put(text, buffer.format(number))
}

/// Writes a number after a label.
pub(crate) fn put_field(text: &mut String, label: &str, number: u64) -> Result<(), AllocError>
    ensures { OnOk result (string_bytes text.new ≡ string_bytes text.old ++ (label.now ++ decimal number)) }
{
    put(text, label)?;
    put_number(text, number)
}

/// Writes a range, or the one number that is in it.
fn put_range(text: &mut String, lo: u64, hi: u64) -> Result<(), AllocError>
    ensures { OnOk result (string_bytes text.new ≡ string_bytes text.old ++ range_text lo hi) }
{
    put_number(text, lo)?;
    if lo != hi {
        put_field(text, " to ", hi)?;
    }
    Ok(())
}

/// Writes what is known of a number.
fn put_known_number(text: &mut String, lo: u64, hi: u64) -> Result<(), AllocError>
    ensures { OnOk result (string_bytes text.new ≡ string_bytes text.old ++ number_text lo hi) }
{
    if lo == 0 && hi == u64::MAX {
        put(text, "any number")
    } else {
        put_range(text, lo, hi)
    }
}

/// Writes an offset with its sign.
fn put_offset(text: &mut String, offset: i16) -> Result<(), AllocError>
    ensures { OnOk result (string_bytes text.new ≡ string_bytes text.old ++ offset_text offset) }
{
    if offset < 0 {
        put(text, "-")?;
    } else {
        put(text, "+")?;
    }
    put_number(text, u64::from(offset.unsigned_abs()))
}

/// Writes what is known of a value.
fn put_value(text: &mut String, value: AbstractValue) -> Result<(), AllocError>
    ensures { OnOk result (string_bytes text.new ≡ string_bytes text.old ++ value_text value) }
{
    match value {
        AbstractValue::Unset => put(text, "nothing"),
        AbstractValue::Number { lo, hi } => put_known_number(text, lo, hi),
        AbstractValue::Record { lo, hi } => {
            put(text, "record+")?;
            put_range(text, u64::from(lo), u64::from(hi))
        }
        AbstractValue::Stack { frame, offset } => {
            put_field(text, "stack[", u64::from(frame))?;
            put(text, "]")?;
            put_offset(text, offset)
        }
        AbstractValue::Table { lo, hi } => {
            put(text, "table+")?;
            put_range(text, u64::from(lo), u64::from(hi))
        }
    }
}

/// Whether anything is known of a value.
fn is_known(value: AbstractValue) -> bool
    ensures { result ≡ is_known_value value }
{
    match value {
        AbstractValue::Unset => false,
        AbstractValue::Number { .. }
        | AbstractValue::Record { .. }
        | AbstractValue::Stack { .. }
        | AbstractValue::Table { .. } => true,
    }
}

/// Writes what is known of a register, unless it is nothing.
fn put_known(text: &mut String, state: &AbstractState, register: Register) -> Result<(), AllocError>
    ensures { OnOk result (string_bytes text.new
        ≡ string_bytes text.old ++ register_piece state.now (number_of register)) }
{
    let value = state.register(register);
    if !is_known(value) {
        return Ok(());
    }
    put(text, "  ")?;
    put_field(text, "r", u64::from(register.number()))?;
    put(text, " ")?;
    put_value(text, value)
}

/// Writes what is known of the register of a number, unless it is nothing.
fn put_register(text: &mut String, state: &AbstractState, number: u8) -> Result<(), AllocError>
    requires { number < 11 }
    ensures { OnOk result (string_bytes text.new ≡ string_bytes text.old ++ register_piece state.now number) }
{
    match Register::from_number(number) {
        None => Ok(()),
        Some(register) => put_known(text, state, register),
    }
}

/// Writes what is known of each register.
#[tactic(auto, using(crate::proofs::Written::pieces_none, crate::proofs::Written::written_more))]
fn put_registers(text: &mut String, state: &AbstractState) -> Result<(), AllocError>
    ensures { OnOk result (string_bytes text.new ≡ string_bytes text.old ++ registers_text state.now) }
{
    for number in 0..11 {
        put_register(text, state, number)?;
    }
    Ok(())
}

/// Whether a byte of a frame is set.
fn is_set(frame: &Frame, byte: usize) -> bool
    ensures { result ≡ is_set_at frame.now byte }
{
    byte < FRAME_BYTES && frame.bytes_set[byte]
}

/// Whether a byte is set, and the byte before it is not.
fn begins_row(frame: &Frame, byte: usize) -> bool
    ensures { result ≡ begins_row_at frame.now byte }
{
    if byte == 0 {
        is_set(frame, byte)
    } else {
        is_set(frame, byte) && !is_set(frame, byte - 1)
    }
}

/// Whether a byte is set, and the byte after it is not.
fn ends_row(frame: &Frame, byte: usize) -> bool
    requires { byte < 512 }
    ensures { result ≡ ends_row_at frame.now byte }
{
    is_set(frame, byte) && !is_set(frame, byte + 1)
}

/// Writes a byte of a frame where a row of bytes that are set begins or ends.
fn put_byte(text: &mut String, frame: &Frame, number: u64, byte: usize) -> Result<(), AllocError>
    requires { byte < 512 }
    ensures { OnOk result (string_bytes text.new ≡ string_bytes text.old ++ byte_piece frame.now number byte) }
{
    let below = (FRAME_BYTES - byte) as u64;
    let label = match (begins_row(frame, byte), ends_row(frame, byte)) {
        (true, true) => "  byte[",
        (true, false) => "  bytes[",
        (false, true) => return put_field(text, " to -", below),
        (false, false) => return Ok(()),
    };
    put_field(text, label, number)?;
    put_field(text, "] -", below)
}

/// Writes which bytes of a frame are set.
#[tactic(auto, using(crate::proofs::Written::pieces_none, crate::proofs::Written::written_more))]
fn put_bytes(text: &mut String, frame: &Frame, number: u64) -> Result<(), AllocError>
    ensures { OnOk result (string_bytes text.new
        ≡ string_bytes text.old ++ pieces_to (byte_piece frame.now number) 512) }
{
    for byte in 0..FRAME_BYTES {
        put_byte(text, frame, number, byte)?;
    }
    Ok(())
}

/// Writes what is known of a slot of a frame.
fn put_slot(text: &mut String, frame: &Frame, number: u64, slot: usize) -> Result<(), AllocError>
    requires { slot < 64 }
    ensures { OnOk result (string_bytes text.new ≡ string_bytes text.old ++ slot_piece frame.now number slot) }
{
    let value = frame.slots[slot];
    if !is_known(value) {
        return Ok(());
    }
    put(text, "  ")?;
    put_field(text, "slot[", number)?;
    put_field(text, "] -", (FRAME_BYTES - 8 * slot) as u64)?;
    put(text, " ")?;
    put_value(text, value)
}

/// Writes what was spilled to the slots of a frame.
#[tactic(auto, using(crate::proofs::Written::pieces_none, crate::proofs::Written::written_more))]
fn put_slots(text: &mut String, frame: &Frame, number: u64) -> Result<(), AllocError>
    ensures { OnOk result (string_bytes text.new
        ≡ string_bytes text.old ++ pieces_to (slot_piece frame.now number) 64) }
{
    for slot in 0..frame.slots.len() {
        put_slot(text, frame, number, slot)?;
    }
    Ok(())
}

/// Writes which bytes of a frame are set, and what was spilled to its slots.
pub(crate) fn put_frame(text: &mut String, frame: &Frame, number: u64) -> Result<(), AllocError>
    ensures { OnOk result (string_bytes text.new ≡ string_bytes text.old ++ frame_text frame.now number) }
{
    put_bytes(text, frame, number)?;
    put_slots(text, frame, number)
}

/// Writes what is known of the frame of a number, if it is live.
fn put_if_live(text: &mut String, state: &AbstractState, number: u8) -> Result<(), AllocError>
    ensures { OnOk result (string_bytes text.new ≡ string_bytes text.old ++ frame_piece state.now number) }
{
    match state.frame(number) {
        None => Ok(()),
        Some(frame) => put_frame(text, frame, u64::from(number)),
    }
}

/// Writes what is known of each live frame.
#[tactic(auto, using(crate::proofs::Written::pieces_none, crate::proofs::Written::written_more))]
fn put_frames(text: &mut String, state: &AbstractState) -> Result<(), AllocError>
    ensures { OnOk result (string_bytes text.new ≡ string_bytes text.old ++ frames_text state.now) }
{
    for number in 0..MOST_FRAMES as u8 {
        put_if_live(text, state, number)?;
    }
    Ok(())
}

/// Writes all that is known at a place.
pub(crate) fn put_state(text: &mut String, state: &AbstractState) -> Result<(), AllocError>
    ensures { OnOk result (string_bytes text.new ≡ string_bytes text.old ++ state_text state.now) }
{
    put(text, "  ")?;
    put_registers(text, state)?;
    put_frames(text, state)?;
    put(text, "\n")
}

/// Writes what is known of a register, on a line of its own.
pub(crate) fn put_register_line(
    text: &mut String,
    state: &AbstractState,
    register: Register,
) -> Result<(), AllocError>
    ensures { OnOk result (string_bytes text.new ≡ string_bytes text.old ++ register_line state.now register) }
{
    put_field(text, "known of r", u64::from(register.number()))?;
    put(text, ": ")?;
    put_value(text, state.register(register))?;
    put(text, "\n")
}
