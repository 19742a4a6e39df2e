//! Bytes that are set in the record and in frames.
ghost use Rattle.std.specs.Prelude.{◌≡◌, ◌+◌, ◌≤◌, ◌<◌, ◌≤ℤ◌, ◌||◌, true, false, pos, length};
ghost use Rattle.bpf_isa.specs.declared.limits.TheConstants.{MOST_UNITS};
ghost use Rattle.bpf_image.specs.declared.limits.TheConstants.{MOST_RECORD_LENGTH};
ghost use Rattle.bpf_model.specs.State.{Partial, with_value, with_values, record_base, in_record, in_frames, most_frames, lent};
ghost use Rattle.bpf_model.specs.Step.{store};
ghost use Rattle.bpf_machine.specs.Cells.{cells_of};
ghost use Rattle.bpf_machine.specs.Seen.{values_of, memory_of, state_of, answer, Keeps};

use crate::machine::Machine;
use crate::memory::{lies_within, write_refusal};
use crate::stack::{Stack, find_spot};
use crate::turn::Turn;
use bpf_isa::Size;
use bpf_model::RECORD_BASE;

/// Sets a byte of the record.
fn set_record_byte(bytes: &mut [u8], place: usize, byte: u8)
    requires place { place < length bytes.old }
    requires record { length bytes.old ≤ MOST_RECORD_LENGTH }
    ensures { (cells : Partial)
        → with_value (memory_of bytes.old cells) (record_base + place) byte ≡ memory_of bytes.new cells }
{
    bytes[place] = byte;
}

/// Sets bytes of the record, from a place on.
fn set_record(bytes: &mut [u8], place: usize, value: &[u8])
    requires places { place + length value.now ≤ length bytes.old }
    requires record { length bytes.old ≤ MOST_RECORD_LENGTH }
    ensures { (cells : Partial)
        → with_values (memory_of bytes.old cells) (record_base + place) value.now
        ≡ memory_of bytes.new cells }
{
    for (k, byte) in value.iter().enumerate() {
        set_record_byte(bytes, place + k, *byte);
    }
}

/// Stores bytes from an address on, where all of them lie in the record or in one of the first frames. Else
/// it stores none and says so.
pub(crate) fn store_bytes(
    stack: &mut Stack,
    frames: usize,
    bytes: &mut [u8],
    address: u64,
    value: &[u8],
) -> bool
    requires some { 1 ≤ length value.now }
    requires frames { frames ≤ most_frames }
    requires record { length bytes.old ≤ MOST_RECORD_LENGTH }
    ensures allowed { result ≡ (in_record (length bytes.old) address (length value.now) || in_frames frames address
        (length value.now)) }
    ensures stored { result ≡ true → with_values (memory_of bytes.old
        (values_of (cells_of stack.old))) address value.now ≡ memory_of bytes.new (values_of (cells_of stack.new)) }
    ensures kept { result ≡ false → (bytes.new ≡ bytes.old) × (stack.new ≡ stack.old) }
{
    let count = value.len() as u64;
    if lies_within(RECORD_BASE, bytes.len() as u64, address, count) {
        set_record(bytes, (address - RECORD_BASE) as usize, value);
        return true;
    }
    match find_spot(frames, address, count) {
        None => false,
        Some(spot) => {
            stack.set_bytes(spot, value);
            true
        }
    }
}

/// Where a store goes: an address, and how many bytes from there on.
#[derive(Clone, Copy)]
pub(crate) struct Place {
    pub address: u64,
    pub size: Size,
}

/// Stores a number's low bytes at an address, where that is allowed, and goes on.
pub(crate) fn store_to(
    machine: &mut Machine,
    bytes: &mut [u8],
    table: &[u8],
    place: Place,
    value: u64,
) -> Turn
    requires pc { machine.old.pc ≤ℤ pos MOST_UNITS }
    requires record { length bytes.old ≤ MOST_RECORD_LENGTH }
    ensures step { store (lent bytes.old table.now)
        (state_of machine.old bytes.old table.now) place.address place.size value
        ≡ answer result (state_of machine.new bytes.new table.now) }
    ensures kept { Keeps result bytes.old bytes.new }
{
    let Place { address, size } = place;
    let spelled = value.to_le_bytes();
    let low = &spelled[..usize::from(size.bytes())];
    let frames = machine.live_frames();
    if !store_bytes(&mut machine.stack, frames, bytes, address, low) {
        return Turn::Trapped(write_refusal(table, address, low.len() as u64));
    }
    machine.pc += 1;
    Turn::Went
}
