//! Which region an address lies in.
ghost use Rattle.std.specs.Prelude.{◌≡◌, ℕ, ◌+◌, ◌^◌, ◌<◌, ◌≤◌, nat_le, ◌&&◌, true, List, length};
ghost use Rattle.bpf_image.specs.declared.limits.TheConstants.{MOST_RECORD_LENGTH, MOST_TABLE_LENGTH};
ghost use Rattle.bpf_model.specs.State.{may_read, write_trap, in_table, in_frames, table_memory, live_frames, number_at, lent};
ghost use Rattle.bpf_machine.specs.Cells.{cells_of};
ghost use Rattle.bpf_machine.specs.Seen.{values_of, memory_of, state_of};

use crate::machine::Machine;
use crate::stack::{FRAME_START, find_spot};
use bpf_model::{FRAME_BYTES, FRAME_SPACE, RECORD_BASE, STACK_BASE, TABLE_BASE, TrapKind};

/// Whether so many bytes from an address lie wholly in a region.
pub(crate) fn lies_within(base: u64, room: u64, address: u64, size: u64) -> bool
    ensures { result ≡ (nat_le base address && nat_le (address + size) (base + room)) }
{
    if address < base {
        return false;
    }
    let place = address - base;
    size <= room && place <= room - size
}

/// Whether an access lies wholly in one live frame.
fn is_in_frame(machine: &Machine, address: u64, size: u64) -> bool
    requires { 1 ≤ size }
    ensures exact { (bytes table : List ℕ)
        → result ≡ in_frames (live_frames (state_of machine.now bytes table)) address size }
    ensures room { result ≡ true → address + size < 2 ^ 64 }
{
    find_spot(machine.live_frames(), address, size).is_some()
}

/// Whether so many bytes lie wholly in the table.
fn is_in_table(table: &[u8], address: u64, size: u64) -> bool
    ensures { result ≡ in_table (length table.now) address size }
{
    lies_within(TABLE_BASE, table.len() as u64, address, size)
}

/// Whether bytes may be read: wholly in the record, wholly in one live frame, or wholly in the table.
pub(crate) fn is_readable(
    machine: &Machine,
    bytes: &[u8],
    table: &[u8],
    address: u64,
    size: u64,
) -> bool
    requires some { 1 ≤ size }
    requires record { length bytes.now ≤ MOST_RECORD_LENGTH }
    requires table { length table.now ≤ MOST_TABLE_LENGTH }
    ensures exact { result
        ≡ may_read (lent bytes.now table.now) (state_of machine.now bytes.now table.now) address size }
    ensures room { result ≡ true → address + size < 2 ^ 64 }
{
    let in_record = lies_within(RECORD_BASE, bytes.len() as u64, address, size);
    let is_live = in_record || is_in_frame(machine, address, size);
    is_live || is_in_table(table, address, size)
}

/// Why bytes that may not be written are refused: they lie wholly in the table, or outside.
pub(crate) fn write_refusal(table: &[u8], address: u64, size: u64) -> TrapKind
    ensures { (bytes : List ℕ) → result ≡ write_trap (lent bytes table.now) address size }
{
    if is_in_table(table, address, size) {
        TrapKind::ReadOnly
    } else {
        TrapKind::OutsideMemory
    }
}

/// The byte at an address that the record or a frame has there.
fn own_byte_at(machine: &Machine, bytes: &[u8], address: u64) -> Option<u8>
    ensures { result ≡ memory_of bytes.now (values_of (cells_of machine.now.stack)) address }
{
    if address >= STACK_BASE {
        let place = (address - STACK_BASE) % FRAME_SPACE;
        if place < FRAME_START {
            return None;
        }
        let frame = (address - STACK_BASE) / FRAME_SPACE;
        let cell = FRAME_BYTES as u64 * frame + (place - FRAME_START);
        machine.stack.byte(cell)
    } else if address >= RECORD_BASE {
        bytes.get((address - RECORD_BASE) as usize).copied()
    } else {
        None
    }
}

/// The byte at an address that the table has there.
fn table_byte_at(table: &[u8], address: u64) -> Option<u8>
    ensures { result ≡ table_memory table.now address }
{
    if address >= TABLE_BASE {
        table.get((address - TABLE_BASE) as usize).copied()
    } else {
        None
    }
}

/// The byte at an address, where there is one that is set.
fn byte_at(machine: &Machine, bytes: &[u8], table: &[u8], address: u64) -> Option<u8>
    ensures { result ≡ (state_of machine.now bytes.now table.now).memory address }
{
    match own_byte_at(machine, bytes, address) {
        Some(byte) => Some(byte),
        None => table_byte_at(table, address),
    }
}

/// The number whose bytes from an address are in little-endian order; none where one is not set.
pub(crate) fn number_from(
    machine: &Machine,
    bytes: &[u8],
    table: &[u8],
    address: u64,
    size: u64,
) -> Option<u64>
    requires limit { size ≤ 8 }
    requires room { address + size < 2 ^ 64 }
    ensures { result ≡ number_at (state_of machine.now bytes.now table.now).memory address size }
{
    let mut value = 0;
    for place in (0..size).rev() {
        match byte_at(machine, bytes, table, address + place) {
            None => return None,
            Some(byte) => value = u64::from(byte) + 256 * value,
        }
    }
    Some(value)
}
