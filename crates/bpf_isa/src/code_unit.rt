//! A unit of code as its fields.
ghost use Rattle.std.specs.Prelude.{◌≡◌, ◌+◌, ◌*◌, ◌≤◌, length};
ghost use Rattle.bpf_isa.specs.DecodeErrors.{fields_at};
ghost use Rattle.bpf_isa.specs.Reading.{fields_in};

use byteorder::{ByteOrder, LittleEndian};

/// The fields of a unit of 8 bytes (RFC 9669, section 3), the signed ones as their bit patterns.
#[derive(Clone, Copy)]
pub(crate) struct CodeUnit {
    pub(crate) opcode: u8,
    pub(crate) destination: u8,
    pub(crate) source: u8,
    pub(crate) offset: u16,
    pub(crate) immediate: u32,
}

/// The unit at `pc`, which the code has whole.
pub(crate) fn unit_at(code: &[u8], pc: usize) -> CodeUnit
    requires { 8 * pc + 8 ≤ length code.now }
    ensures { fields_in result ≡ fields_at code.now pc }
{
    let start = 8 * pc;
    let bytes = &code[start..start + 8];
    CodeUnit {
        opcode: bytes[0],
        destination: bytes[1] % 16,
        source: bytes[1] / 16,
        offset: LittleEndian::read_u16(&bytes[2..4]),
        immediate: LittleEndian::read_u32(&bytes[4..]),
    }
}
