//! What follows of decoding, for proofs above, and what encoding and decoding make of each other's results.
ghost use Rattle.std.specs.Prelude.{◌≡◌, ℕ, ◌+◌, ◌*◌, ◌≤◌, length, Some, None};
ghost use Rattle.bpf_isa.specs.Encoding.{InstructionFits, IsCodeAt, units_of};
ghost use Rattle.bpf_isa.specs.Reading.{decoding};

use crate::decode::decode_at;
use crate::decode_error::DecodeError;
use crate::encoding::encode;
use crate::instruction::{Instruction, Size};
use crate::register::Register;

/// For proofs: what `decoding` gives at any unit of the code stands there, inside the code.
pub fn decoded_is_code(code: &[u8])
    ensures stands { (pc : ℕ) (i : Instruction) (units : ℕ)
        → decoding code.now pc ≡ Ok (i, units) → IsCodeAt code.now pc i units }
    ensures fits { (pc : ℕ) (i : Instruction) (units : ℕ)
        → decoding code.now pc ≡ Ok (i, units) → InstructionFits i × (units ≡ units_of i) }
    ensures inside { (pc : ℕ) (i : Instruction) (units : ℕ)
        → decoding code.now pc ≡ Ok (i, units) → 8 * (pc + units) ≤ length code.now }
    ensures only { (pc : ℕ) (i : Instruction) (units : ℕ)
        → IsCodeAt code.now pc i units → decoding code.now pc ≡ Ok (i, units) }
{}

/// A store that is encoded is decoded as itself, whatever its offset. It only makes public calls, as those below do, and is
/// proved from their contracts alone.
pub fn encoded_is_decoded(offset: i16) -> Result<(Instruction, usize), DecodeError>
    ensures { result ≡ Ok (Instruction.StoreRegister Size.Double Register.R10 offset Register.R1, 1) }
{
    let (bytes, length) = encode(&Instruction::StoreRegister {
        size: Size::Double,
        base: Register::R10,
        offset,
        source: Register::R1,
    });
    decode_at(&bytes[..length], 0)
}

/// A register's number is the number of that register, and 11 is the number of none.
pub fn numbers_name_registers(register: Register) -> (Option<Register>, Option<Register>)
    ensures { result ≡ (Some register, None) }
{
    (
        Register::from_number(register.number()),
        Register::from_number(11),
    )
}

/// An unused field that is not zero is reported before a register that does not exist: an exit with 11 as its
/// destination.
pub fn fields_are_tested_before_registers() -> Result<(Instruction, usize), DecodeError>
    ensures { result ≡ Err DecodeError.UnusedField }
{
    decode_at(&[0x95, 11, 0, 0, 0, 0, 0, 0], 0)
}

/// An unused field that is not zero is reported also if the offset chooses the instruction: a move that extends a sign,
/// with an immediate.
pub fn unused_immediate_is_reported() -> Result<(Instruction, usize), DecodeError>
    ensures { result ≡ Err DecodeError.UnusedField }
{
    decode_at(&[0xbf, 0x10, 8, 0, 1, 0, 0, 0], 0)
}

/// A load of 64 bits that is encoded is decoded as itself, whatever its number.
pub fn wide_is_decoded_as_itself(value: u64) -> Result<(Instruction, usize), DecodeError>
    ensures { result ≡ Ok (Instruction.Wide Register.R3 value, 2) }
{
    let (bytes, length) = encode(&Instruction::Wide {
        destination: Register::R3,
        value,
    });
    decode_at(&bytes[..length], 0)
}
