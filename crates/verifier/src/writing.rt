//! Whether a program writes to memory.
ghost use Rattle.std.specs.Prelude.{◌≡◌, ◌↔◌, false};
ghost use Rattle.bpf_image.specs.Program.{units};
ghost use Rattle.verifier.specs.Listing.{instruction_at, listing_of};
ghost use Rattle.verifier.specs.Writing.{writes as is_writing, writes_there, NeverWrites};

use crate::places::starting_at;
use bpf_image::Image;
use bpf_isa::Instruction;
use bpf_model::Helper;

/// Whether an instruction writes to memory.
fn writes(instruction: Instruction) -> bool
    ensures { result ≡ is_writing instruction }
{
    match instruction {
        Instruction::Store { .. } | Instruction::StoreRegister { .. } => true,
        Instruction::CallHelper { number } => matches!(Helper::of(number), Some(Helper::Gather)),
        _ => false,
    }
}

/// Whether the instruction at a pc writes to memory, if one starts there.
fn writes_at(image: &Image, listing: &[Option<Instruction>], pc: usize) -> bool
    requires { listing.now ≡ listing_of image.now (units image.now) }
    ensures { result ≡ writes_there (instruction_at image.now pc) }
{
    match starting_at(image, listing, pc) {
        Some(instruction) => writes(instruction),
        None => false,
    }
}

/// Whether an instruction of a program writes to memory.
pub(crate) fn has_writes(image: &Image, listing: &[Option<Instruction>]) -> bool
    requires { listing.now ≡ listing_of image.now (units image.now) }
    ensures { (result ≡ false) ↔ NeverWrites image.now }
{
    for pc in 0..image.code().len() / 8 {
        if writes_at(image, listing, pc) {
            return true;
        }
    }
    false
}
