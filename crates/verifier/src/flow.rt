//! The second pass: where jumps and calls land, and what stands last in each function.
ghost use Rattle.std.specs.Prelude.{◌≡◌, ◌<◌, ◌≤◌, Option};
ghost use Rattle.bpf_isa.specs.declared.limits.TheConstants.{MOST_UNITS};
ghost use Rattle.bpf_image.specs.Program.{units};
ghost use Rattle.verifier.specs.Listing.{listing_of};
ghost use Rattle.verifier.specs.Functions.{function_end};
ghost use Rattle.verifier.specs.Tables.{HasEnds};
ghost use Rattle.verifier.specs.Verdict.{first_fault, flow_fault, flow_cause, landing_cause, calling_cause, falling_cause};

use crate::places::{entry_of_call, length_of, place_at, starting_at};
use crate::refusal::Refusal;
use bpf_image::Image;
use bpf_isa::Instruction;
use bpf_model::Cause;

/// Why a jump at a pc may not land at a place, in a function that ends there.
fn fault_of_landing(
    image: &Image,
    listing: &[Option<Instruction>],
    end: usize,
    pc: usize,
    place: i64,
) -> Option<Cause>
    requires listing { listing.now ≡ listing_of image.now (units image.now) }
    requires end { end ≡ function_end image.now pc }
    ensures { result ≡ landing_cause image.now pc place }
{
    if place < 0 {
        return Some(Cause::JumpOut);
    }
    let place = place as usize;
    if starting_at(image, listing, place).is_none() || place >= end {
        return Some(Cause::JumpOut);
    }
    if place <= pc {
        Some(Cause::JumpBack)
    } else {
        None
    }
}

/// Why a call may not land where no function begins above it.
fn fault_of_calling(entry: Option<usize>) -> Option<Cause>
    ensures { result ≡ calling_cause entry }
{
    match entry {
        None => Some(Cause::CallTarget),
        Some(_) => None,
    }
}

/// Why the instruction at a pc may not go on with the next: the function ends there.
fn fault_of_falling(image: &Image, end: usize, pc: usize, next: usize) -> Option<Cause>
    requires { end ≡ function_end image.now pc }
    ensures { result ≡ falling_cause image.now pc next }
{
    if end <= next {
        Some(Cause::FallsOff)
    } else {
        None
    }
}

/// Which of the pass's rules an instruction breaks, in a function that ends there.
fn fault_of(
    image: &Image,
    listing: &[Option<Instruction>],
    end: usize,
    pc: usize,
    instruction: Instruction,
) -> Option<Cause>
    requires listing { listing.now ≡ listing_of image.now (units image.now) }
    requires end { end ≡ function_end image.now pc }
    requires near { pc ≤ MOST_UNITS }
    ensures { result ≡ flow_cause image.now pc instruction }
{
    match instruction {
        Instruction::Exit => None,
        Instruction::Jump { distance } => {
            fault_of_landing(image, listing, end, pc, place_at(pc, length_of(distance)))
        }
        Instruction::Branch { distance, .. } => {
            let place = place_at(pc, i32::from(distance));
            match fault_of_landing(image, listing, end, pc, place) {
                Some(cause) => Some(cause),
                None => fault_of_falling(image, end, pc, pc + 1),
            }
        }
        Instruction::CallLocal { distance } => {
            let entry = entry_of_call(image, listing, pc, distance);
            match fault_of_calling(entry) {
                Some(cause) => Some(cause),
                None => fault_of_falling(image, end, pc, pc + 1),
            }
        }
        _ => fault_of_falling(image, end, pc, pc + instruction.units()),
    }
}

/// Which of the pass's rules is broken at a pc.
fn fault_at(
    image: &Image,
    listing: &[Option<Instruction>],
    ends: &[u16],
    pc: usize,
) -> Option<Cause>
    requires listing { listing.now ≡ listing_of image.now (units image.now) }
    requires ends { HasEnds image.now ends.now }
    requires inside { pc < units image.now }
    ensures { result ≡ flow_fault image.now pc }
{
    match starting_at(image, listing, pc) {
        None => None,
        Some(instruction) => fault_of(image, listing, usize::from(ends[pc]), pc, instruction),
    }
}

/// The first instruction that breaks a rule of the pass.
pub(crate) fn find_flow_fault(
    image: &Image,
    listing: &[Option<Instruction>],
    ends: &[u16],
) -> Option<Refusal>
    requires listing { listing.now ≡ listing_of image.now (units image.now) }
    requires ends { HasEnds image.now ends.now }
    ensures { result ≡ first_fault (flow_fault image.now) (units image.now) }
{
    for pc in 0..image.code().len() / 8 {
        if let Some(cause) = fault_at(image, listing, ends, pc) {
            return Some(Refusal { cause, pc });
        }
    }
    None
}
