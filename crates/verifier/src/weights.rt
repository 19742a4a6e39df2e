//! The third, the fourth and the fifth pass: how many frames a walk through the code has, how much it counts, and how many
//! instructions the abstract pass goes through.
ghost use Rattle.std.specs.Prelude.{◌≡◌, ◌<◌, ◌≤◌, ◌+◌, min, unsigned_abs, slice_index_or, IfSome, MatchResult, None, false};
ghost use Rattle.std.specs.Option.{option_or};
ghost use Rattle.bpf_isa.specs.declared.limits.TheConstants.{MOST_UNITS};
ghost use Rattle.bpf_image.specs.Program.{units};
ghost use Rattle.bpf_model.specs.State.{most_frames};
ghost use Rattle.verifier.specs.Listing.{listing_of};
ghost use Rattle.verifier.specs.Walks.{greatest, next_pcs, called_pcs, following_below, weight_by, longest, deepest, pairs};
ghost use Rattle.verifier.specs.Verdict.{first_fault, decoding_fault, flow_fault, frames_fault, length_fault, pairs_fault, most_counted, most_pairs, no_memory, unless_memory};
ghost use Rattle.verifier.specs.Tables.{rule_of, successors_below, ceiling as weight_ceiling, capped_weight, HasEnds};
ghost use Rattle.verifier.specs.declared.weights.Measure.TheVariants.{Frames};

use crate::places::{length_of, place_at, starting_at};
use crate::refusal::Refusal;
use bpf_image::Image;
use bpf_isa::Instruction;
use bpf_model::{Cause, MOST_FRAMES};
use std::alloc::Global;

/// How many instructions a run may count.
pub const MOST_COUNTED: u32 = 1_000_000;

/// How many instructions the abstract pass may go through, if all code is reached: it goes through a function once for
/// each call of it.
pub const MOST_PAIRS: u32 = 1_000_000;

/// What a pass weighs the code by.
#[derive(Clone, Copy)]
pub enum Measure {
    /// How many instructions a walk counts.
    Instructions,
    /// How many frames are live at once.
    Frames,
    /// How many instructions the abstract pass may go through.
    Pairs,
}

impl Measure {
    /// From which weight on weights count as one: one more than is allowed. So no sum overflows,
    /// however much code that no way leads to would count.
    fn ceiling(self) -> u32
        ensures { result ≡ weight_ceiling self }
    {
        match self {
            Measure::Instructions => MOST_COUNTED + 1,
            Measure::Frames => MOST_FRAMES as u32 + 1,
            Measure::Pairs => MOST_PAIRS + 1,
        }
    }

    /// The weight of an instruction by those of what it calls and of what comes after it.
    fn weigh(self, called: u32, next: u32) -> u32
        requires called { called ≤ weight_ceiling self }
        requires next { next ≤ weight_ceiling self }
        ensures { result ≡ min (rule_of self called next) (weight_ceiling self) }
    {
        let weight = match self {
            Measure::Instructions => 1 + called + next,
            Measure::Frames => (1 + called).max(next),
            Measure::Pairs => 1 + called + next,
        };
        weight.min(self.ceiling())
    }
}

/// The weight at a place, 0 outside.
fn weight_at(weights: &[u32], place: i64) -> u32
    ensures { result ≡ slice_index_or weights.now (unsigned_abs place) 0 }
{
    let place = place.unsigned_abs() as usize;
    if place < weights.len() {
        weights[place]
    } else {
        0
    }
}

/// The weight of what is called, 0 where nothing is.
fn weight_called(weights: &[u32], pc: usize, instruction: Instruction) -> u32
    requires { pc ≤ MOST_UNITS }
    ensures { result ≡ greatest (λ q. slice_index_or weights.now q 0) (called_pcs instruction pc) }
{
    match instruction {
        Instruction::CallLocal { distance } => weight_at(weights, place_at(pc, distance)),
        _ => 0,
    }
}

/// The greatest weight of what may come after an instruction on a walk of its function.
fn weight_behind(weights: &[u32], pc: usize, instruction: Instruction) -> u32
    requires { pc ≤ MOST_UNITS }
    ensures { result ≡ greatest (λ q. slice_index_or weights.now q 0) (next_pcs instruction pc) }
{
    match instruction {
        Instruction::Exit => 0,
        Instruction::Jump { distance } => weight_at(weights, place_at(pc, length_of(distance))),
        Instruction::Branch { distance, .. } => {
            let taken = weight_at(weights, place_at(pc, i32::from(distance)));
            let passed = weight_at(weights, pc as i64 + 1);
            taken.max(passed)
        }
        _ => weight_at(weights, (pc + instruction.units()) as i64),
    }
}

/// The weight of the instruction after another, 0 where the function ends there.
fn weight_following(weights: &[u32], end: usize, pc: usize, instruction: Instruction) -> u32
    requires { pc ≤ MOST_UNITS }
    ensures { result ≡ greatest (λ q. slice_index_or weights.now q 0) (following_below end instruction pc) }
{
    let next = pc + instruction.units();
    if next < end {
        weight_at(weights, next as i64)
    } else {
        0
    }
}

/// The weight of the instruction at a pc, in a function that ends there, by the weights of the pcs after it; 0 where none
/// starts.
fn weight_of(
    measure: Measure,
    weights: &[u32],
    end: usize,
    pc: usize,
    found: Option<Instruction>,
) -> u32
    requires near { pc ≤ MOST_UNITS }
    requires called { IfSome found (λ instruction. greatest (λ q. slice_index_or weights.now q 0)
        (called_pcs instruction pc) ≤ weight_ceiling measure) }
    requires next { IfSome found (λ instruction. greatest (λ q. slice_index_or weights.now q 0)
        (successors_below measure end instruction pc) ≤ weight_ceiling measure) }
    ensures { result ≡ min (weight_by (rule_of measure) (successors_below measure end)
        (λ q. slice_index_or weights.now q 0) found pc) (weight_ceiling measure) }
{
    let Some(instruction) = found else {
        return 0;
    };
    let called = weight_called(weights, pc, instruction);
    let next = match measure {
        Measure::Instructions | Measure::Frames => weight_behind(weights, pc, instruction),
        Measure::Pairs => weight_following(weights, end, pc, instruction),
    };
    measure.weigh(called, next)
}

/// The weight of the whole program. The weights are found from the end, as all jumps and calls go forward.
fn find_weight(
    alloc: Global,
    measure: Measure,
    image: &Image,
    listing: &[Option<Instruction>],
    ends: &[u16],
) -> Result<u32, Refusal>
    requires listing { listing.now ≡ listing_of image.now (units image.now) }
    requires decodes { first_fault (decoding_fault image.now) (units image.now) ≡ None }
    requires flow { first_fault (flow_fault image.now) (units image.now) ≡ None }
    requires ends { HasEnds image.now ends.now }
    ensures { MatchResult result (λ weight. weight ≡ capped_weight measure image.now 0)
        (λ refusal. refusal ≡ no_memory) }
{
    let end = image.code().len() / 8;
    let mut weights = vec![in alloc; 0u32; end]?;
    for behind in 0..end {
        let pc = end - 1 - behind;
        let found = starting_at(image, listing, pc);
        weights[pc] = weight_of(measure, &weights, usize::from(ends[pc]), pc, found);
    }
    Ok(weights[0])
}

/// How many frames are live at once at most: one, where no function is called.
fn find_frames(
    alloc: Global,
    image: &Image,
    listing: &[Option<Instruction>],
    ends: &[u16],
    calls: bool,
) -> Result<u32, Refusal>
    requires listing { listing.now ≡ listing_of image.now (units image.now) }
    requires decodes { first_fault (decoding_fault image.now) (units image.now) ≡ None }
    requires flow { first_fault (flow_fault image.now) (units image.now) ≡ None }
    requires ends { HasEnds image.now ends.now }
    requires calls { calls ≡ false → deepest image.now ≡ 1 }
    ensures { MatchResult result (λ frames. frames ≡ capped_weight Frames image.now 0)
        (λ refusal. refusal ≡ no_memory) }
{
    if calls {
        find_weight(alloc, Measure::Frames, image, listing, ends)
    } else {
        Ok(1)
    }
}

/// How many instructions a run counts and how many frames it has, both at most.
#[derive(Clone, Copy, Debug)]
pub struct Extent {
    pub instructions: u32,
    pub frames: u8,
}

/// The extent of a program's runs, which no pass refuses.
pub(crate) fn find_extent(
    alloc: Global,
    image: &Image,
    listing: &[Option<Instruction>],
    ends: &[u16],
    calls: bool,
) -> Result<Extent, Refusal>
    requires listing { listing.now ≡ listing_of image.now (units image.now) }
    requires decodes { first_fault (decoding_fault image.now) (units image.now) ≡ None }
    requires flow { first_fault (flow_fault image.now) (units image.now) ≡ None }
    requires ends { HasEnds image.now ends.now }
    requires calls { calls ≡ false → deepest image.now ≡ 1 }
    ensures { MatchResult result
        (λ extent. (extent.instructions ≡ longest image.now) × (extent.frames ≡ deepest image.now)
        × (longest image.now ≤ most_counted) × (deepest image.now ≤ most_frames))
        (λ refusal. unless_memory refusal (option_or (frames_fault image.now) (length_fault image.now)
        ≡ Some refusal)) }
{
    let frames = find_frames(alloc, image, listing, ends, calls)?;
    if frames > MOST_FRAMES as u32 {
        let cause = Cause::TooDeep;
        return Err(Refusal { cause, pc: 0 });
    }
    let instructions = find_weight(alloc, Measure::Instructions, image, listing, ends)?;
    if instructions > MOST_COUNTED {
        let cause = Cause::TooLong;
        return Err(Refusal { cause, pc: 0 });
    }
    Ok(Extent {
        instructions,
        frames: frames as u8,
    })
}

/// Refuses a program of which the abstract pass might go through too many instructions. Code of one function never has
/// so many.
pub(crate) fn check_pairs(
    alloc: Global,
    image: &Image,
    listing: &[Option<Instruction>],
    ends: &[u16],
    calls: bool,
) -> Result<(), Refusal>
    requires listing { listing.now ≡ listing_of image.now (units image.now) }
    requires decodes { first_fault (decoding_fault image.now) (units image.now) ≡ None }
    requires flow { first_fault (flow_fault image.now) (units image.now) ≡ None }
    requires ends { HasEnds image.now ends.now }
    requires calls { calls ≡ false → pairs image.now ≤ most_pairs }
    ensures { MatchResult result (λ _. pairs image.now ≤ most_pairs)
        (λ refusal. unless_memory refusal (pairs_fault image.now ≡ Some refusal)) }
{
    if !calls {
        return Ok(());
    }
    let found = find_weight(alloc, Measure::Pairs, image, listing, ends)?;
    if found > MOST_PAIRS {
        let cause = Cause::TooManyPairs;
        return Err(Refusal { cause, pc: 0 });
    }
    Ok(())
}
