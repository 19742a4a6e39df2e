//! Where the functions of a program begin and end.
ghost use Rattle.std.specs.Prelude.{◌≡◌, ℕ, ◌<◌, ◌≤◌, ◌||◌, true, false, None, IfSome, MatchResult, slice_index_or, length};
ghost use Rattle.bpf_image.specs.Program.{units};
ghost use Rattle.verifier.specs.Listing.{listing_of};
ghost use Rattle.verifier.specs.Functions.{is_place};
ghost use Rattle.verifier.specs.Listing.{instruction_at};
ghost use Rattle.verifier.specs.Verdict.{no_memory, first_fault, decoding_fault, most_pairs};
ghost use Rattle.verifier.specs.Walks.{deepest, pairs};
ghost use Rattle.verifier.specs.Tables.{HasEntries, HasEnds, HasOneFunction, calls_one};

use crate::places::{entry_called_at, starting_at};
use crate::refusal::Refusal;
use bpf_image::Image;
use bpf_isa::Instruction;
use std::alloc::Global;

/// Whether the instruction at a pc calls a function of the program.
fn is_call_at(image: &Image, listing: &[Option<Instruction>], pc: usize) -> bool
    requires { listing.now ≡ listing_of image.now (units image.now) }
    ensures { result ≡ calls_one (instruction_at image.now pc) }
{
    matches!(
        starting_at(image, listing, pc),
        Some(Instruction::CallLocal { .. })
    )
}

/// Whether a program calls functions of its own. Most do not: then it is one function, of one frame.
pub(crate) fn has_calls(image: &Image, listing: &[Option<Instruction>]) -> bool
    requires listing { listing.now ≡ listing_of image.now (units image.now) }
    requires decodes { first_fault (decoding_fault image.now) (units image.now) ≡ None }
    ensures some { result ≡ true → (pc : ℕ) × (calls_one (instruction_at image.now pc) ≡ true) }
    ensures one { result ≡ false → HasOneFunction image.now }
    ensures frames { result ≡ false → deepest image.now ≡ 1 }
    ensures pairs { result ≡ false → pairs image.now ≤ most_pairs }
{
    for pc in 0..image.code().len() / 8 {
        if is_call_at(image, listing, pc) {
            return true;
        }
    }
    false
}

/// Marks a function's beginning, where there is one.
fn mark(entries: &mut Vec<bool>, entry: Option<usize>)
    requires { IfSome entry (λ place. place < length entries.old.items) }
    ensures marked { (q : ℕ) → slice_index_or entries.new.items q false
        ≡ (slice_index_or entries.old.items q false || is_place entry q) }
    ensures same_length { length entries.new.items ≡ length entries.old.items }
{
    if let Some(place) = entry {
        entries[place] = true;
    }
}

/// Whether a function begins at each pc.
fn find_entries(
    alloc: Global,
    image: &Image,
    listing: &[Option<Instruction>],
) -> Result<Vec<bool>, Refusal>
    requires { listing.now ≡ listing_of image.now (units image.now) }
    ensures { MatchResult result (λ entries. HasEntries image.now entries.items) (λ refusal. refusal ≡ no_memory) }
{
    let end = image.code().len() / 8;
    let mut entries = vec![in alloc; false; end]?;
    entries[0] = true;
    for pc in 0..end {
        mark(&mut entries, entry_called_at(image, listing, pc));
    }
    Ok(entries)
}

/// The ends where the whole code is one function.
fn ends_of_one(alloc: Global, image: &Image) -> Result<Vec<u16>, Refusal>
    requires { HasOneFunction image.now }
    ensures { MatchResult result (λ ends. HasEnds image.now ends.items) (λ refusal. refusal ≡ no_memory) }
{
    let end = image.code().len() / 8;
    Ok(vec![in alloc; end as u16; end]?)
}

/// Where the function ends that each pc lies in.
pub(crate) fn find_ends(
    alloc: Global,
    image: &Image,
    listing: &[Option<Instruction>],
    calls: bool,
) -> Result<Vec<u16>, Refusal>
    requires listing { listing.now ≡ listing_of image.now (units image.now) }
    requires calls { calls ≡ false → HasOneFunction image.now }
    ensures { MatchResult result (λ ends. HasEnds image.now ends.items) (λ refusal. refusal ≡ no_memory) }
{
    if !calls {
        return ends_of_one(alloc, image);
    }
    let entries = find_entries(alloc, image, listing)?;
    let end = image.code().len() / 8;
    let mut ends = vec![in alloc; 0u16; end]?;
    let mut next = end as u16;
    for behind in 0..end {
        let pc = end - 1 - behind;
        ends[pc] = next;
        if entries[pc] {
            next = pc as u16;
        }
    }
    Ok(ends)
}
