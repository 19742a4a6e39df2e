//! The instructions of some code, and the units where they start.
ghost use Rattle.std.specs.Prelude.{◌≡◌, ◌==◌, ◌<◌, ◌≤◌, ℕ, false, ◌||◌, slice_index_or, length, Ok, IfOk, MatchResult};
ghost use Rattle.bpf_isa.specs.declared.limits.TheConstants.{MOST_CODE_BYTES};
ghost use Rattle.bpf_asm.specs.Listing.{instructions, is_start, Refuses};

use crate::errors::DisassembleError;
use crate::writing::placed::Placed;
use bpf_isa::decode_at;
use std::alloc::Global;

/// The instructions of some code in order, and for each unit whether one starts there.
#[derive(Drop)]
pub(crate) struct Decoded {
    pub(crate) placed: Vec<Placed>,
    pub(crate) starts: Vec<bool>,
}

/// Marks a unit.
pub(crate) fn mark(marks: &mut Vec<bool>, unit: usize)
    requires { unit < length marks.old.items }
    ensures marked { (k : ℕ) → slice_index_or marks.new.items k false
        ≡ (slice_index_or marks.old.items k false || (unit == k)) }
    ensures same_length { length marks.new.items ≡ length marks.old.items }
{
    marks[unit] = true;
}

/// Whether a unit is marked.
pub(crate) fn is_marked(marks: &[bool], unit: usize) -> bool
    ensures { result ≡ slice_index_or marks.now unit false }
{
    unit < marks.len() && marks[unit]
}

/// Decodes the code from its first instruction to its end.
pub(crate) fn decode_all(alloc: Global, code: &[u8]) -> Result<Decoded, DisassembleError>
    requires { length code.now ≤ MOST_CODE_BYTES }
    ensures answer { MatchResult result (λ d. instructions code.now ≡ Ok d.placed.items)
        (λ e. Refuses e (instructions code.now)) }
    ensures starts { IfOk result (λ d. (k : ℕ) → slice_index_or d.starts.items k false ≡ is_start k d.placed.items) }
{
    let units = code.len() / 8;
    let mut starts = vec![in alloc; false; units]?;
    let mut placed = Vec::with_capacity(alloc, units)?;
    let mut pc = 0;
    while 8 * pc < code.len() {
        match decode_at(code, pc) {
            Ok((instruction, units)) => {
                mark(&mut starts, pc);
                placed.push(Placed {
                    pc: pc as u16,
                    instruction,
                })?;
                pc += units;
            }
            Err(_) => return Err(DisassembleError::BadCode(pc)),
        }
    }
    Ok(Decoded { placed, starts })
}
