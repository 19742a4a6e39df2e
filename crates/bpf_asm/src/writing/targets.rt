//! The units to which instructions go.
ghost use Rattle.std.specs.Prelude.{◌≡◌, ℕ, false, None, slice_index_or, MatchResult};
ghost use Rattle.bpf_asm.specs.Listing.{first_out, is_start, is_target, unless_out, Refuses};

use crate::errors::DisassembleError;
use crate::writing::decoding::{is_marked, mark};
use crate::writing::placed::{Placed, Target};
use std::alloc::Global;

/// For each unit whether an instruction goes to it, where each goes to an instruction.
pub(crate) fn find_targets(
    alloc: Global,
    placed: &[Placed],
    starts: &[bool],
) -> Result<Vec<bool>, DisassembleError>
    requires { (k : ℕ) → slice_index_or starts.now k false ≡ is_start k placed.now }
    ensures { MatchResult result
        (λ targets. (first_out placed.now placed.now ≡ None)
        × ((k : ℕ) → slice_index_or targets.items k false ≡ is_target k placed.now))
        (λ e. Refuses e (unless_out (first_out placed.now placed.now) placed.now)) }
{
    let mut targets = vec![in alloc; false; starts.len()]?;
    for one in placed {
        match one.target() {
            Target::Nowhere => {}
            Target::Before => return Err(DisassembleError::JumpOut(usize::from(one.pc))),
            Target::At(unit) => {
                if !is_marked(starts, unit) {
                    return Err(DisassembleError::JumpOut(usize::from(one.pc)));
                }
                mark(&mut targets, unit);
            }
        }
    }
    Ok(targets)
}
