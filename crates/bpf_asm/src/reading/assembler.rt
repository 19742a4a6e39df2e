//! From text to code.
ghost use Rattle.std.specs.Prelude.{◌≡◌, Ok, MatchResult};
ghost use Rattle.bpf_asm.specs.Assembly.{assembly, Faults};

use crate::errors::AssembleError;
use crate::reading::coding::code_of_lines;
use crate::reading::parsed::read_lines;
use std::alloc::Global;

/// The code that an assembler's text means.
///
/// Else the first fault, with its line. Of each line in turn the form is tested, then its word, its
/// arguments' forms, that its label is new, that its numbers are in their ranges, and that the code
/// has at most 4,096 units. Only then, again line by line, it is tested that each label to which a
/// statement goes is there and near enough.
pub fn assemble(alloc: Global, text: &str) -> Result<Vec<u8>, AssembleError>
    ensures { MatchResult result (λ code. assembly text.now ≡ Ok code.items) (λ e. Faults e (assembly text.now)) }
{
    let parsed = read_lines(alloc, text.as_bytes())?;
    code_of_lines(alloc, &parsed.items, &parsed.labels)
}
