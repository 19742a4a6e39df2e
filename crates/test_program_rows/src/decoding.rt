//! Instructions and their bytes.
use crate::code::bytes_of;
use anyhow::Result;
use bpf_isa::{Instruction, decode_at, encode};
use std::alloc::Global;

/// Whether an instruction of so many units is encoded as the bytes from this unit on.
fn is_spelled(instruction: &Instruction, units: usize, code: &[u8], pc: usize) -> bool {
    let (bytes, length) = encode(instruction);
    let spelled = bytes.get(..length).unwrap_or(&[]);
    let rest = code.get(pc.saturating_mul(8)..).unwrap_or(&[]);
    length / 8 == units && rest.starts_with(spelled)
}

/// The instruction at this unit of the code that the first word has, if it is encoded as the same bytes, or why there is none.
/// After the first word may stand a note for the reader.
pub(crate) fn decoded(alloc: Global, pc: u64, input: &str) -> Result<String> {
    let (digits, _) = input.split_once(' ').unwrap_or((input, ""));
    let code = bytes_of(alloc, digits)?;
    let pc = usize::try_from(pc).unwrap_or(usize::MAX);
    let text = match decode_at(&code, pc) {
        Ok((instruction, units)) if is_spelled(&instruction, units, &code, pc) => {
            format!(in alloc; "{instruction:?}")?
        }
        Ok((instruction, units)) => format!(in alloc;
            "{instruction:?} in {units} units, spelled otherwise"
        )?,
        Err(error) => format!(in alloc; "error {} {error:?}", error as u8)?,
    };
    Ok(text)
}
