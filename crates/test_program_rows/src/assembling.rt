//! Assembler texts and their code.
use crate::code::bytes_of;
use anyhow::Result;
use bpf_asm::{AssembleError, assemble, disassemble};
use std::alloc::{AllocError, Global};

fn fault(alloc: Global, error: AssembleError) -> Result<String, AllocError> {
    let AssembleError { line, cause } = error;
    format!(in alloc; "error {} {cause:?}, line {line}", cause as u8)
}

/// A line of the code's digits, and its text, which has to assemble to the code again.
fn with_text(alloc: Global, code: &[u8]) -> Result<String> {
    let text = disassemble(alloc, code)?;
    let again = assemble(alloc, &text)?;
    if again.as_slice() != code {
        return Ok(format!(in alloc; "{text}means other code")?);
    }
    let digits = hex::encode(alloc, code)?;
    Ok(format!(in alloc; "{digits}\n{text}")?)
}

/// The code of a text, in digits, and the text of that code; or the first fault.
pub(crate) fn assembled(alloc: Global, text: &str) -> Result<String> {
    match assemble(alloc, text) {
        Ok(code) => with_text(alloc, &code),
        Err(error) => Ok(fault(alloc, error)?),
    }
}

/// So many lines `exit`, and this text after them.
fn behind_exits(alloc: Global, count: u64, text: &str) -> Result<String, AllocError> {
    let mut longer = String::new(alloc);
    for _ in 0..count {
        longer.push_str("exit\n")?;
    }
    longer.push_str(text)?;
    Ok(longer)
}

/// How long the code is of this text after so many lines `exit`, if its text is the same, or the first fault.
pub(crate) fn assembled_often(alloc: Global, count: u64, text: &str) -> Result<String> {
    let longer = behind_exits(alloc, count, text)?;
    match assemble(alloc, &longer) {
        Ok(code) if disassemble(alloc, &code)?.as_str() == longer.as_str() => {
            Ok(format!(in alloc; "{} bytes", code.len())?)
        }
        Ok(_) => Ok(String::from_str(alloc, "the code has another text")?),
        Err(error) => Ok(fault(alloc, error)?),
    }
}

/// The text of code in digits, or why it has none.
pub(crate) fn listed(alloc: Global, input: &str) -> Result<String> {
    let code = bytes_of(alloc, input)?;
    match disassemble(alloc, &code) {
        Ok(text) => Ok(text),
        Err(error) => Ok(format!(in alloc; "error: {error}")?),
    }
}
