//! The bytes that a row names.
use anyhow::Result;
use bpf_asm::assemble;
use std::alloc::Global;

/// Adds the bytes of one word: hexadecimal digits, and after a star how often they come.
fn push_word(alloc: Global, bytes: &mut Vec<u8>, word: &str) -> Result<()> {
    let (digits, count) = word.split_once('*').unwrap_or((word, "1"));
    let part = hex::decode(alloc, digits)?;
    for _ in 0..count.parse::<u32>()? {
        bytes.extend_from_slice(&part)?;
    }
    Ok(())
}

/// The bytes of these words.
pub(crate) fn bytes_of(alloc: Global, words: &str) -> Result<Vec<u8>> {
    let mut bytes = Vec::new(alloc);
    for word in words.split_whitespace() {
        push_word(alloc, &mut bytes, word)?;
    }
    Ok(bytes)
}

/// The code of a program: that of an assembler text, or after the word `code` its bytes.
pub(crate) fn code_of(alloc: Global, input: &str) -> Result<Vec<u8>> {
    match input.strip_prefix("code ") {
        Some(words) => bytes_of(alloc, words),
        None => Ok(assemble(alloc, input)?),
    }
}
