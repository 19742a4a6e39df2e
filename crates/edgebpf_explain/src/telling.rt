//! From what was handed in to its explanation.
use crate::pace::Pace;
use crate::words::Asked;
use bpf_asm::{AssembleError, TextCause, assemble};
use bpf_image::{Image, ImageError};
use explanation::{Explanation, SourceLine, explain, source_lines};
use hex::FromHexError;
use std::alloc::{AllocError, Global};
use thiserror::Error;
use verifier::{Cause, WhySingly, why_singly};

/// The explanation of a program.
#[derive(Drop)]
pub struct Told {
    pub explanation: Explanation,
    /// How its edges run, if it is accepted.
    pub pace: Pace,
}

/// Why there is no explanation.
#[derive(Debug, Drop, Error)]
pub enum Failure {
    #[error("{0}")]
    Text(AssembleError),
    #[error("the code or the table is not pairs of hexadecimal digits")]
    Digits,
    #[error("the code is not 1 to 4096 whole units of 8 bytes")]
    CodeLength,
    #[error("the table is not 1 to 4096 bytes")]
    TableLength,
    #[error("standard input could not be read as text")]
    Input,
    #[error("memory")]
    Memory,
}

impl From<AllocError> for Failure {
    fn from(_error: AllocError) -> Failure {
        Failure::Memory
    }
}

/// The bytes that digits spell.
fn bytes_of(alloc: Global, digits: &str) -> Result<Vec<u8>, Failure> {
    match hex::decode(alloc, digits) {
        Ok(bytes) => Ok(bytes),
        Err(FromHexError::OutOfMemory) => Err(Failure::Memory),
        Err(_) => Err(Failure::Digits),
    }
}

/// The image of code, with the table that is asked for.
fn image_of(alloc: Global, asked: &Asked, code: Vec<u8>) -> Result<Image, Failure> {
    let Some(digits) = &asked.table else {
        return match Image::new(asked.record_length, code) {
            Ok(image) => Ok(image),
            Err(_) => Err(Failure::CodeLength),
        };
    };
    let table = bytes_of(alloc, digits)?;
    match Image::with_table(asked.record_length, code, table) {
        Ok(image) => Ok(image),
        Err((_, _, ImageError::TableLength)) => Err(Failure::TableLength),
        Err(_) => Err(Failure::CodeLength),
    }
}

/// Why a program's edges run one by one, if they do. Of code that does not decode nothing is said.
fn reason_of(alloc: Global, image: &Image) -> Result<Option<WhySingly>, Failure> {
    match why_singly(alloc, image) {
        Ok(why) => Ok(why),
        Err(refusal) if refusal.cause == Cause::OutOfMemory => Err(Failure::Memory),
        Err(_) => Ok(None),
    }
}

/// Explains code.
fn told_of(
    alloc: Global,
    asked: &Asked,
    code: Vec<u8>,
    source: &[SourceLine<'_>],
) -> Result<Told, Failure> {
    let image = image_of(alloc, asked, code)?;
    let pace = Pace {
        why_singly: reason_of(alloc, &image)?,
    };
    let explanation = explain(alloc, image, source)?;
    Ok(Told { explanation, pace })
}

/// Explains code in hexadecimal digits.
pub(crate) fn told_of_digits(alloc: Global, asked: &Asked, digits: &str) -> Result<Told, Failure> {
    let code = bytes_of(alloc, digits)?;
    told_of(alloc, asked, code, &[])
}

/// Explains assembler text.
pub(crate) fn told_of_text(alloc: Global, asked: &Asked, text: &str) -> Result<Told, Failure> {
    match assemble(alloc, text) {
        Ok(code) => {
            let source = source_lines(alloc, text)?;
            told_of(alloc, asked, code, &source)
        }
        Err(error) if error.cause == TextCause::OutOfMemory => Err(Failure::Memory),
        Err(error) => Err(Failure::Text(error)),
    }
}
