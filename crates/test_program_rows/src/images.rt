//! Images, made and loaded.
ghost use Rattle.std.specs.Prelude.{◌≡◌, IfOk, IfSome};

use crate::code::{bytes_of, code_of};
use anyhow::Result;
use bpf_image::{Image, ImageError};
use std::alloc::{AllocError, Global};

fn fault(alloc: Global, error: ImageError) -> Result<String, AllocError> {
    format!(in alloc; "error {} {error:?}", error as u8)
}

/// How many bytes an image is stored in, if what is loaded from them is the same.
fn stored(alloc: Global, image: &Image) -> Result<String> {
    let bytes = image.store(alloc)?;
    let again = Image::load(alloc, &bytes)?;
    let is_same = again.record_length() == image.record_length()
        && again.code() == image.code()
        && again.table() == image.table();
    if !is_same {
        return Ok(String::from_str(alloc, "another image is loaded")?);
    }
    Ok(format!(in alloc; "stored in {} bytes", bytes.len())?)
}

/// What comes of an image of this record length, of code and of a table in digits.
fn made_with_table(alloc: Global, record_length: u16, code: &str, table: &str) -> Result<String> {
    let code = bytes_of(alloc, code)?;
    let table = bytes_of(alloc, table)?;
    match Image::with_table(record_length, code, table) {
        Ok(image) => stored(alloc, &image),
        Err((_code, _table, error)) => Ok(fault(alloc, error)?),
    }
}

/// What comes of an image of this record length, of code in digits, and of a table after that word.
pub(crate) fn made(alloc: Global, record_length: u16, input: &str) -> Result<String> {
    if let Some((code, table)) = input.split_once(" table") {
        return made_with_table(alloc, record_length, code, table);
    }
    match Image::new(record_length, bytes_of(alloc, input)?) {
        Ok(image) => stored(alloc, &image),
        Err((_, error)) => Ok(fault(alloc, error)?),
    }
}

/// The image of a program for records of this length, with the table whose bytes stand after that word; none where
/// these make no image.
pub(crate) fn image_of(alloc: Global, record_length: u16, input: &str) -> Result<Option<Image>>
    ensures { IfOk result (λ found. IfSome found (λ image. image.record_length ≡ record_length)) }
{
    let Some((program, digits)) = input.split_once(" table ") else {
        let Ok(image) = Image::new(record_length, code_of(alloc, input)?) else {
            return Ok(None);
        };
        return Ok(Some(image));
    };
    let code = code_of(alloc, program)?;
    let Ok(image) = Image::with_table(record_length, code, bytes_of(alloc, digits)?) else {
        return Ok(None);
    };
    Ok(Some(image))
}

/// The record length, the code and the table of a loaded image, if it is stored in these bytes again.
fn described(alloc: Global, image: &Image, bytes: &[u8]) -> Result<String> {
    if image.store(alloc)?.as_slice() != bytes {
        return Ok(String::from_str(alloc, "it is stored in other bytes")?);
    }
    let digits = hex::encode(alloc, image.code())?;
    let record_length = image.record_length();
    if image.table().is_empty() {
        return Ok(format!(in alloc; "record {record_length}, code {digits}")?);
    }
    let table = hex::encode(alloc, image.table())?;
    Ok(format!(in alloc; "record {record_length}, code {digits}, table {table}")?)
}

/// The image that bytes in digits spell, or why they spell none.
pub(crate) fn loaded(alloc: Global, input: &str) -> Result<String> {
    let bytes = bytes_of(alloc, input)?;
    match Image::load(alloc, &bytes) {
        Ok(image) => described(alloc, &image, &bytes),
        Err(error) => Ok(fault(alloc, error)?),
    }
}
