//! The laws of the format, and of the calls. A function of the first does nothing: its contract is the law. One of the
//! others only makes public calls, and is proved from their contracts alone.
ghost use Rattle.std.specs.Prelude.{◌≡◌, length, true, IfOk, IsErrAnd};
ghost use Rattle.bpf_image.specs.Laws.{OneImage, ImagesLoad};

use crate::image::Image;
use crate::image_error::ImageError;
use crate::limits::{LEAST_RECORD_LENGTH, MOST_RECORD_LENGTH, MOST_TABLE_LENGTH};
use bpf_isa::MOST_CODE_BYTES;
use std::alloc::Global;

/// No bytes spell two images: what is stored and loaded again is the same image.
pub fn one_image()
    ensures { OneImage }
{}

/// The bytes of an image have no fault: what was stored can be loaded, if there is memory.
pub fn images_load()
    ensures { ImagesLoad }
{}

/// What was loaded is stored as the same bytes.
pub fn loaded_image_is_stored(alloc: Global, bytes: &[u8]) -> Result<Vec<u8>, ImageError>
    ensures { IfOk result (λ stored. stored.items ≡ bytes.now) }
{
    let image = Image::load(alloc, bytes)?;
    image.store(alloc)
}

/// A record of 15 bytes is refused for its length, whatever the code is, and so is one of 257.
pub fn record_length_is_tested_first(code: Vec<u8>) -> Result<Image, (Vec<u8>, ImageError)>
    ensures { IsErrAnd result (λ e. e.1 ≡ ImageError.RecordLength) }
{
    match Image::new(LEAST_RECORD_LENGTH - 1, code) {
        Err((code, ImageError::RecordLength)) => Image::new(MOST_RECORD_LENGTH + 1, code),
        other => other,
    }
}

/// Code of 4,096 units is allowed.
pub fn longest_code_is_allowed(code: Vec<u8>) -> bool
    requires { length code.items ≡ MOST_CODE_BYTES }
    ensures { result ≡ true }
{
    Image::new(MOST_RECORD_LENGTH, code).is_ok()
}

/// A table of 4,096 bytes is allowed.
pub fn longest_table_is_allowed(code: Vec<u8>, table: Vec<u8>) -> bool
    requires code { length code.items ≡ MOST_CODE_BYTES }
    requires table { length table.items ≡ MOST_TABLE_LENGTH }
    ensures { result ≡ true }
{
    Image::with_table(MOST_RECORD_LENGTH, code, table).is_ok()
}

/// The code keeps its length, whether it makes an image or not.
pub fn code_keeps_its_length(code: Vec<u8>) -> usize
    ensures { result ≡ length code.items }
{
    match Image::new(LEAST_RECORD_LENGTH, code) {
        Ok(image) => image.code().len(),
        Err((code, _)) => code.len(),
    }
}
