//! How the bytes of an image are laid out.
ghost use Rattle.std.specs.Prelude.{◌≡◌, ◌≤◌, length};
ghost use Rattle.bpf_image.specs.Format.{has_table, front_length, units_field, table_field};
ghost use Rattle.bpf_image.specs.Reading.{header_of};

use crate::image::Image;
use crate::image_error::ImageError;
use byteorder::{ByteOrder, LittleEndian};

/// The bytes that an image without a table begins with.
pub(crate) const MAGIC: [u8; 4] = [0x42, 0x50, 0x45, 0x31];

/// The bytes that an image with a table begins with.
pub(crate) const TABLE_MAGIC: [u8; 4] = [0x42, 0x50, 0x45, 0x32];

/// Whether the bytes begin as those of an image with a table.
pub(crate) fn begins_with_table(bytes: &[u8]) -> bool
    ensures { result ≡ has_table bytes.now }
{
    bytes.starts_with(&TABLE_MAGIC)
}

/// Where the code begins.
pub(crate) fn code_start(bytes: &[u8]) -> usize
    ensures exact { result ≡ front_length bytes.now }
    ensures limit { result ≤ 10 }
    ensures least { 8 ≤ result }
{
    if begins_with_table(bytes) { 10 } else { 8 }
}

/// How many units of code the bytes say.
pub(crate) fn unit_count(bytes: &[u8]) -> usize
    requires { 8 ≤ length bytes.now }
    ensures exact { result ≡ units_field bytes.now }
    ensures limit { result ≤ 65535 }
{
    usize::from(LittleEndian::read_u16(&bytes[6..8]))
}

/// How many bytes of a table the bytes say.
fn table_length(bytes: &[u8]) -> usize
    requires { front_length bytes.now ≤ length bytes.now }
    ensures exact { result ≡ table_field bytes.now }
    ensures limit { result ≤ 65535 }
{
    if begins_with_table(bytes) {
        usize::from(LittleEndian::read_u16(&bytes[8..10]))
    } else {
        0
    }
}

/// The record length of an image's bytes, or the first fault.
pub(crate) fn read_header(bytes: &[u8]) -> Result<u16, ImageError>
    ensures { result ≡ header_of bytes.now }
{
    let has_table = begins_with_table(bytes);
    if !bytes.starts_with(&MAGIC) && !has_table {
        return Err(ImageError::Magic);
    }
    let front = code_start(bytes);
    if bytes.len() < front {
        return Err(ImageError::Length);
    }
    let record_length = LittleEndian::read_u16(&bytes[4..6]);
    let code_length = 8 * unit_count(bytes);
    let table_length = table_length(bytes);
    if let Some(error) = Image::wrong_length(record_length, code_length, table_length) {
        return Err(error);
    }
    if has_table && table_length == 0 {
        return Err(ImageError::TableLength);
    }
    if bytes.len() != front + code_length + table_length {
        return Err(ImageError::Length);
    }
    Ok(record_length)
}
