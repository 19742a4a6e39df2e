//! A program's code with its record length and its table.
ghost use Rattle.std.specs.Prelude.{◌≡◌, ◌≢◌, ◌≤◌, ◌↔◌, length, drop, IfOk, IfErr, IsErrAnd, IsErrOf, IsOk, MatchOption};
ghost use Rattle.bpf_image.specs.Program.{Program, without_table, table_bytes, lengths_of, IsRecordLength, IsCodeLength, IsTableLength, IsImage};
ghost use Rattle.bpf_image.specs.Format.{image_bytes, record_field, IsWhole, IsFault, IsWrongLength};
ghost use Rattle.bpf_image.specs.declared.limits.TheConstants.{MOST_TABLE_LENGTH};

use crate::format::{MAGIC, TABLE_MAGIC, code_start, read_header, unit_count};
use crate::image_error::ImageError;
use crate::lengths::Lengths;
use crate::limits::{LEAST_RECORD_LENGTH, MOST_RECORD_LENGTH, MOST_TABLE_LENGTH};
use bpf_isa::MOST_UNITS;
use std::alloc::{AllocError, Global};
use std::marker::Model;

/// The code of a program, how many bytes the record has that each run is lent, and the table, if
/// there is one. The code is 1 to 4,096 whole units of 8 bytes, the record 16 to 256 bytes and the
/// table 1 to 4,096 bytes; the code's instructions are not tested.
#[derive(Debug)]
pub struct Image {
    record_length: u16,
    code: Vec<u8>,
    // None is no table, which can be had without memory.
    table: Option<Vec<u8>>,
}

/// The bytes from a place on, if there are any.
fn rest_of(alloc: Global, bytes: &[u8], start: usize) -> Result<Option<Vec<u8>>, AllocError>
    requires { start ≤ length bytes.now }
    ensures { IfOk result (λ rest. table_bytes rest ≡ drop start bytes.now) }
{
    if start == bytes.len() {
        return Ok(None);
    }
    let rest = bytes[start..].to_vec(alloc)?;
    Ok(Some(rest))
}

/// The image of bytes that spell one.
fn image_of(alloc: Global, bytes: &[u8], record_length: u16) -> Result<Image, AllocError>
    requires whole { IsWhole bytes.now }
    requires record { record_length ≡ record_field bytes.now }
    ensures { IfOk result (λ image. image_bytes image ≡ bytes.now) }
{
    let start = code_start(bytes);
    let end = start + 8 * unit_count(bytes);
    let code = bytes[start..end].to_vec(alloc)?;
    let table = rest_of(alloc, bytes, end)?;
    Ok(Image {
        record_length,
        code,
        table,
    })
}

impl Drop for Image {
    // Written out, so that crates above prove a call here, and not the drop of each part.
    fn drop(self) {
        let Image {
            record_length: _record_length,
            code: _code,
            table: _table,
        } = self;
    }
}

impl Model for Image {
    ghost use Rattle.bpf_image.specs.Program.{Program, table_bytes, IsImage};

    ghost Value = { Program };

    ghost view = { λ a. record { code = a.code.items; record_length = a.record_length; table = table_bytes a.table } };

    ghost invariant = { λ a. IsImage
        (record { code = a.code.items; record_length = a.record_length; table = table_bytes a.table }) };
}

impl Image {
    /// The first of these lengths that no image has, as the error that names it. Without a table `table_length` is 0.
    pub fn wrong_length(
        record_length: u16,
        code_length: usize,
        table_length: usize,
    ) -> Option<ImageError>
        ensures { MatchOption result
            (IsRecordLength record_length × IsCodeLength code_length × (table_length ≤ MOST_TABLE_LENGTH))
            (IsWrongLength record_length code_length table_length) }
    {
        if record_length < LEAST_RECORD_LENGTH || record_length > MOST_RECORD_LENGTH {
            return Some(ImageError::RecordLength);
        }
        let units = code_length / 8;
        if code_length % 8 != 0 || units == 0 || units > MOST_UNITS {
            return Some(ImageError::CodeLength);
        }
        if table_length > MOST_TABLE_LENGTH {
            return Some(ImageError::TableLength);
        }
        None
    }

    /// An image of this code without a table, for records of `record_length` bytes. On an error the
    /// code is handed back.
    pub fn new(record_length: u16, code: Vec<u8>) -> Result<Image, (Vec<u8>, ImageError)>
        // The image is of these two.
        ensures made { IfOk result (λ image. image ≡ without_table code.items record_length) }

        // When there is one, and which error it is otherwise.
        ensures fits { IsOk result ↔ (IsRecordLength record_length × IsCodeLength (length code.items)) }
        ensures record { IsErrAnd result (λ e. e.1 ≡ ImageError.RecordLength) ↔ (¬ IsRecordLength record_length) }
        ensures code { IsErrAnd result (λ e. e.1 ≡ ImageError.CodeLength)
            ↔ (IsRecordLength record_length × (¬ IsCodeLength (length code.items))) }

        // On an error the code comes back.
        ensures kept { IfErr result (λ e. e.0 ≡ code) }
    {
        match Image::wrong_length(record_length, code.len(), 0) {
            Some(error) => Err((code, error)),
            None => Ok(Image {
                record_length,
                code,
                table: None,
            }),
        }
    }

    /// An image of this code and this table, for records of `record_length` bytes. On an error both
    /// are handed back.
    pub fn with_table(
        record_length: u16,
        code: Vec<u8>,
        table: Vec<u8>,
    ) -> Result<Image, (Vec<u8>, Vec<u8>, ImageError)>
        // The image is of these three.
        ensures made { IfOk result (λ image. image
            ≡ record { code = code.items; record_length = record_length; table = table.items }) }

        // When there is one, and which error it is otherwise.
        ensures fits { IsOk result
            ↔ (IsRecordLength record_length × IsCodeLength (length code.items) × IsTableLength (length table.items)) }
        ensures record { IsErrAnd result (λ e. e.2 ≡ ImageError.RecordLength) ↔ (¬ IsRecordLength record_length) }
        ensures code { IsErrAnd result (λ e. e.2 ≡ ImageError.CodeLength)
            ↔ (IsRecordLength record_length × (¬ IsCodeLength (length code.items))) }
        ensures table { IsErrAnd result (λ e. e.2 ≡ ImageError.TableLength)
            ↔ (IsRecordLength record_length
            × IsCodeLength (length code.items)
            × (¬ IsTableLength (length table.items))) }

        // On an error code and table come back.
        ensures kept { IfErr result (λ e. (e.0 ≡ code) × (e.1 ≡ table)) }
    {
        match Image::wrong_length(record_length, code.len(), table.len()) {
            Some(error) => Err((code, table, error)),
            None if table.is_empty() => Err((code, table, ImageError::TableLength)),
            None => Ok(Image {
                record_length,
                code,
                table: Some(table),
            }),
        }
    }

    /// How many bytes the record has that each run is lent, 16 to 256.
    pub fn record_length(&self) -> u16
        ensures exact { result ≡ self.now.record_length }
        ensures image { IsImage self.now }
    {
        self.record_length
    }

    /// How many bytes each run is lent.
    pub fn lengths(&self) -> Lengths
        ensures exact { result ≡ lengths_of self.now }
        ensures image { IsImage self.now }
    {
        let table_length = self.table().len() as u16;
        Lengths {
            record_length: self.record_length,
            table_length,
        }
    }

    /// The code, 1 to 4,096 units of 8 bytes.
    pub fn code(&self) -> &[u8]
        ensures exact { result.now ≡ self.now.code }
        ensures image { IsImage self.now }
    {
        &self.code
    }

    /// The table, 1 to 4,096 bytes; without a table there are none.
    pub fn table(&self) -> &[u8]
        ensures exact { result.now ≡ self.now.table }
        ensures image { IsImage self.now }
    {
        match &self.table {
            Some(table) => table,
            None => &self.code[..0],
        }
    }

    /// The image that these bytes spell: `BPE1`, the record length and the count of units in two bytes
    /// each, the lowest first, and the code, with nothing after it. Those of an image with a table
    /// begin with `BPE2`; the length of the table comes before the code, in two bytes too, and the
    /// table after it.
    pub fn load(alloc: Global, bytes: &[u8]) -> Result<Image, ImageError>
        // The bytes are those of the image.
        ensures made { IfOk result (λ image. image_bytes image ≡ bytes.now) }

        // Each error comes on its condition, and only there; memory is asked for last.
        ensures fault { IfErr result (λ error. IsFault bytes.now error) }
        ensures only { (error : ImageError)
            → error ≢ ImageError.OutOfMemory
            → IsFault bytes.now error
            → IsErrOf result error }
    {
        match read_header(bytes) {
            Err(error) => Err(error),
            Ok(record_length) => match image_of(alloc, bytes, record_length) {
                Ok(image) => Ok(image),
                Err(_) => Err(ImageError::OutOfMemory),
            },
        }
    }

    /// The bytes of the image, as `load` reads them.
    pub fn store(&self, alloc: Global) -> Result<Vec<u8>, ImageError>
        ensures bytes { IfOk result (λ bytes. bytes.items ≡ image_bytes self.now) }
        ensures error { IfErr result (λ error. error ≡ ImageError.OutOfMemory) }
    {
        let units = (self.code.len() / 8) as u16;
        let table = self.table();
        let mut bytes = Vec::with_capacity(alloc, 10 + self.code.len() + table.len())?;
        if table.is_empty() {
            bytes.extend_from_slice(&MAGIC)?;
            bytes.extend_from_slice(&self.record_length.to_le_bytes())?;
            bytes.extend_from_slice(&units.to_le_bytes())?;
            bytes.extend_from_slice(&self.code)?;
            return Ok(bytes);
        }
        let table_length = table.len() as u16;
        bytes.extend_from_slice(&TABLE_MAGIC)?;
        bytes.extend_from_slice(&self.record_length.to_le_bytes())?;
        bytes.extend_from_slice(&units.to_le_bytes())?;
        bytes.extend_from_slice(&table_length.to_le_bytes())?;
        bytes.extend_from_slice(&self.code)?;
        bytes.extend_from_slice(table)?;
        Ok(bytes)
    }
}
