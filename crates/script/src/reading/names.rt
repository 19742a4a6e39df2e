//! Names of programs, pins and columns.
ghost use Rattle.std.specs.Prelude.{◌≡◌, option_map, IfOk};
ghost use Rattle.std.specs.List.{list_all, slice_split};
ghost use Rattle.session.specs.Kept.{each_now};
ghost use Rattle.script_model.specs.Lexing.{is_name as is_name_word, is_name_byte as is_name_byte_of, is_comma, is_column_name as is_column_word, column_names as column_words};

use crate::reading::hex::is_dash;
use std::alloc::{AllocError, Global};

const MOST_NAME_BYTES: usize = 32;

/// Whether a byte is a letter, a digit, `_` or `-`.
fn is_name_byte(byte: u8) -> bool
    ensures { result ≡ is_name_byte_of byte }
{
    matches!(byte, b'A'..=b'Z' | b'a'..=b'z' | b'0'..=b'9' | b'_' | b'-')
}

/// Whether a word has only bytes that a name may have.
fn has_name_bytes(word: &[u8]) -> bool
    ensures { result ≡ list_all is_name_byte_of word.now }
{
    word.iter().all(|byte| is_name_byte(*byte))
}

/// Whether a word is a name.
pub(crate) fn is_name(word: &[u8]) -> bool
    ensures { result ≡ is_name_word word.now }
{
    !word.is_empty() && word.len() <= MOST_NAME_BYTES && has_name_bytes(word)
}

/// Whether a word is the name of a column.
pub(crate) fn is_column_name(word: &[u8]) -> bool
    ensures { result ≡ is_column_word word.now }
{
    is_name(word) && !is_dash(word)
}

/// What stands between the commas of a word.
fn parts(alloc: Global, word: &[u8]) -> Result<Vec<&[u8]>, AllocError>
    ensures { IfOk result (λ parts. each_now parts.items ≡ slice_split is_comma word.now) }
{
    word.split(|byte| *byte == b',').collect(alloc)
}

/// Whether all words are names of columns.
fn are_column_names(names: &[&[u8]]) -> bool
    ensures { result ≡ list_all is_column_word (each_now names.now) }
{
    for name in names {
        if !is_column_name(name) {
            return false;
        }
    }
    true
}

/// The names of columns that a word has, separated by commas. The word for no column is `-`.
pub(crate) fn column_names(alloc: Global, word: &[u8]) -> Result<Option<Vec<&[u8]>>, AllocError>
    ensures { IfOk result (λ found. option_map (λ v. each_now v.items) found ≡ column_words word.now) }
{
    if is_dash(word) {
        return Ok(Some(Vec::new(alloc)));
    }
    let names = parts(alloc, word)?;
    if !are_column_names(&names) {
        return Ok(None);
    }
    Ok(Some(names))
}
