//! Decimal numbers.
ghost use Rattle.std.specs.Prelude.{◌≡◌, ◌+◌, ◌*◌, ◌<◌, map, length, Option, Some, None, option_map, IfOk, IfSome, MatchOption};
ghost use Rattle.script_model.specs.Lexing.{is_digit as is_digit_byte, words};
ghost use Rattle.script_model.specs.Parsing.{numbers};
ghost use Rattle.script.specs.Said.{cut_number};
ghost use Rattle.script.specs.Reading.{first_number};

use crate::reading::words::{has_no_word, is_blank, without_blanks};
use std::alloc::{AllocError, Global};

/// Whether a byte is a decimal digit.
fn is_digit(byte: u8) -> bool
    ensures { result ≡ is_digit_byte byte }
{
    byte >= b'0' && byte <= b'9'
}

/// The number with one digit more, at most 2^64 - 1.
fn with_digit(number: u64, digit: u8) -> u64
    ensures { result ≡ cut_number (10 * number + digit) }
{
    // Ten times so small a number and a byte fit, which spares the usual number two tests.
    if number < 1 << 60 {
        return 10 * number + u64::from(digit);
    }
    number.saturating_mul(10).saturating_add(u64::from(digit))
}

/// The number that the line's first word is, at most 2^64 - 1, and what stands after it.
pub(crate) fn next_number(line: &[u8]) -> Option<(u64, &[u8])>
    ensures first { MatchOption result (first_number (words line.now) ≡ None)
        (λ found. first_number (words line.now) ≡ Some (found.0, words found.1.now)) }
    ensures shorter { IfSome result (λ found. length found.1.now < length line.now) }
{
    let text = without_blanks(line);
    if text.is_empty() {
        return None;
    }
    let mut number = 0;
    for (at, byte) in text.iter().enumerate() {
        if !is_digit(*byte) {
            if is_blank(*byte) {
                return Some((number, &text[at..]));
            }
            return None;
        }
        number = with_digit(number, *byte - b'0');
    }
    Some((number, &[]))
}

/// The numbers of a line that has only numbers.
pub(crate) fn all_numbers(alloc: Global, line: &[u8]) -> Result<Option<Vec<u64>>, AllocError>
    ensures { IfOk result (λ found.
        option_map (λ v. v.items) found ≡ option_map (map cut_number) (numbers (words line.now))) }
{
    let mut found = Vec::new(alloc);
    let mut left = line;
    while let Some((number, rest)) = next_number(left) {
        found.push(number)?;
        left = rest;
    }
    if !has_no_word(left) {
        return Ok(None);
    }
    Ok(Some(found))
}
