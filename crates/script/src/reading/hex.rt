//! Bytes in hexadecimal digits.
ghost use Rattle.std.specs.Prelude.{◌≡◌, ◌+◌, ◌*◌, ◌<◌, ◌≤◌, Some, None, option_map, IfOk};
ghost use Rattle.script_model.specs.Lexing.{hex as hex_of, hex_byte as hex_byte_of, hex_digit as hex_digit_of, hex_pairs as hex_pairs_of, is_dash as is_dash_word};

use std::alloc::{AllocError, Global};

/// What stands in the table for a byte that is no hexadecimal digit. No number with such a one is a byte.
const NO_DIGIT: u16 = 256;

/// The value of each byte as a hexadecimal digit.
const DIGITS: [u16; 256] = [
    256, 256, 256, 256, 256, 256, 256, 256, 256, 256, 256, 256, 256, 256, 256, 256, 256, 256, 256,
    256, 256, 256, 256, 256, 256, 256, 256, 256, 256, 256, 256, 256, 256, 256, 256, 256, 256, 256,
    256, 256, 256, 256, 256, 256, 256, 256, 256, 256, 0, 1, 2, 3, 4, 5, 6, 7, 8, 9, 256, 256, 256,
    256, 256, 256, 256, 10, 11, 12, 13, 14, 15, 256, 256, 256, 256, 256, 256, 256, 256, 256, 256,
    256, 256, 256, 256, 256, 256, 256, 256, 256, 256, 256, 256, 256, 256, 256, 256, 10, 11, 12, 13,
    14, 15, 256, 256, 256, 256, 256, 256, 256, 256, 256, 256, 256, 256, 256, 256, 256, 256, 256,
    256, 256, 256, 256, 256, 256, 256, 256, 256, 256, 256, 256, 256, 256, 256, 256, 256, 256, 256,
    256, 256, 256, 256, 256, 256, 256, 256, 256, 256, 256, 256, 256, 256, 256, 256, 256, 256, 256,
    256, 256, 256, 256, 256, 256, 256, 256, 256, 256, 256, 256, 256, 256, 256, 256, 256, 256, 256,
    256, 256, 256, 256, 256, 256, 256, 256, 256, 256, 256, 256, 256, 256, 256, 256, 256, 256, 256,
    256, 256, 256, 256, 256, 256, 256, 256, 256, 256, 256, 256, 256, 256, 256, 256, 256, 256, 256,
    256, 256, 256, 256, 256, 256, 256, 256, 256, 256, 256, 256, 256, 256, 256, 256, 256, 256, 256,
    256, 256, 256, 256, 256, 256, 256, 256, 256, 256, 256, 256, 256, 256, 256, 256, 256, 256, 256,
    256, 256, 256,
];

/// The value of a hexadecimal digit. Of a byte that is none it is 256.
#[inline(always)]
fn digit_value(byte: u8) -> u16
    ensures digit { result < 16 → hex_digit_of byte ≡ Some result }
    ensures other { 16 ≤ result → (result ≡ NO_DIGIT) × (hex_digit_of byte ≡ None) }
{
    DIGITS[byte as usize]
}

/// The byte that two hexadecimal digits spell.
#[inline(always)]
fn hex_byte(high: u8, low: u8) -> Option<u8>
    ensures { result ≡ hex_byte_of (hex_digit_of high) (hex_digit_of low) }
{
    let high = digit_value(high);
    let low = digit_value(low);
    u8::try_from(16 * high + low).ok()
}

/// The bytes that pairs of hexadecimal digits spell.
fn hex_pairs(alloc: Global, digits: &[u8]) -> Result<Option<Vec<u8>>, AllocError>
    ensures { IfOk result (λ found. option_map (λ v. v.items) found ≡ hex_pairs_of digits.now) }
{
    let count = digits.len() / 2;
    let mut bytes = vec![in alloc; 0u8; count]?;
    for place in 0..count {
        let Some(byte) = hex_byte(digits[2 * place], digits[2 * place + 1]) else {
            return Ok(None);
        };
        bytes[place] = byte;
    }
    if digits.len() % 2 != 0 {
        return Ok(None);
    }
    Ok(Some(bytes))
}

/// Whether a word is `-`, which stands for no byte and for no column.
pub(crate) fn is_dash(word: &[u8]) -> bool
    ensures { result ≡ is_dash_word word.now }
{
    matches!(word, [b'-'])
}

/// The bytes that a word spells in hexadecimal digits. The word for no byte is `-`.
pub(crate) fn hex(alloc: Global, word: &[u8]) -> Result<Option<Vec<u8>>, AllocError>
    ensures { IfOk result (λ found. option_map (λ v. v.items) found ≡ hex_of word.now) }
{
    if is_dash(word) {
        return Ok(Some(Vec::new(alloc)));
    }
    hex_pairs(alloc, word)
}
