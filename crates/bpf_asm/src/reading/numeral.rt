//! Numbers in decimal and hexadecimal digits, with their sign.
ghost use Rattle.std.specs.Prelude.{◌≡◌, ◌<◌, ◌≤◌, ◌^◌, ◌+◌, ◌*◌, ◌&&◌, not, nat_lt, if◌then◌else◌, Option, Some, None, option_map};
ghost use Rattle.std.specs.List.{list_all};
ghost use Rattle.bpf_asm.specs.Lexing.{
  begins_with,
  displacement as displacement_of,
  has_digits as has_digits_only,
  is_empty,
  is_digit as is_digit_byte,
  is_digit_of as is_digit_byte_of,
  is_prefixed as is_prefixed_text,
  number as number_of_text,
  numeral as numeral_of,
};
ghost use Rattle.bpf_asm.specs.Statements.{
  base_number as base_number_of,
  digit_value as digit_value_of,
  digits_from,
  immediate_of,
  magnitude as magnitude_of,
  offset_of,
  signed_below,
  wide_of,
};
ghost use Rattle.bpf_asm.specs.Said.{said_numeral};

use crate::reading::lexing::is_digit;

/// The base of a number's digits.
#[derive(Clone, Copy)]
pub enum Base {
    Ten,
    Sixteen,
}

/// A number's sign, the base of its digits, and these.
#[derive(Clone, Copy)]
pub(crate) struct Numeral<'a> {
    pub(crate) negative: bool,
    pub(crate) base: Base,
    pub(crate) digits: &'a [u8],
}

fn is_digit_of(base: Base, byte: u8) -> bool
    ensures { result ≡ is_digit_byte_of base byte }
{
    match base {
        Base::Ten => is_digit(byte),
        Base::Sixteen => is_digit(byte) || matches!(byte, b'a'..=b'f' | b'A'..=b'F'),
    }
}

fn begins_negative(text: &[u8]) -> bool
    ensures { result ≡ begins_with 45 text.now }
{
    match text {
        [first, ..] => *first == b'-',
        [] => false,
    }
}

fn is_prefixed(text: &[u8]) -> bool
    ensures { result ≡ is_prefixed_text text.now }
{
    match text {
        [first, second, ..] => *first == b'0' && *second == b'x',
        _ => false,
    }
}

/// A text read as a number.
fn numeral_in(text: &[u8]) -> Numeral<'_>
    ensures { said_numeral result ≡ numeral_of text.now }
{
    if begins_negative(text) {
        return Numeral {
            negative: true,
            base: Base::Ten,
            digits: &text[1..],
        };
    }
    if is_prefixed(text) {
        return Numeral {
            negative: false,
            base: Base::Sixteen,
            digits: &text[2..],
        };
    }
    Numeral {
        negative: false,
        base: Base::Ten,
        digits: text,
    }
}

fn are_digits_of(base: Base, text: &[u8]) -> bool
    ensures { result ≡ list_all (is_digit_byte_of base) text.now }
{
    text.iter().all(|byte| is_digit_of(base, *byte))
}

/// Whether a number has digits, and nothing else.
fn has_digits(numeral: Numeral) -> bool
    ensures { result ≡ has_digits_only (said_numeral numeral.entry) }
{
    !numeral.digits.is_empty() && are_digits_of(numeral.base, numeral.digits)
}

/// The number that a text is.
pub(crate) fn number(text: &[u8]) -> Option<Numeral<'_>>
    ensures { option_map said_numeral result ≡ number_of_text text.now }
{
    let found = numeral_in(text);
    if !has_digits(found) {
        return None;
    }
    Some(found)
}

fn are_digits(text: &[u8]) -> bool
    ensures { result ≡ list_all is_digit_byte text.now }
{
    text.iter().all(|byte| is_digit(*byte))
}

/// Whether a text is decimal digits.
fn is_decimal(text: &[u8]) -> bool
    ensures { result ≡ (not (is_empty text.now) && list_all is_digit_byte text.now) }
{
    !text.is_empty() && are_digits(text)
}

/// A sign and decimal digits, or nothing.
pub(crate) fn displacement(text: &[u8]) -> Option<Numeral<'_>>
    ensures { option_map said_numeral result ≡ displacement_of text.now }
{
    let Some((sign, digits)) = text.split_first() else {
        return Some(Numeral {
            negative: false,
            base: Base::Ten,
            digits: &[],
        });
    };
    if !is_decimal(digits) {
        return None;
    }
    Some(Numeral {
        negative: *sign == b'-',
        base: Base::Ten,
        digits,
    })
}

fn digit_value(byte: u8) -> u64
    ensures exact { result ≡ digit_value_of byte }
    ensures small { result < 256 }
{
    if byte <= b'9' {
        return u64::from(byte.saturating_sub(b'0'));
    }
    if byte <= b'F' {
        return u64::from(byte - 55);
    }
    u64::from(byte.saturating_sub(87))
}

fn base_number(base: Base) -> u64
    ensures exact { result ≡ base_number_of base }
    ensures small { result ≤ 16 }
{
    match base {
        Base::Ten => 10,
        Base::Sixteen => 16,
    }
}

/// The number with one digit more, if it is below 2^64.
fn with_digit(base: u64, number: u64, digit: u64) -> Option<u64>
    ensures { result ≡ (if nat_lt (base * number + digit) (2 ^ 64) then Some (base * number + digit) else None) }
{
    base.checked_mul(number)?.checked_add(digit)
}

/// The number that digits spell, if it is below 2^64.
fn magnitude(numeral: Numeral) -> Option<u64>
    ensures { result ≡ (if nat_lt (magnitude_of (said_numeral numeral.entry)) (2 ^ 64) then Some
        (magnitude_of (said_numeral numeral.entry)) else None) }
{
    let base = base_number(numeral.base);
    let mut number = 0;
    for byte in numeral.digits {
        number = with_digit(base, number, digit_value(*byte))?;
    }
    Some(number)
}

/// The number, if it is from -2^31 to 2^31 - 1.
pub(crate) fn immediate(numeral: Numeral) -> Option<i32>
    ensures { result ≡ immediate_of (said_numeral numeral.entry) }
{
    let number = magnitude(numeral)?;
    if numeral.negative {
        if number > 1 << 31 {
            return None;
        }
        return Some((0 - number as i64) as i32);
    }
    if number >= 1 << 31 {
        return None;
    }
    Some(number as i32)
}

/// The number, if it is from -2^15 to 2^15 - 1.
pub(crate) fn offset(numeral: Numeral) -> Option<i16>
    ensures { result ≡ offset_of (said_numeral numeral.entry) }
{
    let number = magnitude(numeral)?;
    if numeral.negative {
        if number > 1 << 15 {
            return None;
        }
        return Some((0 - number as i64) as i16);
    }
    if number >= 1 << 15 {
        return None;
    }
    Some(number as i16)
}

/// The number, if it is from 0 to 2^64 - 1.
pub(crate) fn wide_value(numeral: Numeral) -> Option<u64>
    ensures { result ≡ wide_of (said_numeral numeral.entry) }
{
    let number = magnitude(numeral)?;
    if numeral.negative && number > 0 {
        return None;
    }
    Some(number)
}
