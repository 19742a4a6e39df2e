//! Blanks, comments and names.
ghost use Rattle.std.specs.Prelude.{◌≡◌, ◌==◌, ◌<◌, [], Option, Some, None};
ghost use Rattle.std.specs.List.{list_all, position_or_len};
ghost use Rattle.bpf_asm.specs.Lexing.{
  is_blank as is_blank_byte,
  is_digit as is_digit_byte,
  is_letter as is_letter_byte,
  is_name as is_name_text,
  is_word as is_word_text,
  is_word_byte as is_word_byte_of,
  name as name_of,
  parts,
  register_named as register_named_of,
  said_part as said_part_of,
  without_blanks as without_blanks_of,
  without_end as without_end_of,
  without_front as without_front_of,
};

use bpf_isa::Register;

/// The most bytes of a name.
const MOST_NAME_BYTES: usize = 32;

pub(crate) fn is_blank(byte: u8) -> bool
    ensures { result ≡ is_blank_byte byte }
{
    byte == b' ' || byte == b'\t'
}

pub(crate) fn is_digit(byte: u8) -> bool
    ensures { result ≡ is_digit_byte byte }
{
    byte >= b'0' && byte <= b'9'
}

/// Whether a byte is a letter or `_`.
fn is_letter(byte: u8) -> bool
    ensures { result ≡ is_letter_byte byte }
{
    matches!(byte, b'a'..=b'z' | b'A'..=b'Z' | b'_')
}

fn is_word_byte(byte: u8) -> bool
    ensures { result ≡ is_word_byte_of byte }
{
    is_letter(byte) || is_digit(byte)
}

/// The place of the first such byte, or the text's length where there is none.
pub(crate) fn position_of(text: &[u8], byte: u8) -> usize
    ensures { result ≡ position_or_len (λ b. b == byte) text.now }
{
    for (at, other) in text.iter().enumerate() {
        if *other == byte {
            return at;
        }
    }
    text.len()
}

/// The place of the first blank, or the text's length where there is none.
pub(crate) fn position_of_blank(text: &[u8]) -> usize
    ensures { result ≡ position_or_len is_blank_byte text.now }
{
    for (at, other) in text.iter().enumerate() {
        if is_blank(*other) {
            return at;
        }
    }
    text.len()
}

/// A text without the blanks in front.
fn without_front(text: &[u8]) -> &[u8]
    ensures { result.now ≡ without_front_of text.now }
{
    let mut at = 0;
    while at < text.len() && is_blank(text[at]) {
        at += 1;
    }
    &text[at..]
}

/// A text without the blanks at its end.
fn without_end(text: &[u8]) -> &[u8]
    ensures { result.now ≡ without_end_of text.now }
{
    let mut end = text.len();
    while end > 0 && is_blank(text[end - 1]) {
        end -= 1;
    }
    &text[..end]
}

/// A text without the blanks at both ends.
pub(crate) fn without_blanks(text: &[u8]) -> &[u8]
    ensures { result.now ≡ without_blanks_of text.now }
{
    without_end(without_front(text))
}

/// A line without its comment and without blanks at both ends.
pub(crate) fn said_part(line: &[u8]) -> &[u8]
    ensures { result.now ≡ said_part_of line.now }
{
    without_blanks(&line[..position_of(line, b';')])
}

/// Whether a text has only letters, digits and `_`.
fn has_word_bytes(text: &[u8]) -> bool
    ensures { result ≡ list_all is_word_byte_of text.now }
{
    text.iter().all(|byte| is_word_byte(*byte))
}

/// Whether a text is a letter or `_`, and then letters, digits and `_`.
pub(crate) fn is_word(text: &[u8]) -> bool
    ensures { result ≡ is_word_text text.now }
{
    match text {
        [first, others @ ..] => is_letter(*first) && has_word_bytes(others),
        [] => false,
    }
}

/// The register that a text names.
pub(crate) fn register_named(text: &[u8]) -> Option<Register>
    ensures { result ≡ register_named_of text.now }
{
    match text {
        [first, digit] => {
            if *first == b'r' && is_digit(*digit) {
                return Register::from_number(*digit - b'0');
            }
            None
        }
        [first, second, third] => {
            if *first == b'r' && *second == b'1' && *third == b'0' {
                return Some(Register::R10);
            }
            None
        }
        _ => None,
    }
}

/// Whether a text can be a label's name.
pub(crate) fn is_name(text: &[u8]) -> bool
    ensures { result ≡ is_name_text text.now }
{
    is_word(text) && text.len() <= MOST_NAME_BYTES && register_named(text).is_none()
}
