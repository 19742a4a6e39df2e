//! The words of a line.
ghost use Rattle.std.specs.Prelude.{◌≡◌, ◌↔◌, ◌<◌, ◌≤◌, [], ◌∷◌, length, IfSome, IsTrue, MatchOption};
ghost use Rattle.std.specs.List.{list_all, position_or_len};
ghost use Rattle.script_model.specs.Lexing.{is_blank as is_blank_byte, is_plain, words, same_bytes};

use memchr::memchr2;

/// Whether a byte is printable ASCII or a tab.
fn is_plain_byte(byte: u8) -> bool
    ensures { result ≡ is_plain byte }
{
    (byte >= b' ' && byte <= b'~') || byte == b'\t'
}

/// Whether every byte is printable ASCII or a tab.
// Without an early end, so that many bytes are tested at a time.
pub(crate) fn is_plain_line(line: &[u8]) -> bool
    ensures { result ≡ list_all is_plain line.now }
{
    let mut plain = true;
    for byte in line {
        plain &= is_plain_byte(*byte);
    }
    plain
}

/// Whether a byte separates words.
pub(crate) fn is_blank(byte: u8) -> bool
    ensures { result ≡ is_blank_byte byte }
{
    byte == b' ' || byte == b'\t'
}

/// The line from its first word on.
pub(crate) fn without_blanks(line: &[u8]) -> &[u8]
    ensures words { words result.now ≡ words line.now }
    ensures word { 0 < length result.now → 0 < position_or_len is_blank_byte result.now }
    ensures within { length result.now ≤ length line.now }
{
    let mut at = 0;
    while at < line.len() && is_blank(line[at]) {
        at += 1;
    }
    &line[at..]
}

/// How many bytes a line that begins with a word has before its first blank.
fn word_length(line: &[u8]) -> usize
    requires { 0 < position_or_len is_blank_byte line.now }
    ensures { result ≡ position_or_len is_blank_byte line.now }
{
    // The sign of an edit takes no search.
    if line.len() > 1 && is_blank(line[1]) {
        return 1;
    }
    memchr2(b' ', b'\t', line).unwrap_or(line.len())
}

/// The line's first word, and what stands after it.
pub(crate) fn next_word(line: &[u8]) -> Option<(&[u8], &[u8])>
    ensures words { MatchOption result (words line.now ≡ [])
        (λ found. words line.now ≡ found.0.now ∷ words found.1.now) }
    ensures shorter { IfSome result (λ found. length found.1.now < length line.now) }
{
    let text = without_blanks(line);
    if text.is_empty() {
        return None;
    }
    Some(text.split_at(word_length(text)))
}

/// Whether a line has no word.
pub(crate) fn has_no_word(line: &[u8]) -> bool
    ensures { IsTrue result ↔ (words line.now ≡ []) }
{
    without_blanks(line).is_empty()
}

/// Whether a word is this one.
pub(crate) fn is_word(word: &[u8], expected: &str) -> bool
    ensures { result ≡ same_bytes word.now expected.now }
{
    word == expected.as_bytes()
}
