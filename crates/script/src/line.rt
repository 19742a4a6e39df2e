//! A line of words and numbers, made from its end to its beginning.

ghost use Rattle.std.specs.Prelude.{◌≡◌, ◌+◌, ◌-◌, ◌≤◌, ◌++◌, length, take, drop};
ghost use Rattle.std.specs.Fmt.{decimal};
ghost use Rattle.script.specs.declared.line.TheConstants.{LINE_ROOM};
ghost use Rattle.script_model.specs.Texts.{newline};

use itoa::write_digits;
use std::marker::Model;

/// Room for a word of 5 bytes, three numbers of at most 20 digits, the blanks between and the line's end.
pub(crate) const LINE_ROOM: usize = 72;

/// A line as far as it is made: what is put comes before what is there. Contracts see it as its bytes.
#[derive(Drop)]
pub(crate) struct Line {
    bytes: [u8; LINE_ROOM],
    start: usize,
}

impl Model for Line {
    ghost use Rattle.std.specs.Prelude.{◌≤◌, List, ℕ, drop};

    ghost Value = { List ℕ };

    ghost view = { λ l. drop l.start l.bytes };

    ghost invariant = { λ l. l.start ≤ 72 };
}

/// Writes a word so that it ends at a place.
#[inline(always)]
fn write_word(bytes: &mut [u8], word: &[u8], end: usize)
    requires { (length word.now ≤ end) × (end ≤ length bytes.old) }
    ensures { bytes.new ≡ (take (end - length word.now) bytes.old ++ word.now) ++ drop end bytes.old }
{
    bytes[end - word.len()..end].copy_from_slice(word);
}

impl Line {
    /// The end of a line.
    #[inline(always)]
    pub(crate) fn end() -> Line
        ensures { result ≡ newline }
    {
        let mut bytes = [0; LINE_ROOM];
        bytes[LINE_ROOM - 1] = b'\n';
        Line {
            bytes,
            start: LINE_ROOM - 1,
        }
    }

    /// Puts a number's digits before the line.
    #[inline(always)]
    pub(crate) fn put_number(&mut self, number: u64)
        requires { length self.old + 20 ≤ LINE_ROOM }
        ensures line { self.new ≡ decimal number ++ self.old }
        ensures few { length (decimal number) ≤ 20 }
    {
        self.start = write_digits(number, &mut self.bytes, self.start);
    }

    /// Puts a word before the line.
    #[inline(always)]
    pub(crate) fn put_word(&mut self, word: &[u8])
        requires { length self.old + length word.now ≤ LINE_ROOM }
        ensures { self.new ≡ word.now ++ self.old }
    {
        write_word(&mut self.bytes, word, self.start);
        self.start -= word.len();
    }

    /// Its bytes.
    #[inline(always)]
    pub(crate) fn as_slice(&self) -> &[u8]
        ensures { result.now ≡ self.now }
    {
        &self.bytes[self.start..]
    }
}
