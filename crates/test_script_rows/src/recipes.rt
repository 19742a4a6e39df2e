//! Bytes, made of lines that each stand for themselves or for more.
use itoa::Buffer;
use std::alloc::{AllocError, Global};

/// Lines that were read so far, with line ends between them.
#[derive(Drop)]
struct Lines {
    bytes: Vec<u8>,
    is_begun: bool,
}

impl Lines {
    fn begin_line(&mut self) -> Result<(), AllocError> {
        if self.is_begun {
            self.bytes.push(b'\n')?;
        }
        self.is_begun = true;
        Ok(())
    }

    /// Lines that a pattern makes of a number: a stroke is a line end, and a `#` is the number.
    fn push_pattern(&mut self, pattern: &str, number: u64) -> Result<(), AllocError> {
        let mut buffer = Buffer::new();
        let digits = buffer.format(number).as_bytes();
        self.begin_line()?;
        for byte in pattern.bytes() {
            match byte {
                b'/' => self.begin_line()?,
                b'#' => self.bytes.extend_from_slice(digits)?,
                _ => self.bytes.push(byte)?,
            }
        }
        Ok(())
    }

    /// So many times these bytes, at the end of the line before.
    fn extend(&mut self, bytes: &[u8], count: u64) -> Result<(), AllocError> {
        self.is_begun = true;
        for _ in 0..count {
            self.bytes.extend_from_slice(bytes)?;
        }
        Ok(())
    }

    /// What a line stands for.
    fn push_meaning(&mut self, line: &str) -> Result<(), AllocError> {
        let (mark, words) = line.split_once(' ').unwrap_or((line, ""));
        let (first, rest) = words.split_once(' ').unwrap_or((words, ""));
        match mark {
            "%*" => {
                let (below, pattern) = rest.split_once(' ').unwrap_or((rest, ""));
                for number in number_of(first)..number_of(below) {
                    self.push_pattern(pattern, number)?;
                }
                Ok(())
            }
            "%+" => self.extend(rest.as_bytes(), number_of(first)),
            "%x" => self.extend(&[byte_of(first)], number_of(rest)),
            _ => {
                self.begin_line()?;
                self.bytes.extend_from_slice(line.as_bytes())?;
                Ok(())
            }
        }
    }
}

/// The number that a word says; another word is 0.
fn number_of(word: &str) -> u64 {
    word.parse::<u64>().unwrap_or(0)
}

/// The byte that two hexadecimal digits say; other words are 0.
fn byte_of(word: &str) -> u8 {
    u8::from_str_radix(word, 16).unwrap_or(0)
}

/// The bytes that lines stand for. `%* FIRST BELOW PATTERN` is the lines of a pattern for each number from the first on, below
/// the second; `%+ COUNT TEXT` is a text so often at the end of the line before, and `%x BYTE COUNT` a byte. Any other line
/// is itself.
pub(crate) fn bytes_of(alloc: Global, lines: &str) -> Result<Vec<u8>, AllocError> {
    let mut meant = Lines {
        bytes: Vec::new(alloc),
        is_begun: false,
    };
    for line in lines.split('\n') {
        meant.push_meaning(line)?;
    }
    Ok(meant.bytes)
}
