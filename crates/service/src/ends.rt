//! Where scripts come from, and where their text goes.

ghost use Rattle.std.specs.Prelude.{◌≡◌, ℕ, List, Option};
ghost use Rattle.std.specs.Io.{ReadsAtMost};
ghost use Rattle.std.specs.Io.KnownBytes.{ReadConsumes, WriteAppends};
ghost use Rattle.service.specs.Ends.{CountsFailure, WritesSome};

use std::io::{Read, Write};
use thiserror::Error;

/// A read or a write that failed. The end that it happened at has counted it.
#[derive(Clone, Copy, Debug, PartialEq, Eq, Error)]
#[error("a read or a write failed")]
pub struct Failure;

/// Where a script comes from.
pub trait Input {
    /// The bytes that reads will give from here on, where they are known.
    ghost remaining: { Self → Option (List ℕ) };

    /// How many reads have failed, modulo 2^64.
    ghost failures: { Self → ℕ };

    /// Reads some bytes to the front of the buffer, and says how many: none only at the end of the
    /// input, or where the buffer is empty.
    fn read(&mut self, buffer: &mut [u8]) -> Result<usize, Failure>
        ensures bound { ReadsAtMost result buffer.new }
        ensures bytes { ReadConsumes (remaining self.old) (remaining self.new) result buffer.new }
        ensures failures { CountsFailure result (failures self.old) (failures self.new) };
}

/// Where the text of a script goes.
pub trait Output {
    /// The bytes that were written so far, where they are known.
    ghost contents: { Self → Option (List ℕ) };

    /// How many writes have failed, modulo 2^64.
    ghost failures: { Self → ℕ };

    /// Writes bytes from the front, and says how many: at least one, where there are any.
    fn write(&mut self, bytes: &[u8]) -> Result<usize, Failure>
        ensures some { WritesSome result bytes.now }
        ensures bytes { WriteAppends (contents self.old) (contents self.new) result bytes.now }
        ensures failures { CountsFailure result (failures self.old) (failures self.new) };
}

/// A reader of the standard library as an input. A read that was interrupted is a failure.
#[derive(Drop)]
pub struct StdInput<R: Read> {
    reader: R,
    failures: u64,
}

impl<R: Read> StdInput<R> {
    /// The input that the reader gives, with no failure yet.
    pub fn new(reader: R) -> StdInput<R>
        ensures unread { result.reader ≡ reader }
        ensures no_failure { result.failures ≡ 0 }
    {
        StdInput {
            reader,
            failures: 0,
        }
    }
}

impl<R: Read> Input for StdInput<R> {
    ghost remaining = { λ s. R.remaining s.reader };

    ghost failures = { λ s. s.failures };

    fn read(&mut self, buffer: &mut [u8]) -> Result<usize, Failure> {
        match self.reader.read(buffer) {
            Ok(count) => Ok(count),
            Err(_) => {
                self.failures = self.failures.wrapping_add(1);
                Err(Failure)
            }
        }
    }
}

/// A writer of the standard library as an output. A write that was interrupted is a failure, and so
/// is one that takes none of some bytes.
#[derive(Drop)]
pub struct StdOutput<W: Write> {
    writer: W,
    failures: u64,
}

impl<W: Write> StdOutput<W> {
    /// The output that the writer takes, with no failure yet.
    pub fn new(writer: W) -> StdOutput<W>
        ensures unwritten { result.writer ≡ writer }
        ensures no_failure { result.failures ≡ 0 }
    {
        StdOutput {
            writer,
            failures: 0,
        }
    }
}

impl<W: Write> Output for StdOutput<W> {
    ghost contents = { λ s. W.contents s.writer };

    ghost failures = { λ s. s.failures };

    fn write(&mut self, bytes: &[u8]) -> Result<usize, Failure> {
        match self.writer.write(bytes) {
            Ok(count) if count > 0 || bytes.is_empty() => Ok(count),
            _ => {
                self.failures = self.failures.wrapping_add(1);
                Err(Failure)
            }
        }
    }
}
