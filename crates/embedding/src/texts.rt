//! Programs as text, and what the verifier knows of them as text.
ghost use Rattle.std.specs.Prelude.{◌≡◌, ◌≢◌, ◌⊎◌};
ghost use Rattle.embedding.specs.declared.statuses.TheConstants.{DONE, NO_MEMORY, LENGTHS};
ghost use Rattle.embedding.specs.Programs.{NamesLength, IsOfLength};
ghost use Rattle.embedding.specs.Texts.{IsWritten, IsAssembled, IsExplained};

use crate::programs::{ProgramBytes, image_of};
use crate::statuses::{DONE, LENGTHS, NO_MEMORY, WRONG_TEXT};
use bpf_asm::{TextCause, assemble};
use explanation::explain;
use std::alloc::Global;

/// What came of a text: how many bytes of code it means, or why and in which line it means none. The others are 0.
#[repr(C)]
#[derive(Clone, Copy, Debug, PartialEq, Eq)]
pub struct Assembled {
    /// How many bytes the code has.
    pub length: usize,
    /// The line, from 1; 0 where the text is no UTF-8.
    pub line: usize,
    /// The fault, by its number; 0 where the text is no UTF-8.
    pub cause: u32,
}

// Writes bytes where the host wants them, and how many they are. `LENGTHS`, and none is written, exactly where there is too
// little room.
fn write_out(bytes: &[u8], out: &mut [u8], count: &mut usize) -> u32
    ensures { IsWritten bytes.now out.old result out.new count.new }
{
    *count = bytes.len();
    if bytes.len() > out.len() {
        return LENGTHS;
    }
    out[..bytes.len()].copy_from_slice(bytes);
    DONE
}

/// Writes the code that a text means, and how many bytes it has. `WRONG_TEXT` where it means none; `LENGTHS` where there is
/// too little room, and then no code is written.
pub fn assemble_into(alloc: Global, text: &[u8], code: &mut [u8], assembled: &mut Assembled) -> u32
    ensures { IsAssembled text.now code.old result assembled.new code.new }
{
    *assembled = Assembled {
        length: 0,
        line: 0,
        cause: 0,
    };
    let Ok(text) = std::str::from_utf8(text) else {
        return WRONG_TEXT;
    };
    match assemble(alloc, text) {
        Ok(bytes) => write_out(&bytes, code, &mut assembled.length),
        Err(error) if error.cause == TextCause::OutOfMemory => NO_MEMORY,
        Err(error) => {
            assembled.line = error.line;
            assembled.cause = error.cause as u32;
            WRONG_TEXT
        }
    }
}

/// Writes a text that explains a program to a person, and how many bytes it has. `LENGTHS` where there is too little room,
/// and then no text is written.
pub fn explain_into(
    alloc: Global,
    bytes: &ProgramBytes<'_>,
    text: &mut [u8],
    count: &mut usize,
) -> u32
    ensures explained { (result ≡ DONE) ⊎ (result
        ≡ LENGTHS) → IsExplained bytes.now text.old result text.new count.new }
    ensures lengths { NamesLength bytes.now result }
    ensures others { result ≢ DONE → result ≢ LENGTHS → (IsOfLength result → ⊥) → result ≡ NO_MEMORY }
    ensures left { result ≢ DONE → text.new ≡ text.old }
{
    let image = match image_of(alloc, bytes) {
        Ok(image) => image,
        Err(status) => return status,
    };
    match explain(alloc, image, &[]) {
        Ok(explained) => write_out(explained.text.as_bytes(), text, count),
        Err(_) => NO_MEMORY,
    }
}
