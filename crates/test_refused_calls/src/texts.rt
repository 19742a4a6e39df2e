//! A text that is assembled, its code that becomes the text again, and the program that is verified.
use crate::stop::Stop;
use bpf_asm::{AssembleError, DisassembleError, TextCause, assemble, disassemble};
use bpf_image::Image;
use std::alloc::Global;
use verifier::{Cause, verify};

// It has a label and a branch, so that labels and targets are kept, and two ways meet.
const TEXT: &str = "ldxb r0, [r1+0]\njeq r0, 0, L3\nmov r0, 1\nL3:\nexit\n";

// The program that is accepted, with this bound.
fn verify_code(alloc: Global, code: Vec<u8>) -> Result<(), Stop> {
    let Ok(image) = Image::new(16, code) else {
        return Err(Stop::Wrong);
    };
    match verify(alloc, image) {
        Ok(program) => {
            if program.bound() == 4 {
                Ok(())
            } else {
                Err(Stop::Wrong)
            }
        }
        Err((_, refusal)) => {
            if refusal.cause == Cause::OutOfMemory && refusal.pc == 0 {
                Err(Stop::NotVerified)
            } else {
                Err(Stop::Wrong)
            }
        }
    }
}

/// The text becomes code, the code that text again, and the program is accepted.
pub(crate) fn assemble_and_verify(alloc: Global) -> Result<(), Stop> {
    let code = match assemble(alloc, TEXT) {
        Ok(code) => code,
        Err(AssembleError { cause, .. }) => {
            return Err(if cause == TextCause::OutOfMemory {
                Stop::NotAssembled
            } else {
                Stop::Wrong
            });
        }
    };
    match disassemble(alloc, &code) {
        Ok(text) => {
            if text.as_str() == TEXT {
                verify_code(alloc, code)
            } else {
                Err(Stop::Wrong)
            }
        }
        Err(DisassembleError::OutOfMemory) => Err(Stop::NotDisassembled),
        Err(_) => Err(Stop::Wrong),
    }
}
