//! The instructions of a program, one a line.
ghost use Rattle.std.specs.Prelude.{◌≡◌, ◌<◌, ◌≤◌, ◌+◌, ◌++◌, OnOk, IfSome, slice_get, string_bytes};
ghost use Rattle.bpf_isa.specs.Reading.{decoding, units_in};
ghost use Rattle.bpf_isa.specs.declared.limits.TheConstants.{MOST_UNITS};
ghost use Rattle.bpf_image.specs.Program.{units};
ghost use Rattle.explanation.specs.Explanation.{decoded_at, instruction_line, place_text, statement_of};

use crate::source::SourceLine;
use crate::values::{put, put_field, put_number};
use bpf_asm::{Placed, put_statement};
use bpf_image::Image;
use bpf_isa::{Instruction, decode_at};
use std::alloc::AllocError;

/// The instruction that the units at a pc spell, if they spell one.
pub(crate) fn decoded(image: &Image, pc: usize) -> Option<Instruction>
    ensures exact { result ≡ decoded_at image.now pc }
    ensures inside { IfSome result (λ _. pc < MOST_UNITS) }
{
    match decode_at(image.code(), pc) {
        Ok((instruction, _)) => Some(instruction),
        Err(_) => None,
    }
}

/// How many units there are from a pc to the next instruction.
pub(crate) fn units_at(image: &Image, pc: usize) -> usize
    requires { pc < units image.now }
    ensures exact { result ≡ units_in (decoding image.now.code pc) }
    ensures near { pc + result ≤ 8192 }
{
    match decode_at(image.code(), pc) {
        Ok((_, units)) => units,
        Err(_) => 1,
    }
}

/// Writes where an instruction stands.
fn put_place(text: &mut String, pc: usize, line: Option<SourceLine<'_>>) -> Result<(), AllocError>
    ensures { OnOk result (string_bytes text.new ≡ string_bytes text.old ++ place_text pc line.entry) }
{
    put_number(text, pc as u64)?;
    match line {
        None => Ok(()),
        Some(line) => put_field(text, ", line ", line.number),
    }
}

/// Writes a statement: the source's own words, or the disassembler's.
fn put_said(
    text: &mut String,
    pc: usize,
    line: Option<SourceLine<'_>>,
    instruction: Option<Instruction>,
) -> Result<(), AllocError>
    requires { IfSome instruction (λ _. pc < MOST_UNITS) }
    ensures { OnOk result (string_bytes text.new ≡ string_bytes text.old ++ statement_of pc line.entry instruction) }
{
    match (line, instruction) {
        (Some(line), _) => put(text, line.text),
        (None, Some(instruction)) => {
            let pc = pc as u16;
            put_statement(text, Placed { pc, instruction })
        }
        (None, None) => put(text, "no instruction"),
    }
}

/// The line of the source that an instruction stands in, if there is one.
fn line_of<'a>(source: &[SourceLine<'a>], ordinal: usize) -> Option<SourceLine<'a>>
    ensures { result ≡ slice_get source.now ordinal }
{
    source.get(ordinal).copied()
}

/// Writes an instruction on a line of its own.
pub(crate) fn put_instruction(
    text: &mut String,
    image: &Image,
    source: &[SourceLine<'_>],
    pc: usize,
    ordinal: usize,
) -> Result<(), AllocError>
    ensures { OnOk result (string_bytes text.new
        ≡ string_bytes text.old ++ instruction_line image.now source.now pc ordinal) }
{
    let line = line_of(source, ordinal);
    put_place(text, pc, line)?;
    put(text, ": ")?;
    put_said(text, pc, line, decoded(image, pc))?;
    put(text, "\n")
}
