//! From code to text.
ghost use Rattle.std.specs.Prelude.{◌≡◌, ◌++◌, ℕ, [], false, slice_index_or, string_bytes, codes, if◌then◌else◌, Ok, IfOk, OnOk, MatchResult};
ghost use Rattle.bpf_asm.specs.Listing.{disassembly, is_target, label_line, listing, Refuses};
ghost use Rattle.bpf_asm.specs.Writing.{statement_text};

use crate::errors::DisassembleError;
use crate::writing::decoding::{decode_all, is_marked};
use crate::writing::placed::Placed;
use crate::writing::statement_texts::{put, put_label_line, put_statement};
use crate::writing::targets::find_targets;
use bpf_isa::MOST_CODE_BYTES;
use std::alloc::{AllocError, Global};

/// Writes an instruction's lines.
fn put_lines(text: &mut String, placed: Placed, is_labelled: bool) -> Result<(), AllocError>
    ensures { OnOk result (string_bytes text.new
        ≡ string_bytes text.old
        ++ ((if is_labelled then label_line placed.pc else [])
        ++ (statement_text placed.pc placed.instruction ++ codes "\n"))) }
{
    if is_labelled {
        put_label_line(text, usize::from(placed.pc))?;
    }
    put_statement(text, placed)?;
    put(text, "\n")
}

/// Writes all instructions, each target after its label.
fn write_listing(alloc: Global, placed: &[Placed], targets: &[bool]) -> Result<String, AllocError>
    requires { (k : ℕ) → slice_index_or targets.now k false ≡ is_target k placed.now }
    ensures { IfOk result (λ text. string_bytes text ≡ listing placed.now) }
{
    let mut text = String::new(alloc);
    for one in placed {
        put_lines(&mut text, *one, is_marked(targets, usize::from(one.pc)))?;
    }
    Ok(text)
}

/// The assembler text of some code: a statement a line, and a label `Lk:` on a line of its own
/// before each unit `k` to which a jump or a local call goes.
///
/// Of the errors that apply the first one is given: the code has more than 32,768 bytes, at a pc
/// no instruction stands, the jump or local call at a pc goes where no instruction starts. Each pc
/// is the first such.
pub fn disassemble(alloc: Global, code: &[u8]) -> Result<String, DisassembleError>
    ensures { MatchResult result (λ text. disassembly code.now ≡ Ok (string_bytes text))
        (λ e. Refuses e (disassembly code.now)) }
{
    if code.len() > MOST_CODE_BYTES {
        return Err(DisassembleError::TooLong);
    }
    let decoded = decode_all(alloc, code)?;
    let targets = find_targets(alloc, &decoded.placed, &decoded.starts)?;
    Ok(write_listing(alloc, &decoded.placed, &targets)?)
}
