//! The code of a text's lines, with labels as distances.
ghost use Rattle.std.specs.Prelude.{◌≡◌, ◌<◌, ◌^◌, ◌+◌, ◌++◌, ℕ, List, map, Ok, Err, IfOk, MatchResult};
ghost use Rattle.std.specs.Str.{bytes_eq};
ghost use Rattle.std.specs.HashMap as hash;
ghost use Rattle.bpf_asm.specs.Assembly.{code_from, item_bytes, place, jump_instruction as jump_instruction_of, unless_memory, Faults};
ghost use Rattle.bpf_isa.specs.Encoding.{spelling, units_of};
ghost use Rattle.bpf_asm.specs.Said.{said_item, IsWritten};
ghost use Rattle.bpf_asm.specs.Statements.{Item as SaidItem};

use crate::errors::{AssembleError, TextCause};
use crate::reading::distance::jump_to;
use crate::reading::item::{Item, Jumping};
use crate::reading::labels::place_of;
use bpf_isa::{Instruction, encode};
use std::alloc::Global;
use std::collections::HashMap;

/// The instruction that goes to a label, before this next unit.
fn jump_instruction(
    jumping: Jumping,
    next: usize,
    place: Option<usize>,
) -> Result<Instruction, TextCause>
    ensures exact { result ≡ jump_instruction_of jumping next place }
    ensures one { IfOk result (λ i. units_of i ≡ 1) }
{
    let Some(place) = place else {
        return Err(TextCause::UnknownLabel);
    };
    match jump_to(jumping, next, place) {
        Some(instruction) => Ok(instruction),
        None => Err(TextCause::NumberRange),
    }
}

/// Writes an instruction at the end of a code, and gives the unit after it.
#[tactic(auto, using(crate::proofs::CodeOfLines::units_few))]
fn put_instruction(
    code: &mut Vec<u8>,
    pc: usize,
    instruction: Instruction,
) -> Result<usize, TextCause>
    requires { pc < 2 ^ 63 }
    ensures { MatchResult result
        (λ next. (code.new.items ≡ code.old.items ++ spelling instruction) × (next ≡ pc + units_of instruction))
        (λ e. e ≡ TextCause.OutOfMemory) }
{
    let (bytes, count) = encode(&instruction);
    match code.extend_from_slice(&bytes[..count]) {
        Ok(()) => Ok(pc + instruction.units()),
        Err(_) => Err(TextCause::OutOfMemory),
    }
}

/// Writes the code of a line, and gives the unit after it.
fn put_item(
    code: &mut Vec<u8>,
    labels: &HashMap<&[u8], usize>,
    pc: usize,
    item: Item,
) -> Result<usize, TextCause>
    requires { pc < 2 ^ 63 }
    ensures { (all : List SaidItem) → ((q : List ℕ) → hash.get_by (λ k. bytes_eq q k.now) labels.now ≡ place q all)
        → MatchResult result
        (λ next. IsWritten all pc (said_item item.entry) code.old.items code.new.items next)
        (λ cause. unless_memory cause (item_bytes all pc (said_item item.entry) ≡ Err cause)) }
{
    match item {
        Item::Blank | Item::Label(_) => Ok(pc),
        Item::Plain(instruction) => match put_instruction(code, pc, instruction) {
            Ok(next) => Ok(next),
            Err(cause) => Err(cause),
        },
        Item::Goes(jumping, name) => {
            let instruction = match jump_instruction(jumping, pc + 1, place_of(labels, name)) {
                Ok(instruction) => instruction,
                Err(cause) => return Err(cause),
            };
            match put_instruction(code, pc, instruction) {
                Ok(next) => Ok(next),
                Err(cause) => Err(cause),
            }
        }
    }
}

/// The code of all lines, where these labels stand at their units.
pub(crate) fn code_of_lines(
    alloc: Global,
    items: &[Item],
    labels: &HashMap<&[u8], usize>,
) -> Result<Vec<u8>, AssembleError>
    requires { (q : List ℕ) → hash.get_by (λ k. bytes_eq q k.now) labels.now ≡ place q (map said_item items.now) }
    ensures { MatchResult result
        (λ code. code_from (map said_item items.now) 1 0 (map said_item items.now) ≡ Ok code.items)
        (λ e. Faults e (code_from (map said_item items.now) 1 0 (map said_item items.now))) }
{
    let mut code = Vec::new(alloc);
    let mut pc = 0;
    for (index, item) in items.iter().enumerate() {
        match put_item(&mut code, labels, pc, *item) {
            Ok(next) => pc = next,
            Err(cause) => {
                return Err(AssembleError {
                    line: index + 1,
                    cause,
                });
            }
        }
    }
    Ok(code)
}
