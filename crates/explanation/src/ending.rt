//! What is said of a program in the end: why it is refused, or how long its runs are.
ghost use Rattle.std.specs.Prelude.{◌≡◌, ◌<◌, ◌++◌, OnOk, IfOk, string_bytes, option_map, Some};
ghost use Rattle.bpf_image.specs.Program.{units};
ghost use Rattle.std.specs.List.{list_any};
ghost use Rattle.bpf_model.specs.State.{most_frames};
ghost use Rattle.explanation.specs.Pieces.{pieces_to};
ghost use Rattle.explanation.specs.Judging.{StandsInside};
ghost use Rattle.explanation.specs.Starts.{starts_below};
ghost use Rattle.explanation.specs.Advice.{advice_for};
ghost use Rattle.explanation.specs.Explanation.{
  left_lines,
  operand_lines,
  argument_lines,
  read_lines,
  set_bytes_line,
  set_bytes_piece,
  frame_lines,
  broken_lines,
  judged_state,
  refused_line,
  rule_line,
  advice_line,
  refused_text,
  accepted_text,
  end_text,
};

use crate::advice::{Advice, advice_at};
use crate::cursor::Cursor;
use crate::instructions::{decoded, put_instruction};
use crate::judgement::{Judgement, is_of_the_whole, judges_values};
use crate::labels::{Label, words_of_label};
use crate::listing::known_at_end;
use crate::source::SourceLine;
use crate::values::{put, put_field, put_frame, put_register_line};
use crate::words::{words_of_advice, words_of_cause};
use abstract_state::{AbstractState, Frame};
use bpf_image::{Image, Lengths};
use bpf_isa::{Instruction, Operand, Operation, Register};
use bpf_model::{Cause, Helper, MOST_FRAMES};
use std::alloc::{AllocError, Global};
use verifier::{KnownPassage, Refusal};

/// Which instruction it is that starts at a pc, from 0.
#[tactic(auto, using(crate::proofs::Starts::at_first))]
fn ordinal_of(image: &Image, pc: usize) -> usize
    requires { pc < units image.now }
    ensures { result ≡ starts_below image.now pc }
{
    let mut cursor = Cursor::first();
    for before in 0..pc {
        cursor = cursor.past(image, before);
    }
    cursor.ordinal
}

/// Writes what is known of the left side of an operation, unless it is not read.
fn put_left(
    text: &mut String,
    state: &AbstractState,
    operation: Operation,
    left: Register,
) -> Result<(), AllocError>
    ensures { OnOk result (string_bytes text.new ≡ string_bytes text.old ++ left_lines operation state.now left) }
{
    match operation {
        Operation::Move => Ok(()),
        _ => put_register_line(text, state, left),
    }
}

/// Writes what is known of an operand, if it is a register.
fn put_operand(text: &mut String, state: &AbstractState, operand: Operand) -> Result<(), AllocError>
    ensures { OnOk result (string_bytes text.new ≡ string_bytes text.old ++ operand_lines state.now operand) }
{
    match operand {
        Operand::Immediate(_) => Ok(()),
        Operand::Source(register) => put_register_line(text, state, register),
    }
}

/// Writes what is known of the arguments of a helper.
fn put_arguments(
    text: &mut String,
    state: &AbstractState,
    helper: Option<Helper>,
) -> Result<(), AllocError>
    ensures { OnOk result (string_bytes text.new ≡ string_bytes text.old ++ argument_lines state.now helper) }
{
    match helper {
        None | Some(Helper::VertexCount) => Ok(()),
        Some(Helper::Degree) => put_register_line(text, state, Register::R1),
        Some(Helper::HasEdge | Helper::Neighbour) => {
            put_register_line(text, state, Register::R1)?;
            put_register_line(text, state, Register::R2)
        }
        Some(Helper::Gather) => {
            put_register_line(text, state, Register::R1)?;
            put_register_line(text, state, Register::R2)?;
            put_register_line(text, state, Register::R3)?;
            put_register_line(text, state, Register::R4)
        }
    }
}

/// Writes what is known of the values that an instruction reads.
fn put_read(
    text: &mut String,
    state: &AbstractState,
    instruction: Instruction,
) -> Result<(), AllocError>
    ensures { OnOk result (string_bytes text.new ≡ string_bytes text.old ++ read_lines state.now instruction) }
{
    match instruction {
        Instruction::Alu {
            operation,
            destination,
            operand,
            ..
        } => {
            put_left(text, state, operation, destination)?;
            put_operand(text, state, operand)
        }
        Instruction::Branch { left, right, .. } => {
            put_register_line(text, state, left)?;
            put_operand(text, state, right)
        }
        Instruction::MoveSigned { source, .. } => put_register_line(text, state, source),
        Instruction::Negate { destination, .. } | Instruction::Swap { destination, .. } => {
            put_register_line(text, state, destination)
        }
        Instruction::CallHelper { number } => put_arguments(text, state, Helper::of(number)),
        Instruction::Exit => put_register_line(text, state, Register::R0),
        Instruction::Load { base, .. }
        | Instruction::LoadSigned { base, .. }
        | Instruction::Store { base, .. } => put_register_line(text, state, base),
        Instruction::StoreRegister { base, source, .. } => {
            put_register_line(text, state, base)?;
            put_register_line(text, state, source)
        }
        Instruction::Jump { .. } | Instruction::CallLocal { .. } | Instruction::Wide { .. } => {
            Ok(())
        }
    }
}

/// Whether a byte of a frame is set.
fn has_set_bytes(frame: &Frame) -> bool
    ensures { result ≡ list_any (λ is_set. is_set) frame.now.bytes_set }
{
    frame.bytes_set.iter().any(|is_set| *is_set)
}

/// Writes which bytes of a frame are set, or that none is.
fn put_set_bytes(text: &mut String, frame: &Frame, number: u64) -> Result<(), AllocError>
    ensures { OnOk result (string_bytes text.new ≡ string_bytes text.old ++ set_bytes_line (Some frame.now) number) }
{
    put_field(text, words_of_label(Label::Frame), number)?;
    put(text, ":")?;
    if has_set_bytes(frame) {
        put_frame(text, frame, number)?;
    } else {
        put(text, words_of_label(Label::NoByte))?;
    }
    put(text, "\n")
}

/// Writes which bytes are set of the frame of a number, if it is live.
fn put_set_bytes_of(text: &mut String, state: &AbstractState, number: u8) -> Result<(), AllocError>
    ensures { OnOk result (string_bytes text.new ≡ string_bytes text.old ++ set_bytes_piece state.now number) }
{
    match state.frame(number) {
        None => Ok(()),
        Some(frame) => put_set_bytes(text, frame, u64::from(number)),
    }
}

/// Writes which bytes are set of each live frame.
#[tactic(auto, using(crate::proofs::Written::pieces_none, crate::proofs::Written::written_more))]
fn put_all_set_bytes(text: &mut String, state: &AbstractState) -> Result<(), AllocError>
    ensures { OnOk result (string_bytes text.new
        ≡ string_bytes text.old ++ pieces_to (set_bytes_piece state.now) most_frames) }
{
    for number in 0..MOST_FRAMES as u8 {
        put_set_bytes_of(text, state, number)?;
    }
    Ok(())
}

/// Writes what is known of the frames, where it is asked which bytes are set.
fn put_asked_frames(
    text: &mut String,
    state: &AbstractState,
    cause: Cause,
) -> Result<(), AllocError>
    ensures { OnOk result (string_bytes text.new ≡ string_bytes text.old ++ frame_lines cause state.now) }
{
    match cause {
        Cause::UnsetStackByte => put_all_set_bytes(text, state),
        _ => Ok(()),
    }
}

/// Writes what is known of all that a broken rule looks at.
fn put_broken(
    text: &mut String,
    cause: Cause,
    instruction: Option<Instruction>,
    state: Option<&AbstractState>,
) -> Result<(), AllocError>
    ensures { OnOk result (string_bytes text.new ≡ string_bytes text.old
        ++ broken_lines cause instruction (option_map (λ s. s.now) state.entry)) }
{
    match (instruction, state) {
        (Some(instruction), Some(state)) => {
            put_read(text, state, instruction)?;
            put_asked_frames(text, state, cause)
        }
        _ => Ok(()),
    }
}

/// What usually helps, where an instruction may be missing or nothing be known of its values.
fn advice(
    alloc: Global,
    cause: Cause,
    instruction: Option<Instruction>,
    state: Option<&AbstractState>,
) -> Result<Advice, AllocError>
    ensures { IfOk result (λ advice. advice ≡ advice_for cause instruction (option_map (λ s. s.now) state.entry)) }
{
    let lengths = Lengths {
        record_length: 16,
        table_length: 0,
    };
    match (instruction, state) {
        (Some(instruction), Some(state)) => Ok(advice_at(cause, instruction, state)),
        (Some(instruction), None) => {
            let entry = AbstractState::entry(alloc, lengths)?;
            Ok(advice_at(cause, instruction, &entry))
        }
        (None, _) => {
            let entry = AbstractState::entry(alloc, lengths)?;
            Ok(advice_at(cause, Instruction::Exit, &entry))
        }
    }
}

/// Writes where a program is refused.
fn put_refused_place(
    text: &mut String,
    image: &Image,
    source: &[SourceLine<'_>],
    refusal: Refusal,
) -> Result<(), AllocError>
    requires { refusal.pc < units image.now }
    ensures { OnOk result (string_bytes text.new
        ≡ string_bytes text.old ++ refused_line image.now source.now refusal) }
{
    if is_of_the_whole(refusal.cause) {
        return put(text, "refused as a whole\n");
    }
    put(text, "refused at ")?;
    put_instruction(
        text,
        image,
        source,
        refusal.pc,
        ordinal_of(image, refusal.pc),
    )
}

/// Writes the rule in words.
fn put_rule(text: &mut String, cause: Cause) -> Result<(), AllocError>
    ensures { OnOk result (string_bytes text.new ≡ string_bytes text.old ++ rule_line cause) }
{
    put_field(text, "rule ", cause as u64)?;
    put(text, ": ")?;
    put(text, words_of_cause(cause))?;
    put(text, "\n")
}

/// Writes what usually helps.
fn put_advice(text: &mut String, advice: Advice) -> Result<(), AllocError>
    ensures { OnOk result (string_bytes text.new ≡ string_bytes text.old ++ advice_line advice) }
{
    put(text, words_of_label(Label::Help))?;
    put(text, words_of_advice(advice))?;
    put(text, "\n")
}

/// What a broken rule looks at: what is known where the last passage ends, if it is a rule of values.
fn judged(cause: Cause, passages: &[KnownPassage]) -> Option<&AbstractState>
    ensures { option_map (λ s. s.now) result ≡ judged_state cause passages.now }
{
    if judges_values(cause) {
        known_at_end(passages)
    } else {
        None
    }
}

/// Writes why a program is refused.
fn put_refusal(
    text: &mut String,
    image: &Image,
    source: &[SourceLine<'_>],
    passages: &[KnownPassage],
    refusal: Refusal,
) -> Result<(), AllocError>
    requires { refusal.pc < units image.now }
    ensures { OnOk result (string_bytes text.new
        ≡ string_bytes text.old ++ refused_text image.now source.now passages.now refusal) }
{
    let instruction = decoded(image, refusal.pc);
    let state = judged(refusal.cause, passages);
    put_refused_place(text, image, source, refusal)?;
    put_rule(text, refusal.cause)?;
    put_broken(text, refusal.cause, instruction, state)?;
    let alloc = *text.allocator();
    put_advice(text, advice(alloc, refusal.cause, instruction, state)?)
}

/// Writes that a program is accepted.
fn put_accepted(text: &mut String, bound: u32, frames: u8) -> Result<(), AllocError>
    ensures { OnOk result (string_bytes text.new ≡ string_bytes text.old ++ accepted_text bound frames) }
{
    put_field(text, words_of_label(Label::Accepted), u64::from(bound))?;
    put_field(text, words_of_label(Label::Frames), u64::from(frames))?;
    put(text, "\n")
}

/// Writes what is said of a program in the end.
pub(crate) fn put_end(
    text: &mut String,
    image: &Image,
    source: &[SourceLine<'_>],
    passages: &[KnownPassage],
    judgement: Judgement,
) -> Result<(), AllocError>
    requires { StandsInside (units image.now) judgement }
    ensures { OnOk result (string_bytes text.new
        ≡ string_bytes text.old ++ end_text image.now source.now passages.now judgement) }
{
    match judgement {
        Judgement::Accepted { bound, frames } => put_accepted(text, bound, frames),
        Judgement::Refused(refusal) => put_refusal(text, image, source, passages, refusal),
    }
}
